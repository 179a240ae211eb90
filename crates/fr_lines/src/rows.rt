ghost use Rattle.std.specs.Prelude.{◌≡◌, ◌≤◌, length, if◌then◌else◌};
ghost use Rattle.std.specs.List.{sum_by};
ghost use Rattle.fr_time.specs.Cycles.{is_odd};

use fr_base::{NodeRow, RowList};

// Keeps the rows of an odd cycle.
pub(crate) fn keep_odd(cycle: u32, rows: &RowList, odd: &mut RowList)
    ensures { odd.new ≡ (if is_odd cycle then rows.now else odd.old) }
{
    if cycle % 2 == 1 {
        odd.assign(rows);
    }
}

// How many correction terms were cut in a cycle.
pub(crate) fn cuts(rows: &[NodeRow]) -> u64
    requires { length rows.now ≤ 64 }
    ensures value { result ≡ sum_by (λ row. row.cut) rows.now }
    ensures most { result ≤ 20_000 }
{
    let mut cuts = 0;
    for row in rows {
        cuts += u64::from(row.cut);
    }
    cuts
}
