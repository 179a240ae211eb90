ghost use Rattle.std.specs.Prelude.{◌≡◌, true, All};
ghost use Rattle.fr_time.specs.Position.{IsGrid};
ghost use Rattle.fr_skew.specs.Alike.{AreAlike, HasRate, HasTerms, HaveOneRate, KeepPace};

use crate::bound::correction;
use fr_base::NodeRow;
use fr_time::{Grid, is_odd};

// Whether all rows have the same terms.
pub(crate) fn are_alike(rows: &[NodeRow]) -> bool
    ensures { result ≡ true → AreAlike rows.now }
{
    match rows.first() {
        None => true,
        Some(first) => have_terms(rows, first.rate, first.offset),
    }
}

// Whether all rows have these terms.
fn have_terms(rows: &[NodeRow], rate: i32, offset: i32) -> bool
    ensures { result ≡ true → All (HasTerms rate offset) rows.now }
{
    for row in rows {
        if !has_terms(row, rate, offset) {
            return false;
        }
    }
    true
}

fn has_terms(row: &NodeRow, rate: i32, offset: i32) -> bool
    ensures { result ≡ true → HasTerms rate offset row.now }
{
    row.rate == rate && row.offset == offset
}

// Whether all rows have the same rate, and no offset correction moves any of them before a macrotick of the cycle.
pub(crate) fn keep_pace(grid: &Grid, cycle: u32, rows: &[NodeRow], to: u32) -> bool
    requires { IsGrid grid.now }
    ensures { result ≡ true → KeepPace grid.now cycle rows.now to }
{
    if is_odd(cycle) {
        to <= correction(grid) && have_one_rate(rows)
    } else {
        have_one_rate(rows)
    }
}

// Whether all rows have the same rate.
fn have_one_rate(rows: &[NodeRow]) -> bool
    ensures { result ≡ true → HaveOneRate rows.now }
{
    match rows.first() {
        None => true,
        Some(first) => have_rate(rows, first.rate),
    }
}

// Whether all rows have this rate.
fn have_rate(rows: &[NodeRow], rate: i32) -> bool
    ensures { result ≡ true → All (HasRate rate) rows.now }
{
    for row in rows {
        if !has_rate(row, rate) {
            return false;
        }
    }
    true
}

fn has_rate(row: &NodeRow, rate: i32) -> bool
    ensures { result ≡ true → HasRate rate row.now }
{
    row.rate == rate
}
