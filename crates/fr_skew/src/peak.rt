ghost use Rattle.std.specs.Prelude.{◌≡◌, ◌≤◌, ◌≤ℤ◌, nat_abs, pos, All, Some, IsSome};
ghost use Rattle.fr_time.specs.Placed.{IsPlacedRow};
ghost use Rattle.fr_time.specs.Position.{IsGrid};
ghost use Rattle.fr_skew.specs.Sweep.{greater_of, greatest_within};

use crate::bound::is_greatest;
use crate::spread::spread_at;
use crate::stretches::swept_by_stretches;
use fr_base::{NodeRow, ROW_ROOM};
use fr_time::Grid;

/// A skew in ticks, and where it stands.
#[derive(Clone, Copy, Debug, PartialEq, Eq)]
pub struct Peak {
    /// How far the clocks lie apart.
    pub skew: i64,
    /// In which cycle.
    pub cycle: u32,
    /// At which macrotick.
    pub macrotick: u32,
}

/// The greatest skew so far after all macroticks of one more cycle, and its first place. A cycle, or a stretch
/// of one, in which by its bound no skew can be the greatest is not asked macrotick by macrotick. It takes no
/// memory; more rows than a cluster has nodes are asked one by one, as `swept_through` asks.
pub fn swept(grid: &Grid, cycle: u32, rows: &[NodeRow], before: Option<Peak>) -> Option<Peak>
    requires grid { IsGrid grid.now }
    requires rows { All (IsPlacedRow grid.now) rows.now }
    ensures value { result ≡ greatest_within grid.now cycle rows.now before (nat_abs grid.now.macros) }
    ensures there { IsSome result }
{
    if is_greatest(grid, cycle, rows, before) {
        before
    } else if rows.len() <= ROW_ROOM {
        swept_by_stretches(grid, cycle, rows, before)
    } else {
        swept_through(grid, cycle, rows, before)
    }
}

/// The same, asked for each macrotick of each node.
pub fn swept_through(
    grid: &Grid,
    cycle: u32,
    rows: &[NodeRow],
    before: Option<Peak>,
) -> Option<Peak>
    requires grid { IsGrid grid.now }
    requires rows { All (IsPlacedRow grid.now) rows.now }
    ensures value { result ≡ greatest_within grid.now cycle rows.now before (nat_abs grid.now.macros) }
    ensures there { IsSome result }
{
    let mut peak = before;
    for macrotick in 0..macroticks(grid) {
        let skew = spread_at(grid, cycle, macrotick, rows);
        peak = Some(greater(
            peak,
            Peak {
                skew,
                cycle,
                macrotick,
            },
        ));
    }
    peak
}

/// How many macroticks a cycle has.
pub fn macroticks(grid: &Grid) -> u32
    requires { IsGrid grid.now }
    ensures value { result ≡ nat_abs grid.now.macros }
    ensures number { pos result ≡ grid.now.macros }
    ensures some { 1 ≤ result }
{
    grid.macros as u32
}

// The greater of two skews, the earlier one where they are the same.
pub(crate) fn greater(earlier: Option<Peak>, later: Peak) -> Peak
    ensures { result ≡ greater_of earlier later }
{
    match earlier {
        None => later,
        Some(earlier) => {
            if earlier.skew < later.skew {
                later
            } else {
                earlier
            }
        }
    }
}
