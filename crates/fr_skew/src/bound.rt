ghost use Rattle.std.specs.Prelude.{◌≡◌, ◌<◌, ◌≤ℤ◌, ℕ, nat_abs, pos, true, All, IsSome};
ghost use Rattle.fr_base.specs.Within.{IsBetween};
ghost use Rattle.fr_time.specs.Placed.{IsPlacedRow};
ghost use Rattle.fr_time.specs.Position.{IsGrid};
ghost use Rattle.fr_skew.specs.Alike.{AreAlike};
ghost use Rattle.fr_skew.specs.Spreads.{most_apart_ever, spread_at};
ghost use Rattle.fr_skew.specs.Sweep.{greatest_within};

use crate::alike::are_alike;
use crate::peak::{Peak, macroticks};
use crate::spread::spread_at;
use fr_base::NodeRow;
use fr_time::Grid;

// Whether by its bound no macrotick of a cycle can have a greater skew than there is.
pub(crate) fn is_greatest(grid: &Grid, cycle: u32, rows: &[NodeRow], before: Option<Peak>) -> bool
    requires grid { IsGrid grid.now }
    requires rows { All (IsPlacedRow grid.now) rows.now }
    ensures kept { result ≡ true →
        greatest_within grid.now cycle rows.now before (nat_abs grid.now.macros) ≡ before }
    ensures there { result ≡ true → IsSome before }
{
    match before {
        None => false,
        Some(peak) => bound_of(grid, cycle, rows) <= peak.skew,
    }
}

// The greatest length of a microtick, in ticks.
pub(crate) const MOST: i64 = 1_500_000;

// How far at most the instants of any macrotick of a cycle lie apart, in ticks.
fn bound_of(grid: &Grid, cycle: u32, rows: &[NodeRow]) -> i64
    requires grid { IsGrid grid.now }
    requires rows { All (IsPlacedRow grid.now) rows.now }
    ensures { (macrotick : ℕ) → pos macrotick ≤ℤ grid.now.macros →
        spread_at grid.now cycle rows.now macrotick ≤ℤ result }
{
    if are_alike(rows) {
        bound_by_ends(grid, cycle, rows)
    } else {
        bound_by_corners(grid, cycle, rows)
    }
}

// That bound where all nodes have the same macroticks: then between two of them the distance grows or shrinks all along.
fn bound_by_ends(grid: &Grid, cycle: u32, rows: &[NodeRow]) -> i64
    requires grid { IsGrid grid.now }
    requires rows { All (IsPlacedRow grid.now) rows.now }
    requires alike { AreAlike rows.now }
    ensures { (macrotick : ℕ) → pos macrotick ≤ℤ grid.now.macros →
        spread_at grid.now cycle rows.now macrotick ≤ℤ result }
{
    wider_end(grid, cycle, rows, 0, macroticks(grid))
}

// That bound where they have not: between the beginning of the cycle, the start of the offset correction and the end
// each node's instants lie on a line, but for a microtick.
fn bound_by_corners(grid: &Grid, cycle: u32, rows: &[NodeRow]) -> i64
    requires grid { IsGrid grid.now }
    requires rows { All (IsPlacedRow grid.now) rows.now }
    ensures { (macrotick : ℕ) → pos macrotick ≤ℤ grid.now.macros →
        spread_at grid.now cycle rows.now macrotick ≤ℤ result }
{
    let macros = macroticks(grid);
    let correction = correction(grid);
    let begins = spread_at(grid, 0, 0, rows);
    let evenly = spread_at(grid, 0, macros, rows);
    let turns = spread_at(grid, cycle, correction, rows);
    let ends = spread_at(grid, cycle, macros, rows);
    wider(wider(begins, evenly), wider(turns, ends)) + MOST
}

// The greater of the spreads of two macroticks of a cycle.
pub(crate) fn wider_end(grid: &Grid, cycle: u32, rows: &[NodeRow], from: u32, to: u32) -> i64
    requires rows { All (IsPlacedRow grid.now) rows.now }
    requires from { pos from ≤ℤ grid.now.macros }
    requires to { pos to ≤ℤ grid.now.macros }
    ensures begins { spread_at grid.now cycle rows.now from ≤ℤ result }
    ensures ends { spread_at grid.now cycle rows.now to ≤ℤ result }
    ensures within { IsBetween (pos 0) (pos most_apart_ever) result }
{
    let begins = spread_at(grid, cycle, from, rows);
    let ends = spread_at(grid, cycle, to, rows);
    wider(begins, ends)
}

// The greater of two spreads.
pub(crate) fn wider(one: i64, other: i64) -> i64
    requires one { IsBetween (pos 0) (pos most_apart_ever) one }
    requires other { IsBetween (pos 0) (pos most_apart_ever) other }
    ensures first { one ≤ℤ result }
    ensures second { other ≤ℤ result }
    ensures within { IsBetween (pos 0) (pos most_apart_ever) result }
{
    if one < other { other } else { one }
}

// The macrotick at which the offset correction starts.
pub(crate) fn correction(grid: &Grid) -> u32
    requires { IsGrid grid.now }
    ensures number { pos result ≡ grid.now.correction }
    ensures within { pos result ≤ℤ grid.now.macros }
    ensures earlier { result < nat_abs grid.now.macros }
{
    grid.correction as u32
}
