ghost use Rattle.std.specs.Prelude.{◌≡◌, ◌≤ℤ◌, ◌+ℤ◌, ◌-ℤ◌, ◌*ℤ◌, ◌&&◌, int_lt, pos};
ghost use Rattle.fr_base.specs.Within.{IsBetween};
ghost use Rattle.fr_time.specs.Position.{corrected_micros, corrected_position, even_position, floor_of, position_of, IsGrid, IsPlaceable};
ghost use Rattle.fr_time.specs.Instant.{instant_of, most_instant};
ghost use Rattle.fr_time.specs.Placed.{IsPlacedRow};

use crate::grid::Grid;
use fr_base::{NodeRow, ticks_of};

/// The position of a macrotick, in microticks from the start of its cycle (section 8.2): the macroticks lie
/// evenly over the cycle, in an odd cycle up to the start of the offset correction over the cycle without
/// its offset and from there on over what is left; each quotient is rounded down. The terms are in
/// microticks.
pub fn position(grid: &Grid, rate: i32, offset: i32, odd: bool, macrotick: i64) -> i64
    requires placeable { IsPlaceable grid.now rate offset }
    requires macrotick { IsBetween (pos 0) grid.now.macros macrotick }
    ensures value { result ≡ position_of grid.now rate offset odd macrotick }
    ensures within { IsBetween (pos 0) (pos 700_000) result }
{
    if is_late(grid, odd, macrotick) {
        corrected(grid, rate, offset, macrotick)
    } else {
        even(grid, rate, macrotick)
    }
}

// Whether a macrotick lies after the start of the offset correction of its cycle.
fn is_late(grid: &Grid, odd: bool, macrotick: i64) -> bool
    ensures { result ≡ (odd && int_lt grid.now.correction macrotick) }
{
    odd && grid.correction < macrotick
}

/// The instant of a macrotick in a node's cycle, in ticks (section 8.2): the start of the cycle, and a
/// microtick's length for each microtick before the macrotick.
pub fn instant(grid: &Grid, row: &NodeRow, odd: bool, macrotick: i64) -> i64
    requires row { IsPlacedRow grid.now row.now }
    requires macrotick { IsBetween (pos 0) grid.now.macros macrotick }
    ensures value { result ≡ instant_of grid.now row.now odd macrotick }
    ensures within { IsBetween (pos 0) (pos most_instant) result }
{
    let microticks = position(grid, row.rate, row.offset, odd, macrotick);
    row.start + ticks_of(microticks, row.length)
}

// So many of the parts of a length, rounded down.
fn share(count: i64, length: i64, parts: i64) -> i64
    requires count { IsBetween (pos 0) parts count }
    requires parts { IsBetween (pos 1) (pos 16_000) parts }
    requires length { IsBetween (pos 0) (pos 660_000) length }
    ensures value { result ≡ floor_of (count *ℤ length) parts }
    ensures low { pos 0 ≤ℤ result }
    ensures high { result ≤ℤ pos 660_000 }
{
    let whole = count * length;
    whole.div_euclid(parts)
}

// The position by the rule of even cycles.
pub(crate) fn even(grid: &Grid, rate: i32, macrotick: i64) -> i64
    requires grid { IsGrid grid.now }
    requires micros { IsBetween grid.now.macros (pos 660_000) (grid.now.micros +ℤ rate) }
    requires macrotick { IsBetween (pos 0) grid.now.macros macrotick }
    ensures value { result ≡ even_position grid.now rate macrotick }
    ensures within { IsBetween (pos 0) (pos 660_000) result }
{
    share(macrotick, grid.micros + rate as i64, grid.macros)
}

// The position by the rule of odd cycles from the start of the offset correction on.
fn corrected(grid: &Grid, rate: i32, offset: i32, macrotick: i64) -> i64
    requires placeable { IsPlaceable grid.now rate offset }
    requires macrotick { IsBetween grid.now.correction grid.now.macros macrotick }
    ensures value { result ≡ corrected_position grid.now rate offset macrotick }
    ensures within { IsBetween (pos 0) (pos 700_000) result }
{
    let start = even(grid, rate, grid.correction);
    let length = left(grid, rate, offset, start);
    start + late(grid, length, macrotick)
}

// How far a macrotick lies behind the start of the offset correction, where so much is left from there on.
fn late(grid: &Grid, length: i64, macrotick: i64) -> i64
    requires grid { IsGrid grid.now }
    requires macrotick { IsBetween grid.now.correction grid.now.macros macrotick }
    requires length { IsBetween (pos 0) (pos 660_000) length }
    ensures value { result ≡
        floor_of ((macrotick -ℤ grid.now.correction) *ℤ length) (grid.now.macros -ℤ grid.now.correction) }
    ensures within { IsBetween (pos 0) (pos 660_000) result }
{
    share(
        macrotick - grid.correction,
        length,
        grid.macros - grid.correction,
    )
}

// The microticks that are left where the offset correction starts.
pub(crate) fn left(grid: &Grid, rate: i32, offset: i32, start: i64) -> i64
    requires placeable { IsPlaceable grid.now rate offset }
    requires start { start ≡ even_position grid.now rate grid.now.correction }
    requires start_from { pos 0 ≤ℤ start }
    ensures value { result ≡ corrected_micros grid.now rate offset }
    ensures within { IsBetween (pos 0) (pos 660_000) result }
{
    grid.micros + rate as i64 + offset as i64 - start
}
