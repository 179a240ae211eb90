ghost use Rattle.std.specs.Prelude.{◌≡◌, ◌+ℤ◌, ◌-ℤ◌, ◌*ℤ◌, pos};
ghost use Rattle.fr_base.specs.Timed.{IsTimed};
ghost use Rattle.fr_base.specs.Within.{IsBetween, IsWithin};
ghost use Rattle.fr_time.specs.Instant.{IsInCycle, IsSlotOf, KeepsLimits, action_instant, most_instant, next_start_of, slot_begins, slot_ends};
ghost use Rattle.fr_time.specs.Position.{even_position, grid_for};
ghost use Rattle.fr_time.specs.Slots.{IsEarly};

use crate::grid::grid_of;
use crate::positions::position;
use crate::slots::{action_point, slot_bounds};
use fr_base::{NodeRow, Slot, ticks_of};
use fr_cluster::{ParamName, Params};

/// The position of a macrotick before the offset correction, in microticks from the start of its cycle.
pub fn early_position(params: &Params, rate: i32, macrotick: i64) -> i64
    requires rate { IsWithin params.now.rate_limit rate }
    requires early { IsEarly params.now macrotick }
    ensures value { result ≡ even_position (grid_for params.now) rate macrotick }
    ensures within { IsBetween (pos 0) (pos 700_000) result }
{
    position(&grid_of(params), rate, 0, false, macrotick)
}

/// The instants at which a static slot begins and ends at a node with this row, in ticks.
pub fn slot_instants(params: &Params, row: &NodeRow, slot: Slot) -> (i64, i64)
    requires { IsSlotOf params.now row.now slot }
    ensures value { result ≡ (slot_begins params.now row.now slot, slot_ends params.now row.now slot) }
    ensures begins { IsInCycle row.now result.0 }
    ensures ends { IsInCycle row.now result.1 }
{
    let (begin, end) = slot_bounds(params, slot);
    (
        early_instant(params, row, begin),
        early_instant(params, row, end),
    )
}

/// The instant of the action point of a static slot at a node with this row, in ticks.
pub fn action_instant(params: &Params, row: &NodeRow, slot: Slot) -> i64
    requires { IsSlotOf params.now row.now slot }
    ensures value { result ≡ action_instant params.now row.now slot }
    ensures within { IsBetween (pos 0) (pos most_instant) result }
{
    early_instant(params, row, action_point(params, slot))
}

/// The start of the cycle that follows one with this row, in ticks.
pub fn next_start(params: &Params, row: &NodeRow) -> i64
    requires { KeepsLimits params.now row.now }
    ensures value { result ≡ next_start_of (grid_for params.now) row.now }
    ensures later { IsBetween (pos 0) (pos 990_000_000_000) (result -ℤ row.now.start) }
{
    row.start + ticks_of(cycle_micros(params, row.rate, row.offset), row.length)
}

// The instant of a macrotick before the offset correction.
fn early_instant(params: &Params, row: &NodeRow, macrotick: i64) -> i64
    requires timed { IsTimed row.now }
    requires rate { IsWithin params.now.rate_limit row.now.rate }
    requires early { IsEarly params.now macrotick }
    ensures value { result ≡
        row.now.start +ℤ (even_position (grid_for params.now) row.now.rate macrotick *ℤ row.now.length) }
    ensures within { IsBetween (pos 0) (pos most_instant) result }
    ensures in_cycle { IsInCycle row.now result }
{
    row.start + ticks_of(early_position(params, row.rate, macrotick), row.length)
}

// The microticks of a cycle with both its terms.
fn cycle_micros(params: &Params, rate: i32, offset: i32) -> i64
    requires rate { IsWithin params.now.rate_limit rate }
    requires offset { IsWithin params.now.offset_limit offset }
    ensures value { result ≡ params.now.micros +ℤ rate +ℤ offset }
    ensures within { IsBetween (pos 0) (pos 660_000) result }
{
    params.value(ParamName::pMicroPerCycle) + rate as i64 + offset as i64
}
