ghost use Rattle.std.specs.Prelude.{◌≡◌, ◌≤◌, ◌*◌, OnOk, IfErr};
ghost use Rattle.fr_bound.specs.Checks.{back_need_of, clear_micros, front_need_of};
ghost use Rattle.fr_bound.specs.Checks.{AllChecksHold, AllJoinChecksHold, AreSides, FirstFailing, FirstFailingToJoin, IsCheck, IsCheckOf};
ghost use Rattle.fr_bound.specs.Greatest.{most_peak, most_side};

use crate::bounding::{
    NOMINAL, arrival_error, compensation, cycle_change, follower_error, longest_microtick,
    precision, shortest_microtick, ticks_of_reach, y1,
};
use fr_cluster::{ParamName, Params};

/// Both sides of a check, and whether it holds. The sides are ticks, but of the checks on the action point (4, 5, 8
/// and 9) ticks times the macroticks of a cycle.
#[derive(Clone, Copy, Debug, PartialEq, Eq)]
pub struct CheckSides {
    /// What the cluster has.
    pub left: i64,
    /// What it needs.
    pub right: i64,
    /// Whether it has that much; of the fifth and the ninth check, whether it has more.
    pub holds: bool,
}

/// The sides of the check of this number, 1 to 9. Those of each cluster are damping, rate limit, offset limit, the
/// action point after the start of its slot, and before its end. Those from 6 on are asked of a cluster that nodes
/// join: rate limit, offset limit, and both of the action point, with what a node needs that listens and follows.
pub fn side(params: &Params, number: u8) -> CheckSides
    requires { IsCheck number }
    ensures { IsCheckOf number params.now result }
{
    let (left, right) = sides(params, number);
    CheckSides {
        left: left as i64,
        right: right as i64,
        holds: if number == 5 || number == 9 {
            right < left
        } else {
            right <= left
        },
    }
}

/// Whether every check from 1 to 5 holds; else the least number of one that fails.
pub fn checks(params: &Params) -> Result<(), u8>
    ensures all { OnOk result (AllChecksHold params.now) }
    ensures first { IfErr result (λ number. FirstFailing number params.now) }
{
    for number in 1..6 {
        if !side(params, number).holds {
            return Err(number);
        }
    }
    Ok(())
}

/// Whether every check from 6 to 9 holds, those of a cluster that nodes join; else the least number of one that fails.
pub fn join_checks(params: &Params) -> Result<(), u8>
    ensures all { OnOk result (AllJoinChecksHold params.now) }
    ensures first { IfErr result (λ number. FirstFailingToJoin number params.now) }
{
    for number in 6..10 {
        if !side(params, number).holds {
            return Err(number);
        }
    }
    Ok(())
}

pub(crate) fn sides(params: &Params, number: u8) -> (u64, u64)
    requires { IsCheck number }
    ensures { AreSides number params.now result.0 result.1 }
{
    match number {
        1 => damping_sides(params),
        2 => rate_sides(params),
        3 => offset_sides(params),
        4 => front_sides(params),
        5 => back_sides(params),
        6 => first_rate_sides(params),
        7 => reach_sides(params),
        8 => front_reach_sides(params),
        _ => back_reach_sides(params),
    }
}

// The damping outweighs what a rate value may be off.
fn damping_sides(params: &Params) -> (u64, u64)
    ensures { AreSides 1 params.now result.0 result.1 }
{
    (
        params.natural(ParamName::pClusterDriftDamping) * shortest_microtick(params),
        y1(params) + 2 * cycle_change(params),
    )
}

// The rate limit suffices for two oscillators at opposite ends.
fn rate_sides(params: &Params) -> (u64, u64)
    ensures { AreSides 2 params.now result.0 result.1 }
{
    let drift = params.natural(ParamName::pMicroPerCycle) * params.natural(ParamName::xRateBound);
    (
        params.natural(ParamName::pRateCorrectionOut) * shortest_microtick(params),
        2 * drift,
    )
}

// The offset limit suffices for the precision and the error of an arrival.
fn offset_sides(params: &Params) -> (u64, u64)
    ensures { AreSides 3 params.now result.0 result.1 }
{
    (
        params.natural(ParamName::pOffsetCorrectionOut) * shortest_microtick(params),
        precision(params) + arrival_error(params) + longest_microtick(params),
    )
}

// An early arrival does not fall before its slot.
fn front_sides(params: &Params) -> (u64, u64)
    ensures { AreSides 4 params.now result.0 result.1 }
{
    let front = params.natural(ParamName::gdActionPointOffset);
    (
        clear(params, front) * shortest_microtick(params),
        front_need(params, precision(params)),
    )
}

// A late arrival does not fall after its slot.
fn back_sides(params: &Params) -> (u64, u64)
    ensures { AreSides 5 params.now result.0 result.1 }
{
    let slot = params.natural(ParamName::gdStaticSlot);
    let back = slot.saturating_sub(params.natural(ParamName::gdActionPointOffset));
    (
        clear(params, back) * shortest_microtick(params),
        back_need(params, precision(params)),
    )
}

// The rate limit suffices for two oscillators at opposite ends, and for what a first rate may be off.
fn first_rate_sides(params: &Params) -> (u64, u64)
    ensures { AreSides 6 params.now result.0 result.1 }
{
    let drift = params.natural(ParamName::pMicroPerCycle) * params.natural(ParamName::xRateBound);
    (
        params.natural(ParamName::pRateCorrectionOut) * shortest_microtick(params),
        2 * drift + follower_error(params),
    )
}

// The offset limit suffices for the reach and the error of an arrival.
fn reach_sides(params: &Params) -> (u64, u64)
    ensures { AreSides 7 params.now result.0 result.1 }
{
    (
        params.natural(ParamName::pOffsetCorrectionOut) * shortest_microtick(params),
        ticks_of_reach(params) + arrival_error(params) + longest_microtick(params),
    )
}

// An early arrival within reach does not fall before its slot.
fn front_reach_sides(params: &Params) -> (u64, u64)
    ensures { AreSides 8 params.now result.0 result.1 }
{
    let (left, _right) = front_sides(params);
    (left, front_need(params, ticks_of_reach(params)))
}

// A late arrival within reach does not fall after its slot.
fn back_reach_sides(params: &Params) -> (u64, u64)
    ensures { AreSides 9 params.now result.0 result.1 }
{
    let (left, _right) = back_sides(params);
    (left, back_need(params, ticks_of_reach(params)))
}

// What a slot needs before its action point, where macroticks may lie so far apart.
pub(crate) fn front_need(params: &Params, apart: u64) -> u64
    requires { apart ≤ most_peak }
    ensures value { result ≡ front_need_of params.now apart }
    ensures most { result ≤ most_side }
{
    params.natural(ParamName::gMacroPerCycle) * (apart + params.natural(ParamName::xDelayError))
}

// And behind it.
pub(crate) fn back_need(params: &Params, apart: u64) -> u64
    requires { apart ≤ most_peak }
    ensures value { result ≡ back_need_of params.now apart }
    ensures most { result ≤ most_side }
{
    let delay = compensation(params) * NOMINAL;
    let within = apart + delay + params.natural(ParamName::xDelayError);
    params.natural(ParamName::gMacroPerCycle) * within
}

fn clear(params: &Params, macroticks: u64) -> u64
    requires { macroticks ≤ 1000 }
    ensures value { result ≡ clear_micros params.now macroticks }
    ensures most { result ≤ 640_000 * macroticks }
{
    let micros = params.natural(ParamName::pMicroPerCycle);
    let least = micros.saturating_sub(params.natural(ParamName::pRateCorrectionOut));
    (macroticks * least).saturating_sub(params.natural(ParamName::gMacroPerCycle))
}
