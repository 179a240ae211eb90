ghost use Rattle.std.specs.Prelude.{Bool, ◌≡◌, ◌≤◌, pos, OnOk, IfErr};
ghost use Rattle.fr_promise.specs.JoinedHistories.{first_rates_last, first_rates_of_walk};
ghost use Rattle.fr_bound.specs.Greatest.{most_sharp_reach};
ghost use Rattle.fr_bound.specs.SharpBounds.{rate_room, rate_walk};
ghost use Rattle.fr_promise.specs.SharpJoining.{counted_error, sharp_first_apart, sharp_first_lengths, sharp_reach};
ghost use Rattle.fr_promise.specs.SharpJoining.{FirstSharpJoinFailing, IsSharpJoinCheckOf, SharpJoinChecksHold};

use fr_bound::{
    CheckSides, Flutter, arrival_error, cycle_change, even_lambda, longest_microtick, near_by,
    rate_room, rate_walk, sharp_pi, shortest_microtick, side_within, steady_error,
};
use fr_cluster::{ParamName, Params};

/// The sharper reach: how far action points of a node that follows may lie from those of the others, in ticks, beside
/// arbitrary sync nodes or without, where delays flutter by no more than so many ticks.
pub fn sharp_reach(params: &Params, beside: bool, flutter: Flutter) -> i64
    ensures { result ≡ pos (sharp_reach beside params.now flutter) }
{
    ticks_of_reach(params, beside, flutter) as i64
}

/// The sides of the sharper check of this number, 6 to 9, of a cluster that nodes join, beside arbitrary sync nodes or
/// without, where delays flutter by no more than so many ticks: rate limit, offset limit, and both of the action point,
/// with what a node needs that listens and follows. The sides are ticks, but of the eighth and the ninth ticks times the
/// macroticks of a cycle.
pub fn sharp_join_side(params: &Params, beside: bool, flutter: Flutter, number: u8) -> CheckSides
    requires from { 6 ≤ number }
    requires to { number ≤ 9 }
    ensures { IsSharpJoinCheckOf number beside flutter params.now result }
{
    match number {
        6 => first_rate_sides(params, flutter),
        _ => side_within(params, number - 4, ticks_of_reach(params, beside, flutter)),
    }
}

/// Whether every sharper check from 6 to 9 holds, those of a cluster that nodes join; else the least number of one that
/// fails.
pub fn sharp_join_checks(params: &Params, beside: bool, flutter: Flutter) -> Result<(), u8>
    ensures all { OnOk result (SharpJoinChecksHold beside flutter params.now) }
    ensures first { IfErr result (λ number. FirstSharpJoinFailing number beside flutter params.now) }
{
    for number in 6..10 {
        if !sharp_join_side(params, beside, flutter, number).holds {
            return Err(number);
        }
    }
    Ok(())
}

/// For how many double cycles from one in sharp sync the rate limit holds the walk of lengths and suffices for the rate
/// that a node begins to follow with, 0 where the sixth of the sharper checks fails; None where lengths do not walk, so
/// that it does for ever. Delays flutter by no more than so many ticks.
pub fn first_rates_last(params: &Params, flutter: Flutter) -> Option<u64>
    ensures { result ≡ first_rates_last params.now flutter }
{
    if first_rate_sides(params, flutter).holds {
        first_rates_of_walk(params, flutter)
    } else {
        Some(0)
    }
}

fn first_rates_of_walk(params: &Params, flutter: Flutter) -> Option<u64>
    ensures { result ≡
        first_rates_of_walk (rate_room params.now) (counted_error params.now flutter) (rate_walk params.now flutter) }
{
    let (gain, loss) = rate_walk(params, flutter);
    if gain <= loss {
        None
    } else {
        let room = rate_room(params);
        let rest = room.saturating_sub(counted_error(params, flutter));
        Some((room / (gain - loss)).min(rest / (gain - loss) + 1))
    }
}

// The rate limit suffices for two oscillators at opposite ends, and for what a first rate may be off.
fn first_rate_sides(params: &Params, flutter: Flutter) -> CheckSides
    ensures { (beside : Bool) → IsSharpJoinCheckOf 6 beside flutter params.now result }
{
    let drift = params.natural(ParamName::pMicroPerCycle) * params.natural(ParamName::xRateBound);
    let left = params.natural(ParamName::pRateCorrectionOut) * shortest_microtick(params);
    let right = 2 * drift + counted_error(params, flutter);
    CheckSides {
        left: left as i64,
        right: right as i64,
        holds: right <= left,
    }
}

// How far the length that a listener counts may lie from the true one.
fn counted_error(params: &Params, flutter: Flutter) -> u64
    ensures value { result ≡ counted_error params.now flutter }
    ensures most { result ≤ 3_000_000_000 }
{
    flutter.0 + cycle_change(params) + longest_microtick(params)
}

fn ticks_of_reach(params: &Params, beside: bool, flutter: Flutter) -> u64
    ensures value { result ≡ sharp_reach beside params.now flutter }
    ensures most { result ≤ most_sharp_reach }
{
    let lengths = first_lengths(params, beside, flutter);
    near_by(params, first_apart(params, beside, flutter), lengths)
}

// How far the length of its first even cycle may lie from those of the others.
fn first_lengths(params: &Params, beside: bool, flutter: Flutter) -> u64
    ensures value { result ≡ sharp_first_lengths beside params.now flutter }
    ensures most { result ≤ 30_000_000_000 }
{
    let damped = params.natural(ParamName::pClusterDriftDamping) * longest_microtick(params);
    let error = steady_error(params, flutter);
    even_lambda(params, beside, flutter) + 2 * error + damped + 4 * cycle_change(params)
}

// How far its first start may lie from those of the others.
fn first_apart(params: &Params, beside: bool, flutter: Flutter) -> u64
    ensures value { result ≡ sharp_first_apart beside params.now flutter }
    ensures most { result ≤ 100_000_000_000 }
{
    let near = sharp_pi(params, beside, flutter) + 2 * even_lambda(params, beside, flutter);
    let arrival = 2 * arrival_error(params) + flutter.0;
    near + 4 * cycle_change(params) + arrival + 4 * longest_microtick(params)
}
