ghost use Rattle.std.specs.Prelude.{Bool, ℕ, ◌≡◌, ◌≤◌, ◌+◌, ◌*◌, ◌/◌, ◌-ℤ◌, max, pos};
ghost use Rattle.std.specs.Option.{option_map_or};
ghost use Rattle.fr_cluster.specs.Constraints.{key_slots};
ghost use Rattle.fr_cluster.specs.Values.{amount};
ghost use Rattle.fr_cluster.specs.declared.names.ParamName.TheVariants as name;
ghost use Rattle.fr_bound.specs.Bounds.{cycle_change};
ghost use Rattle.fr_bound.specs.Greatest.{most_odd_lengths, most_sharp_reach, most_sharp_starts};
ghost use Rattle.fr_bound.specs.Settling.{most_stated};
ghost use Rattle.fr_bound.specs.SharpBounds.{last_action, last_of, near_by, odd_spread, precision_by};
ghost use Rattle.fr_bound.specs.SharpBounds.{rate_room, rate_walk, sharp_lambda, sharp_near, sharp_pi, sharp_precision};
ghost use Rattle.fr_bound.specs.SharpBounds.{steady_error, walk_lasts, wide_change};
ghost use Rattle.fr_bound.specs.SharpSpreads.{next_sharp_spread};

use crate::bounding::{arrival_error, cycle_change, longest_microtick, shortest_microtick};
use crate::flutter::Flutter;
use crate::settling::Spread;
use fr_base::Slot;
use fr_cluster::{NodeList, ParamName, Params};

/// The sharper bounds of a cluster, in ticks.
#[derive(Clone, Copy, Debug, PartialEq, Eq)]
pub struct SharpValues {
    /// How far the lengths of two nodes' even cycles may lie apart in a cluster that is in sharp sync.
    pub lambda: i64,
    /// How far two nodes' starts of an even cycle may lie apart there.
    pub pi: i64,
    /// The sharper precision: how far two nodes' instants of the same macrotick may lie apart there.
    pub precision: i64,
    /// How far two nodes' instants of the same action point may lie apart there, up to that of the last key slot.
    pub near: i64,
}

/// The sharper bounds for these parameters, beside arbitrary sync nodes or without, where delays flutter by no more than
/// so many ticks.
pub fn sharp_bounds(params: &Params, beside: bool, flutter: Flutter) -> SharpValues
    ensures lambda { result.lambda ≡ pos (sharp_lambda beside params.now flutter) }
    ensures pi { result.pi ≡ pos (sharp_pi beside params.now flutter) }
    ensures precision { result.precision ≡ pos (sharp_precision beside params.now flutter) }
    ensures near { result.near ≡ pos (sharp_near beside params.now flutter) }
{
    let lambda = even_lambda(params, beside, flutter);
    let pi = sharp_pi(params, beside, flutter);
    SharpValues {
        lambda: lambda as i64,
        pi: pi as i64,
        precision: precision_by(params, pi, lambda) as i64,
        near: near_by(params, pi, lambda) as i64,
    }
}

/// For how many double cycles from one in sharp sync the rate limit holds the walk of lengths, under the second check;
/// None where they do not walk, so that it does for ever. Delays flutter by no more than so many ticks.
pub fn sharp_lasts(params: &Params, flutter: Flutter) -> Option<u64>
    ensures { result ≡ walk_lasts params.now flutter }
{
    let (gain, loss) = rate_walk(params, flutter);
    if gain <= loss {
        None
    } else {
        Some(rate_room(params) / (gain - loss))
    }
}

/// What adds to the walk of lengths in a double cycle, and what the damping takes off it, in ticks, where delays flutter by
/// no more than so many.
pub fn rate_walk(params: &Params, flutter: Flutter) -> (u64, u64)
    ensures value { rate_walk params.now flutter ≡ pos result.0 -ℤ pos result.1 }
    ensures gain { result.0 ≤ 10_000_000_000 }
{
    let changes = walk_changes(params, flutter);
    let damping = params.value(ParamName::pClusterDriftDamping);
    if 0 < damping {
        let shortest = shortest_microtick(params);
        (changes + shortest, damping as u64 * shortest + 1)
    } else {
        (changes + longest_microtick(params), 1)
    }
}

// What delays and changing microticks add to the walk in a double cycle, in ticks.
fn walk_changes(params: &Params, flutter: Flutter) -> u64
    ensures value { result ≡ flutter + cycle_change params.now + wide_change params.now }
    ensures most { result ≤ 3_000_000_000 }
{
    flutter.0 + cycle_change(params) + wide_change(params)
}

/// How far beyond their range the rate limit can follow lengths, in ticks.
pub fn rate_room(params: &Params) -> u64
    ensures value { result ≡ rate_room params.now }
    ensures most { result ≤ 2_000_000_000 }
{
    let limit = params.natural(ParamName::pRateCorrectionOut) * shortest_microtick(params);
    let drift = params.natural(ParamName::pMicroPerCycle) * params.natural(ParamName::xRateBound);
    limit.saturating_sub(2 * drift)
}

/// By how much microticks change in all from an even cycle to the odd one, up to an action point there, in ticks.
pub fn wide_change(params: &Params) -> u64
    ensures value { result ≡ wide_change params.now }
    ensures most { result ≤ 988_000_000 }
{
    let micros = params.natural(ParamName::pMicroPerCycle)
        + params.natural(ParamName::pRateCorrectionOut)
        + params.natural(ParamName::pOffsetCorrectionOut);
    (micros + 1) * params.natural(ParamName::xChangeBound)
}

/// How far a rate value may place the length of a sender's even cycle from the true one, in ticks, where delays flutter by no
/// more than so many.
pub fn steady_error(params: &Params, flutter: Flutter) -> u64
    ensures value { result ≡ steady_error params.now flutter }
    ensures most { result ≤ 2_000_000_000 }
{
    flutter.0 + (longest_microtick(params) - 1) + wide_change(params)
}

/// The sharper lambda in ticks, beside arbitrary sync nodes or without, where delays flutter by no more than so many.
pub fn even_lambda(params: &Params, beside: bool, flutter: Flutter) -> u64
    ensures value { result ≡ sharp_lambda beside params.now flutter }
    ensures most { result ≤ 13_000_000_000 }
{
    let error = steady_error(params, flutter);
    let longest = longest_microtick(params);
    let damped = params.natural(ParamName::pClusterDriftDamping) * longest;
    let change = cycle_change(params);
    if beside {
        4 * error + 2 * longest + 4 * damped + 4 * change
    } else {
        2 * error + longest + 2 * damped + 2 * change
    }
}

/// The sharper pi, of the same.
pub fn sharp_pi(params: &Params, beside: bool, flutter: Flutter) -> u64
    ensures value { result ≡ sharp_pi beside params.now flutter }
    ensures most { result ≤ 43_000_000_000 }
{
    let lambda = even_lambda(params, beside, flutter);
    let change = cycle_change(params);
    let error = arrival_error(params);
    let longest = longest_microtick(params);
    if beside {
        3 * lambda + 4 * change + 4 * error + 7 * longest
    } else {
        lambda + 2 * change + 2 * error + 3 * longest
    }
}

/// How far the lengths of odd cycles may lie apart, where those of even ones lie so far apart, in ticks.
pub fn odd_spread(params: &Params, lengths: u64) -> u64
    requires { lengths ≤ most_stated }
    ensures value { result ≡ odd_spread params.now lengths }
    ensures most { result ≤ most_odd_lengths }
{
    lengths + 2 * cycle_change(params)
}

/// How far macroticks may lie apart, where starts and even lengths lie so far apart, in ticks.
pub fn precision_by(params: &Params, starts: u64, lengths: u64) -> u64
    requires starts { starts ≤ most_sharp_starts }
    requires lengths { lengths ≤ most_stated }
    ensures value { result ≡ precision_by params.now starts lengths }
    ensures most { result ≤ most_sharp_reach }
{
    starts + lengths + odd_spread(params, lengths) + 2 * longest_microtick(params)
}

/// How far action points may then lie apart, up to that of the last key slot, in ticks.
pub fn near_by(params: &Params, starts: u64, lengths: u64) -> u64
    requires starts { starts ≤ most_sharp_starts }
    requires lengths { lengths ≤ most_stated }
    ensures value { result ≡ near_by params.now starts lengths }
    ensures most { result ≤ most_sharp_reach }
{
    starts + lengths + share(params, odd_spread(params, lengths)) + longest_microtick(params)
}

/// How far starts and even lengths may lie apart in the next double cycle, in ticks, where they lie so far apart in one in
/// which all is heard, beside arbitrary sync nodes or without. Delays flutter by no more than so many ticks.
pub fn next_sharp_spread(params: &Params, beside: bool, flutter: Flutter, spread: Spread) -> Spread
    requires starts { spread.starts ≤ most_sharp_starts }
    requires lengths { spread.lengths ≤ most_stated }
    ensures value { result ≡ next_sharp_spread beside params.now flutter spread }
    ensures starts { result.starts ≤ most_sharp_starts }
    ensures lengths { result.lengths ≤ most_stated }
{
    let odd = odd_spread(params, spread.lengths);
    let error = arrival_error(params);
    let longest = longest_microtick(params);
    let lambda = even_lambda(params, beside, flutter);
    if beside {
        Spread {
            starts: (spread.starts + spread.lengths + 2 * odd + 4 * error + 7 * longest) / 2,
            lengths: (spread.lengths + lambda) / 2,
        }
    } else {
        Spread {
            starts: odd + 2 * error + 3 * longest,
            lengths: lambda,
        }
    }
}

// The share of such ticks of a cycle that lies before the last action point.
fn share(params: &Params, ticks: u64) -> u64
    requires { ticks ≤ most_odd_lengths }
    ensures value { result ≡ last_action params.now * ticks / amount params.now name.gMacroPerCycle }
    ensures most { result ≤ most_odd_lengths }
{
    let macros = params.natural(ParamName::gMacroPerCycle);
    last_action(params) * ticks / macros
}

/// The macrotick of the action point of the last key slot.
pub fn last_action(params: &Params) -> u64
    ensures value { result ≡ last_action params.now }
    ensures within { result ≤ amount params.now name.gMacroPerCycle }
{
    let _macros = params.value(ParamName::gMacroPerCycle);
    let before = last_key(&params.nodes).saturating_sub(1);
    before * params.natural(ParamName::gdStaticSlot)
        + params.natural(ParamName::gdActionPointOffset)
}

// The last key slot of some nodes, and 0 without any.
fn last_key(nodes: &NodeList) -> u64
    ensures value { result ≡ last_of (key_slots nodes.now) }
    ensures most { result ≤ 65_535 }
{
    let mut last = 0;
    for place in 0..nodes.len() {
        match nodes.get(place) {
            Some(node) => last = later(last, node.key),
            None => {}
        }
    }
    last
}

fn later(last: u64, key: Option<Slot>) -> u64
    requires { last ≤ 65_535 }
    ensures value { result ≡ option_map_or (λ (slot : ℕ). max slot last) key last }
    ensures most { result ≤ 65_535 }
{
    match key {
        None => last,
        Some(slot) => last.max(u64::from(slot.0)),
    }
}
