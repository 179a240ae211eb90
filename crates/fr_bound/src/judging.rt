ghost use Rattle.std.specs.Prelude.{ℕ, ◌≡◌, ◌≤◌, ◌+◌, nat_le, true, false};
ghost use Rattle.fr_bound.specs.Greatest.{most_judged, most_sharp_reach, most_sharp_starts};
ghost use Rattle.fr_bound.specs.Judged.{IsJudgedDouble, IsSmall, apart_through, from_none, heard_spread, is_judged_double, is_taken_in, known_after, met_of, met_with, walked_on};
ghost use Rattle.fr_bound.specs.SharpBounds.{rate_room, rate_walk};
ghost use Rattle.fr_bound.specs.SharpChecks.{SharpChecksHold};
ghost use Rattle.fr_bound.specs.SharpSpreads.{next_lost_spread};

use crate::bounding::{arrival_error, cycle_change, longest_microtick, shortest_microtick};
use crate::flutter::Flutter;
use crate::settling::Spread;
use crate::sharp_bounding::{
    near_by, next_sharp_spread, odd_spread, precision_by, rate_room, rate_walk, steady_error,
};
use crate::sharp_checking::sharp_side_within;
use fr_cluster::{ParamName, Params};

/// What the nodes of a cluster hear of each other in a double cycle.
#[derive(Clone, Copy, Debug, PartialEq, Eq)]
pub enum Heard {
    /// All of all, without arbitrary sync nodes.
    Clean,
    /// Of any two nodes enough senders in common, as where all is heard beside arbitrary sync nodes, whatever these say.
    Meeting,
    /// Of some senders, whichever they are.
    Poor,
}

/// What is known of the clocks of a cluster in a double cycle, in ticks.
#[derive(Clone, Copy, Debug, PartialEq, Eq)]
pub struct Known {
    /// How far the starts and the lengths of its even cycles may lie apart.
    pub spread: Spread,
    /// How far those lengths may lie beyond their range.
    pub beyond: u64,
}

/// Whether a double cycle of which so much is known is judged, where delays flutter by no more than so many ticks: the
/// sharper checks but the first hold with its own reach, and the rate limit can follow its lengths, also by the walk
/// further. What is known may be any numbers; of a judged one they are small.
pub fn is_judged(params: &Params, flutter: Flutter, known: Known) -> bool
    ensures value { result ≡ is_judged_double params.now flutter known }
    ensures yes { result ≡ true → IsJudgedDouble params.now flutter known }
    ensures no { result ≡ false → IsJudgedDouble params.now flutter known → ⊥ }
    ensures small { result ≡ true → IsSmall known }
{
    if !is_taken_in(params, known) {
        return false;
    }
    let reach = near_by(params, known.spread.starts, known.spread.lengths);
    checks_hold(params, flutter, reach) && has_room(params, flutter, known.beyond)
}

// Whether the limits can take in such numbers at all.
fn is_taken_in(params: &Params, known: Known) -> bool
    ensures value { result ≡ is_taken_in params.now known }
    ensures small { result ≡ true → IsSmall known }
{
    let limit = params.natural(ParamName::pOffsetCorrectionOut) * shortest_microtick(params);
    known.spread.starts <= limit
        && known.spread.lengths <= limit
        && known.beyond <= rate_room(params)
}

// Whether the sharper checks but the first hold with a reach, in ticks.
fn checks_hold(params: &Params, flutter: Flutter, reach: u64) -> bool
    requires reach { reach ≤ most_sharp_reach }
    ensures yes { result ≡ true → SharpChecksHold flutter reach params.now }
    ensures no { result ≡ false → SharpChecksHold flutter reach params.now → ⊥ }
{
    for number in 2..6 {
        if !sharp_side_within(params, flutter, reach, number).holds {
            return false;
        }
    }
    true
}

// Whether the rate limit can follow lengths that lie so far beyond their range, and walk further.
fn has_room(params: &Params, flutter: Flutter, beyond: u64) -> bool
    requires beyond { beyond ≤ most_judged }
    ensures { result ≡ nat_le (beyond + from_none (rate_walk params.now flutter)) (rate_room params.now) }
{
    let (gain, loss) = rate_walk(params, flutter);
    beyond + gain.saturating_sub(loss) <= rate_room(params)
}

/// What is known of a double cycle of which something is known in two ways: the lesser of each two numbers.
pub fn met(known: Known, other: Known) -> Known
    ensures { result ≡ met_of known other }
{
    let starts = known.spread.starts.min(other.spread.starts);
    let lengths = known.spread.lengths.min(other.spread.lengths);
    Known {
        spread: Spread { starts, lengths },
        beyond: known.beyond.min(other.beyond),
    }
}

/// What is known of a double cycle by the one before it, and by what is seen of it, where each of these is there.
pub fn met_with(known: Option<Known>, seen: Option<Known>) -> Option<Known>
    ensures { result ≡ met_with known seen }
{
    match known {
        None => seen,
        Some(known) => match seen {
            None => Some(known),
            Some(seen) => Some(met(known, seen)),
        },
    }
}

/// What is known of the next double cycle behind one that is judged, by what is heard in it.
pub fn known_after(params: &Params, what: Heard, flutter: Flutter, known: Known) -> Known
    requires small { IsSmall known }
    ensures { result ≡ known_after what params.now flutter known }
{
    Known {
        spread: heard_spread(params, what, flutter, known.spread),
        beyond: walked_on(params, flutter, known.beyond),
    }
}

/// How far macroticks may lie apart in a double cycle that is judged, by what is heard in it, in ticks.
pub fn apart_through(params: &Params, what: Heard, flutter: Flutter, known: Known) -> u64
    requires small { IsSmall known }
    ensures { result ≡ apart_through what params.now flutter known }
{
    let next = heard_spread(params, what, flutter, known.spread);
    let behind = next.starts + longest_microtick(params);
    precision_by(params, known.spread.starts, known.spread.lengths).max(behind)
}

// How far starts and even lengths may lie apart in the next double cycle.
fn heard_spread(params: &Params, what: Heard, flutter: Flutter, spread: Spread) -> Spread
    requires starts { spread.starts ≤ most_judged }
    requires lengths { spread.lengths ≤ most_judged }
    ensures value { result ≡ heard_spread what params.now flutter spread }
    ensures most { result.starts ≤ most_sharp_starts }
{
    match what {
        Heard::Clean => next_sharp_spread(params, false, flutter, spread),
        Heard::Meeting => next_sharp_spread(params, true, flutter, spread),
        Heard::Poor => lost_spread(params, flutter, spread),
    }
}

fn lost_spread(params: &Params, flutter: Flutter, spread: Spread) -> Spread
    requires starts { spread.starts ≤ most_judged }
    requires lengths { spread.lengths ≤ most_judged }
    ensures value { result ≡ next_lost_spread false params.now flutter spread }
    ensures most { result.starts ≤ most_sharp_starts }
{
    let longest = longest_microtick(params);
    let odd = odd_spread(params, spread.lengths);
    let damped = params.natural(ParamName::pClusterDriftDamping) * longest;
    let errors = 2 * steady_error(params, flutter) + 2 * damped + 2 * cycle_change(params);
    Spread {
        starts: spread.starts + spread.lengths + odd + 2 * arrival_error(params) + 3 * longest,
        lengths: spread.lengths + errors,
    }
}

// How far lengths may lie beyond their range in the next double cycle.
fn walked_on(params: &Params, flutter: Flutter, beyond: u64) -> u64
    requires beyond { beyond ≤ most_judged }
    ensures { result ≡ walked_on params.now flutter beyond }
{
    let (gain, loss) = rate_walk(params, flutter);
    (beyond + gain).saturating_sub(loss)
}
