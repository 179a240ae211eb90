ghost use Rattle.std.specs.Prelude.{Option, ◌≡◌, ◌≤◌, true, false};
ghost use Rattle.fr_bound.specs.Greatest.{most_sharp_reach, most_sharp_starts};
ghost use Rattle.fr_bound.specs.Settling.{most_stated, IsSettleCheck};
ghost use Rattle.fr_bound.specs.SharpSpreads.{next_sharp_spread};
ghost use Rattle.fr_bound.specs.SharpSpreads.{first_sharp_spread, IsSharplySettled};
ghost use Rattle.fr_promise.specs.SharpWay.{IsSharpWay, IsWayCheckOf, IsWayVerdict, LeadsTo, lasts_for};

use fr_bound::{
    CheckSides, Flutter, Spread, even_lambda, near_by, next_sharp_spread, precision_by,
    sharp_lasts, sharp_pi, sharp_side_within,
};
use fr_cluster::Params;

/// When clocks that begin apart are in sharp sync for certain, and what must hold on the way.
#[derive(Clone, Copy, Debug, PartialEq, Eq)]
pub struct SharpWay {
    /// The first double cycle in which they are, 0 to 82; without arbitrary sync nodes 0 to 2.
    pub doubles: u32,
    /// How far macroticks may lie apart up to it, in ticks.
    pub peak: u64,
    /// How far instants of the same action point may lie apart up to it, in ticks.
    pub reach: u64,
    /// The first check for the way that fails, by its number, with both sides; none where all hold. The first one fails
    /// where the walk of lengths does not last so many double cycles.
    pub failed: Option<(u8, i64, i64)>,
}

/// Of clocks whose first starts lie at most `start` ticks apart, and the lengths of whose first even cycles lie at most
/// `rate` ticks apart, 0 to 1,000,000,000,000 each, beside arbitrary sync nodes or without, where delays flutter by no
/// more than so many ticks: the double cycle in which they are in sharp sync, the peak and the reach on the way, and the
/// first check for the way that fails. It takes no memory and at most 82 steps.
pub fn sharp_settle(
    params: &Params,
    beside: bool,
    start: u64,
    rate: u64,
    flutter: Flutter,
) -> SharpWay
    requires start { start ≤ most_stated }
    requires rate { rate ≤ most_stated }
    ensures { IsSharpWay beside params.now flutter start rate result }
{
    let (doubles, peak, reach) = until_settled(params, beside, start, rate, flutter);
    SharpWay {
        doubles,
        peak,
        reach,
        failed: first_failing(params, flutter, doubles, reach),
    }
}

// The double cycle, and the peak and the reach up to it.
fn until_settled(
    params: &Params,
    beside: bool,
    start: u64,
    rate: u64,
    flutter: Flutter,
) -> (u32, u64, u64)
    requires start { start ≤ most_stated }
    requires rate { rate ≤ most_stated }
    ensures leads { LeadsTo beside params.now flutter start rate result.0 result.1 result.2 }
    ensures most { result.2 ≤ most_sharp_reach }
{
    let mut spread = first(params, beside, start, rate, flutter);
    let mut peak = precision_by(params, spread.starts, spread.lengths);
    let mut reach = near_by(params, spread.starts, spread.lengths);
    for double in 0..82 {
        if is_settled(params, beside, flutter, spread) {
            return (double, peak, reach);
        }
        spread = next_sharp_spread(params, beside, flutter, spread);
        peak = peak.max(precision_by(params, spread.starts, spread.lengths));
        reach = reach.max(near_by(params, spread.starts, spread.lengths));
    }
    (82, peak, reach)
}

fn first(params: &Params, beside: bool, start: u64, rate: u64, flutter: Flutter) -> Spread
    requires start { start ≤ most_stated }
    requires rate { rate ≤ most_stated }
    ensures value { result ≡ first_sharp_spread beside params.now flutter start rate }
    ensures starts { result.starts ≤ most_sharp_starts }
    ensures lengths { result.lengths ≤ most_stated }
{
    Spread {
        starts: start.max(sharp_pi(params, beside, flutter)),
        lengths: rate.max(even_lambda(params, beside, flutter)),
    }
}

fn is_settled(params: &Params, beside: bool, flutter: Flutter, spread: Spread) -> bool
    ensures yes { result ≡ true → IsSharplySettled beside params.now flutter spread }
    ensures no { result ≡ false → IsSharplySettled beside params.now flutter spread → ⊥ }
{
    spread.lengths == even_lambda(params, beside, flutter)
        && spread.starts == sharp_pi(params, beside, flutter)
}

// The first check for the way that fails, with both sides.
fn first_failing(
    params: &Params,
    flutter: Flutter,
    doubles: u32,
    reach: u64,
) -> Option<(u8, i64, i64)>
    requires reach { reach ≤ most_sharp_reach }
    ensures { IsWayVerdict params.now flutter doubles reach result }
{
    for number in 1..6 {
        let CheckSides { left, right, holds } = way_side(params, flutter, doubles, reach, number);
        if !holds {
            return Some((number, left, right));
        }
    }
    None
}

fn way_side(params: &Params, flutter: Flutter, doubles: u32, reach: u64, number: u8) -> CheckSides
    requires number { IsSettleCheck number }
    requires reach { reach ≤ most_sharp_reach }
    ensures { IsWayCheckOf number flutter doubles reach params.now result }
{
    let CheckSides { left, right, holds } = sharp_side_within(params, flutter, reach, number);
    match number {
        1 => CheckSides {
            left,
            right,
            holds: lasts_for(doubles, sharp_lasts(params, flutter)),
        },
        _ => CheckSides { left, right, holds },
    }
}

fn lasts_for(doubles: u32, lasts: Option<u64>) -> bool
    ensures { result ≡ lasts_for doubles lasts }
{
    match lasts {
        None => true,
        Some(lasts) => u64::from(doubles) <= lasts,
    }
}
