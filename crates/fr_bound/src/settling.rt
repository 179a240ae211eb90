ghost use Rattle.std.specs.Prelude.{◌≡◌, ◌≤◌, ◌≤ℤ◌, ℕ, pos, true, false, nat_abs};
ghost use Rattle.fr_bound.specs.Greatest.{most_peak, most_side, most_starts};
ghost use Rattle.fr_bound.specs.Settling.{IsPeakTo, IsSettleCheck, IsSettleCheckOf, IsSettleVerdict, IsSettled};
ghost use Rattle.fr_bound.specs.Settling.{SettlesAt, apart_in, first_spread, most_stated, next_spread, settle_right_of};

use crate::bounding::{arrival_error, lambda, longest_microtick, pi};
use crate::checking::{CheckSides, back_need, front_need, sides};
use fr_cluster::Params;

/// When clocks that begin apart are in sync for certain, and what must hold on the way.
#[derive(Clone, Copy, Debug, PartialEq, Eq)]
pub struct Settling {
    /// The first double cycle in which they are.
    pub doubles: u32,
    /// How far macroticks may lie apart up to it, in ticks.
    pub peak: i64,
    /// The first check for the way that fails, by its number, with both sides; none where all hold.
    pub failed: Option<(u8, i64, i64)>,
}

/// How far apart clocks may lie in a double cycle, in ticks.
#[derive(Clone, Copy, Debug, PartialEq, Eq)]
pub struct Spread {
    /// The starts of its even cycles.
    pub starts: u64,
    /// The lengths of its cycles.
    pub lengths: u64,
}

/// Of clocks whose first starts lie at most `start` ticks apart, and the lengths of whose first two cycles lie at
/// most `rate` ticks apart, 0 to 1,000,000,000,000 each: the double cycle in which they are in sync, the peak on
/// the way, and the first check for the way that fails. It takes no memory and at most 83 steps.
pub fn settle(params: &Params, start: i64, rate: i64) -> Settling
    requires start { (pos 0 ≤ℤ start) × (start ≤ℤ pos most_stated) }
    requires rate { (pos 0 ≤ℤ rate) × (rate ≤ℤ pos most_stated) }
    ensures settles { SettlesAt params.now (nat_abs start) (nat_abs rate) result.doubles }
    ensures soon { result.doubles ≤ 83 }
    ensures peak { IsPeakTo params.now (nat_abs start) (nat_abs rate) result.doubles (nat_abs result.peak) }
    ensures from { pos 0 ≤ℤ result.peak }
    ensures failed { IsSettleVerdict params.now (nat_abs result.peak) result.failed }
{
    let (doubles, peak) = way(params, start as u64, rate as u64);
    Settling {
        doubles,
        peak: peak as i64,
        failed: first_failing(params, peak),
    }
}

// The double cycle, and the peak up to it.
fn way(params: &Params, start: u64, rate: u64) -> (u32, u64)
    requires start { start ≤ most_stated }
    requires rate { rate ≤ most_stated }
    ensures settles { SettlesAt params.now start rate result.0 }
    ensures soon { result.0 ≤ 83 }
    ensures peak { IsPeakTo params.now start rate result.0 result.1 }
    ensures most { result.1 ≤ most_peak }
{
    let mut spread = first(params, start, rate);
    let mut peak = apart(params, spread);
    for double in 0..83 {
        if is_settled(params, spread) {
            return (double, peak);
        }
        spread = next(params, spread);
        peak = peak.max(apart(params, spread));
    }
    (83, peak)
}

fn first(params: &Params, start: u64, rate: u64) -> Spread
    requires start { start ≤ most_stated }
    requires rate { rate ≤ most_stated }
    ensures value { result ≡ first_spread params.now start rate }
    ensures starts { result.starts ≤ most_starts }
    ensures lengths { result.lengths ≤ most_stated }
{
    Spread {
        starts: start.max(pi(params)),
        lengths: rate.max(lambda(params)),
    }
}

fn next(params: &Params, spread: Spread) -> Spread
    requires starts { spread.starts ≤ most_starts }
    requires lengths { spread.lengths ≤ most_stated }
    ensures value { result ≡ next_spread params.now spread }
    ensures starts { result.starts ≤ most_starts }
    ensures lengths { result.lengths ≤ most_stated }
{
    let more = 4 * arrival_error(params) + 8 * longest_microtick(params);
    Spread {
        starts: (spread.starts + 6 * spread.lengths + more) / 2,
        lengths: (spread.lengths + lambda(params)) / 2,
    }
}

fn is_settled(params: &Params, spread: Spread) -> bool
    ensures yes { result ≡ true → IsSettled params.now spread }
    ensures no { result ≡ false → IsSettled params.now spread → ⊥ }
{
    spread.lengths == lambda(params) && spread.starts == pi(params)
}

fn apart(params: &Params, spread: Spread) -> u64
    requires starts { spread.starts ≤ most_starts }
    requires lengths { spread.lengths ≤ most_stated }
    ensures value { result ≡ apart_in params.now spread }
    ensures most { result ≤ most_peak }
{
    spread.starts + 2 * spread.lengths + 2 * longest_microtick(params)
}

// The first check for the way that fails, with both sides.
fn first_failing(params: &Params, peak: u64) -> Option<(u8, i64, i64)>
    requires { peak ≤ most_peak }
    ensures { IsSettleVerdict params.now peak result }
{
    for number in 1..6 {
        let CheckSides { left, right, holds } = side_within(params, number, peak);
        if !holds {
            return Some((number, left, right));
        }
    }
    None
}

/// The sides of the check of this number, 1 to 5, where macroticks may lie so many ticks apart on the way: from the third
/// one on with that in place of the precision.
pub fn side_within(params: &Params, number: u8, peak: u64) -> CheckSides
    requires number { IsSettleCheck number }
    requires peak { peak ≤ most_peak }
    ensures { IsSettleCheckOf number peak params.now result }
{
    let (left, _right) = sides(params, number);
    let right = need(params, number, peak);
    CheckSides {
        left: left as i64,
        right: right as i64,
        holds: if number == 5 {
            right < left
        } else {
            right <= left
        },
    }
}

// What a check for the way needs: the last three with the peak in place of the precision.
fn need(params: &Params, number: u8, peak: u64) -> u64
    requires number { IsSettleCheck number }
    requires peak { peak ≤ most_peak }
    ensures value { result ≡ settle_right_of number peak params.now }
    ensures most { result ≤ most_side }
{
    match number {
        3 => peak + arrival_error(params) + longest_microtick(params),
        4 => front_need(params, peak),
        5 => back_need(params, peak),
        _ => sides(params, number).1,
    }
}
