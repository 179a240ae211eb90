ghost use Rattle.std.specs.Prelude.{◌≡◌, ◌≤◌, ◌*◌, ◌≤ℤ◌, ◌*ℤ◌, pos};
ghost use Rattle.fr_base.specs.Within.{IsBetween};
ghost use Rattle.fr_bound.specs.Bounds.{cycle_change, longest_micro, shortest_micro};
ghost use Rattle.fr_bound.specs.Checks.{least_cycle};
ghost use Rattle.fr_course.specs.Readings.{most_cycle, reading_scale};
ghost use Rattle.fr_course.specs.Ranges.{greatest_cycle, IsMicrotick};

use crate::readings::{least_reading, most_reading};
use fr_bound::{cycle_change, longest_microtick, shortest_microtick};
use fr_cluster::{ParamName, Params};
use fr_time::grid_of;
use std::marker::Model;

// The ticks of a nominal microtick.
const NOMINAL: u64 = 1_000_000;

/// The numbers of a cluster as readings of an observer's clock.
#[derive(Clone, Copy, Debug, PartialEq, Eq)]
pub struct Scale {
    /// The drift of the observer's clock, in parts per million.
    pub drift: u64,
    /// The macroticks of a cycle.
    pub macros: i128,
    /// The macrotick at which the offset correction starts.
    pub correction: i128,
    /// The least length of a cycle before its offset correction.
    pub length_from: i128,
    /// The greatest length of a cycle before its offset correction.
    pub length_to: i128,
    /// By how much a length changes from one cycle to the next.
    pub change: i128,
    /// The shortest microtick.
    pub micro_from: i128,
    /// The longest microtick.
    pub micro_to: i128,
}

impl Model for Scale {
    ghost use Rattle.fr_course.specs.Scales.{Scale, IsReadingScale};

    ghost Value = { Scale };

    ghost view = { λ s. record { drift = s.drift; macros = s.macros; correction = s.correction; length_from = s.length_from; length_to = s.length_to; change = s.change; micro_from = s.micro_from; micro_to = s.micro_to } };

    ghost invariant = { λ s. IsReadingScale (record { drift = s.drift; macros = s.macros; correction = s.correction; length_from = s.length_from; length_to = s.length_to; change = s.change; micro_from = s.micro_from; micro_to = s.micro_to }) };

    ghost inverse = { λ s. record { drift = s.drift; macros = s.macros; correction = s.correction; length_from = s.length_from; length_to = s.length_to; change = s.change; micro_from = s.micro_from; micro_to = s.micro_to } };
}

impl Scale {
    /// The numbers of these parameters, where the observer's clock drifts by at most so many parts per million.
    pub fn of(params: &Params, drift: u64) -> Scale
        requires { drift ≤ 1000 }
        ensures value { result ≡ reading_scale drift params.now }
    {
        let grid = grid_of(params);
        Scale {
            drift,
            macros: grid.macros as i128,
            correction: grid.correction as i128,
            length_from: least_reading(drift, shortest_cycle(params)),
            length_to: most_reading(drift, longest_cycle(params)),
            change: most_reading(drift, greatest_change(params)),
            micro_from: least_reading(drift, shortest_micro(params)),
            micro_to: most_reading(drift, longest_micro(params)),
        }
    }
}

// The microticks of the shortest cycle before its offset correction.
fn fewest_micros(params: &Params) -> u64
    ensures value { result ≡ least_cycle params.now }
    ensures most { result ≤ 640_000 }
{
    params
        .natural(ParamName::pMicroPerCycle)
        .saturating_sub(params.natural(ParamName::pRateCorrectionOut))
}

// The ticks of that cycle.
fn shortest_cycle(params: &Params) -> i128
    ensures value { result ≡ pos (least_cycle params.now) *ℤ pos (shortest_micro params.now) }
    ensures within { IsBetween (pos 0) greatest_cycle result }
{
    (fewest_micros(params) * shortest_microtick(params)) as i128
}

// The ticks of the longest cycle before its offset correction.
fn longest_cycle(params: &Params) -> i128
    ensures value { result ≡ most_cycle params.now *ℤ pos (longest_micro params.now) }
    ensures within { IsBetween (pos 0) greatest_cycle result }
{
    let micros = params.natural(ParamName::pMicroPerCycle)
        + params.natural(ParamName::pRateCorrectionOut);
    (micros * longest_microtick(params)) as i128
}

// By how many ticks a cycle changes from one to the next.
fn greatest_change(params: &Params) -> i128
    ensures value { result ≡ pos (cycle_change params.now) }
    ensures within { IsBetween (pos 0) greatest_cycle result }
{
    cycle_change(params) as i128
}

// The ticks of the shortest microtick.
pub(crate) fn shortest_micro(params: &Params) -> i128
    ensures value { result ≡ pos (shortest_micro params.now) }
    ensures within { IsMicrotick result }
{
    (NOMINAL - params.natural(ParamName::xRateBound)) as i128
}

// The ticks of the longest microtick.
pub(crate) fn longest_micro(params: &Params) -> i128
    ensures value { result ≡ pos (longest_micro params.now) }
    ensures within { IsMicrotick result }
{
    (NOMINAL + params.natural(ParamName::xRateBound)) as i128
}
