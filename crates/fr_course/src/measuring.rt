ghost use Rattle.std.specs.Prelude.{◌≡◌, ◌≤◌, ◌+ℤ◌, ℤ, pos, int_lt, if◌then◌else◌, IfSome};
ghost use Rattle.std.specs.Option.{option_map};
ghost use Rattle.fr_base.specs.Within.{IsBetween, IsWithin};
ghost use Rattle.fr_course.specs.Computed.{further_by, measuring_of, placed_from, placed_in, values_from, counted_in, values_to};
ghost use Rattle.fr_course.specs.Near.{EndWithin, HasUndamped, HasValues, IsInTicks};
ghost use Rattle.fr_course.specs.Ranges.{greatest_error, greatest_measured, greatest_ticks, IsError, IsMicrotick, IsValue};

use crate::intervals::Interval;
use crate::quotients::{ceiling, floor};
use crate::scales::{longest_micro, shortest_micro};
use fr_bound::{Flutter, arrival_error, steady_error};
use fr_cluster::{ParamName, Params};
use std::marker::Model;

/// How the nodes of a cluster measure.
#[derive(Clone, Copy, Debug, PartialEq, Eq)]
pub struct Measuring {
    /// The error of an arrival, in ticks.
    pub arrival_error: i128,
    /// How far a rate value may place a sender's action points from their true distance, in ticks.
    pub rate_error: i128,
    /// The shortest microtick, in ticks.
    pub shortest: i128,
    /// The longest microtick, in ticks.
    pub longest: i128,
    /// The damping of rate terms, in microticks.
    pub damping: i128,
}

impl Model for Measuring {
    ghost use Rattle.fr_course.specs.Measures.{Measuring, IsMeasuring};

    ghost Value = { Measuring };

    ghost view = { λ m. record { arrival_error = m.arrival_error; rate_error = m.rate_error; shortest = m.shortest; longest = m.longest; damping = m.damping } };

    ghost invariant = { λ m. IsMeasuring (record { arrival_error = m.arrival_error; rate_error = m.rate_error; shortest = m.shortest; longest = m.longest; damping = m.damping }) };

    ghost inverse = { λ m. record { arrival_error = m.arrival_error; rate_error = m.rate_error; shortest = m.shortest; longest = m.longest; damping = m.damping } };
}

impl Measuring {
    /// How the nodes of these parameters measure, where delays flutter by no more than so many ticks.
    pub fn of(params: &Params, flutter: Flutter) -> Measuring
        ensures value { result ≡ measuring_of params.now flutter }
    {
        Measuring {
            arrival_error: arrival_error(params) as i128,
            rate_error: steady_error(params, flutter) as i128,
            shortest: shortest_micro(params),
            longest: longest_micro(params),
            damping: params.natural(ParamName::pClusterDriftDamping) as i128,
        }
    }
}

// What a receiver can have counted of so many ticks with an error, in microticks: from the least to the greatest.
pub(crate) fn counted_in(measuring: &Measuring, error: i128, ticks: &Interval) -> Interval
    requires error { IsError error }
    requires ticks { IsInTicks ticks.now }
    ensures value { result ≡ counted_in measuring.now error ticks.now }
    ensures near { HasValues result }
{
    let off = further_by(error, ticks);
    Interval {
        low: values_from(measuring, off.low),
        high: values_to(measuring, off.high),
    }
}

// How many of a receiver's microticks can give so many ticks, with an error: from the least to the greatest number.
pub(crate) fn placed_in(measuring: &Measuring, error: i128, ticks: &Interval) -> Interval
    requires error { IsError error }
    requires ticks { IsInTicks ticks.now }
    ensures value { result ≡ placed_in measuring.now error ticks.now }
    ensures near { HasValues result }
{
    let off = further_by(error, ticks);
    Interval {
        low: placed_from(measuring, off.low),
        high: values_to(measuring, off.high),
    }
}

// An interval that goes so much farther at both ends.
pub(crate) fn further_by(more: i128, interval: &Interval) -> Interval
    requires more { IsBetween (pos 0) greatest_error more }
    requires interval { EndWithin greatest_ticks interval.now }
    ensures value { result ≡ further_by more interval.now }
    ensures near { (bound : ℤ) → EndWithin bound interval.now → EndWithin (bound +ℤ more) result }
{
    Interval {
        low: interval.low - more,
        high: interval.high + more,
    }
}

/// The numbers that a damped one of these numbers (section 8.6.3) can have been, in microticks; none where it has no limits.
pub fn undamped(measuring: &Measuring, damped: Option<Interval>) -> Option<Interval>
    requires damped { IfSome damped HasValues }
    ensures value { result ≡ option_map (further_by measuring.now.damping) damped }
    ensures near { IfSome result HasUndamped }
{
    match damped {
        None => None,
        Some(damped) => Some(further_by(measuring.damping, &damped)),
    }
}

// The least number of a receiver's microticks that so many ticks are, rounded down.
fn values_from(measuring: &Measuring, ticks: i128) -> i128
    requires ticks { IsWithin greatest_measured ticks }
    ensures value { result ≡ values_from measuring.now ticks }
    ensures within { IsValue result }
{
    floor(ticks, outer_measure(measuring, ticks))
}

// The greatest number of them.
fn values_to(measuring: &Measuring, ticks: i128) -> i128
    requires ticks { IsWithin greatest_measured ticks }
    ensures value { result ≡ values_to measuring.now ticks }
    ensures within { IsValue result }
{
    floor(ticks, inner_measure(measuring, ticks))
}

// The least number of them that gives so many ticks, rounded up.
fn placed_from(measuring: &Measuring, ticks: i128) -> i128
    requires ticks { IsWithin greatest_measured ticks }
    ensures value { result ≡ placed_from measuring.now ticks }
    ensures within { IsValue result }
{
    ceiling(ticks, outer_measure(measuring, ticks))
}

// The microtick of which so many ticks are the least number.
fn outer_measure(measuring: &Measuring, ticks: i128) -> i128
    ensures value { result ≡
        (if int_lt ticks (pos 0) then measuring.now.shortest else measuring.now.longest) }
    ensures within { IsMicrotick result }
{
    if ticks < 0 {
        measuring.shortest
    } else {
        measuring.longest
    }
}

// The microtick of which they are the greatest number.
fn inner_measure(measuring: &Measuring, ticks: i128) -> i128
    ensures value { result ≡
        (if int_lt ticks (pos 0) then measuring.now.longest else measuring.now.shortest) }
    ensures within { IsMicrotick result }
{
    if ticks < 0 {
        measuring.longest
    } else {
        measuring.shortest
    }
}
