ghost use Rattle.std.specs.Prelude.{◌≡◌, pos};
ghost use Rattle.fr_course.specs.Computed.{deviation_seen, length_ticks, rate_value_seen, ticks_in};
ghost use Rattle.fr_course.specs.Near.{EndWithin, HasValues, IsInTicks, IsNearCourse};
ghost use Rattle.fr_course.specs.Ranges.{greatest_reading};

use crate::corners::odd_macrotick;
use crate::courses::{Course, between};
use crate::intervals::Interval;
use crate::measuring::{Measuring, counted_in, placed_in};
use crate::readings::{least_ticks, most_ticks};
use crate::scales::Scale;

/// The length of the cycles of a node with this course, before their offset correction, in ticks.
pub fn length_ticks(scale: &Scale, course: &Course) -> Interval
    requires course { IsNearCourse scale.now course.now }
    ensures value { result ≡ length_ticks scale.now course.now }
    ensures near { IsInTicks result }
{
    ticks_in(scale, &course.length)
}

/// The deviation that a receiver can have of a sender in the odd cycle (section 8.5), by their courses; in microticks.
pub fn deviation_seen(
    scale: &Scale,
    measuring: &Measuring,
    receiver: &Course,
    sender: &Course,
) -> Interval
    requires receiver { IsNearCourse scale.now receiver.now }
    requires sender { IsNearCourse scale.now sender.now }
    ensures value { result ≡ deviation_seen scale.now measuring.now receiver.now sender.now }
    ensures near { HasValues result }
{
    let at = odd_macrotick(scale, receiver, sender.action);
    let late = ticks_in(scale, &between(&at, &sender.odd));
    counted_in(measuring, measuring.arrival_error, &late)
}

/// The rate value that it can have of the sender (section 8.6.3), by how far the sender's action points lie apart; in
/// microticks.
pub fn rate_value_seen(
    scale: &Scale,
    measuring: &Measuring,
    receiver: &Course,
    sender: &Course,
) -> Interval
    requires receiver { IsNearCourse scale.now receiver.now }
    requires sender { IsNearCourse scale.now sender.now }
    ensures value { result ≡ rate_value_seen scale.now measuring.now receiver.now sender.now }
    ensures near { HasValues result }
{
    let longer = ticks_in(scale, &between(&receiver.length, &sender.apart));
    placed_in(measuring, measuring.rate_error, &longer)
}

// Readings as ticks.
pub(crate) fn ticks_in(scale: &Scale, readings: &Interval) -> Interval
    requires readings { EndWithin greatest_reading readings.now }
    ensures value { result ≡ ticks_in scale.now readings.now }
    ensures near { IsInTicks result }
{
    Interval {
        low: least_ticks(scale.drift, readings.low),
        high: most_ticks(scale.drift, readings.high),
    }
}
