ghost use Rattle.std.specs.Prelude.{◌≡◌, pos, int_lt, if◌then◌else◌, IfSome};
ghost use Rattle.fr_base.specs.Within.{IsWithin};
ghost use Rattle.fr_course.specs.Course.{share_from, share_to};
ghost use Rattle.fr_course.specs.Near.{EndWithin, IsNearCourse, IsPoint, IsSpan, IsTerm};
ghost use Rattle.fr_course.specs.Readings.{micros_from, micros_in, micros_to};
ghost use Rattle.fr_course.specs.Terms.{offset_reading, offset_seen, onward, rate_step_seen, step_reading};
ghost use Rattle.fr_course.specs.Ranges.{greatest_length, greatest_points_apart, greatest_term, IsMicroReading};

use crate::corners::{rest_from, rest_to};
use crate::courses::{Course, between};
use crate::intervals::{Interval, meet_if};
use crate::quotients::{ceiling, floor};
use crate::scales::Scale;
use crate::shares::{share_from, share_to};

/// Which offset terms a node can have applied in the odd cycle of a double cycle, by its course there and in the next
/// one and by the spans between its frames of both cycles; in microticks, from the least to the greatest.
pub fn offset_seen(
    scale: &Scale,
    course: &Course,
    next: &Course,
    span: Option<Interval>,
) -> Interval
    requires course { IsNearCourse scale.now course.now }
    requires next { IsNearCourse scale.now next.now }
    requires span { IfSome span IsSpan }
    ensures value { result ≡ offset_seen scale.now course.now next.now span }
    ensures near { IsTerm result }
{
    micros_in(scale, &offset_reading(scale, course, next, span))
}

/// Which differences a node's next rate term can have to that of a double cycle, by its courses in both; in
/// microticks, from the least to the greatest.
pub fn rate_step_seen(scale: &Scale, course: &Course, next: &Course) -> Interval
    requires course { IsNearCourse scale.now course.now }
    requires next { IsNearCourse scale.now next.now }
    ensures value { result ≡ rate_step_seen scale.now course.now next.now }
    ensures near { IsTerm result }
{
    micros_in(scale, &step_reading(scale, course, next))
}

// How far the action point of the next even cycle can lie behind that of the odd one.
fn onward(course: &Course, next: &Course, span: Option<Interval>) -> Interval
    requires course { IsPoint course.now.odd }
    requires next { IsPoint next.now.even }
    requires span { IfSome span IsSpan }
    ensures value { result ≡ onward course.now next.now span }
    ensures near { EndWithin greatest_points_apart result }
{
    meet_if(span, &between(&course.odd, &next.even))
}

// How long the offset term can be, as a reading.
fn offset_reading(scale: &Scale, course: &Course, next: &Course, span: Option<Interval>) -> Interval
    requires course { IsNearCourse scale.now course.now }
    requires next { IsNearCourse scale.now next.now }
    requires span { IfSome span IsSpan }
    ensures value { result ≡ offset_reading scale.now course.now next.now span }
    ensures near { IsTerm result }
{
    let from = onward(course, next, span);
    Interval {
        low: from.low - begun_to(scale, course, next) - rest_to(scale, course) - scale.micro_to,
        high: from.high - begun_from(scale, course, next) - rest_from(scale, course)
            + scale.micro_to,
    }
}

// How long the macroticks before the action point of the next even cycle last.
fn begun_from(scale: &Scale, course: &Course, next: &Course) -> i128
    requires course { IsNearCourse scale.now course.now }
    requires next { IsNearCourse scale.now next.now }
    ensures value { result ≡ share_from scale.now course.now.action next.now.length.low }
    ensures within { IsWithin greatest_length result }
{
    let _of_cycle = scale.macros;
    share_from(scale, course.action, next.length.low)
}

fn begun_to(scale: &Scale, course: &Course, next: &Course) -> i128
    requires course { IsNearCourse scale.now course.now }
    requires next { IsNearCourse scale.now next.now }
    ensures value { result ≡ share_to scale.now course.now.action next.now.length.high }
    ensures within { IsWithin greatest_length result }
{
    let _of_cycle = scale.macros;
    share_to(scale, course.action, next.length.high)
}

// How much longer the next cycles can be, as a reading, but for the change of the microtick.
fn step_reading(scale: &Scale, course: &Course, next: &Course) -> Interval
    requires course { IsNearCourse scale.now course.now }
    requires next { IsNearCourse scale.now next.now }
    ensures value { result ≡ step_reading scale.now course.now next.now }
    ensures near { IsTerm result }
{
    Interval {
        low: next.length.low - course.length.high - scale.change,
        high: next.length.high - course.length.low + scale.change,
    }
}

// The least and the greatest number of microticks that so long can be, in readings.
fn micros_in(scale: &Scale, long: &Interval) -> Interval
    requires long { IsTerm long.now }
    ensures value { result ≡ micros_in scale.now long.now }
    ensures near { IsTerm result }
{
    Interval {
        low: micros_from(scale, long.low),
        high: micros_to(scale, long.high),
    }
}

fn micros_from(scale: &Scale, long: i128) -> i128
    requires long { IsWithin greatest_term long }
    ensures value { result ≡ micros_from scale.now long }
    ensures within { IsWithin greatest_term result }
{
    ceiling(long, inner_micro(scale, long))
}

fn micros_to(scale: &Scale, long: i128) -> i128
    requires long { IsWithin greatest_term long }
    ensures value { result ≡ micros_to scale.now long }
    ensures within { IsWithin greatest_term result }
{
    floor(long, outer_micro(scale, long))
}

// The microtick of which a length is the least number.
fn inner_micro(scale: &Scale, long: i128) -> i128
    ensures value { result ≡
        (if int_lt long (pos 0) then scale.now.micro_from else scale.now.micro_to) }
    ensures within { IsMicroReading result }
{
    if long < 0 {
        scale.micro_from
    } else {
        scale.micro_to
    }
}

// The microtick of which a length is the greatest number.
fn outer_micro(scale: &Scale, long: i128) -> i128
    ensures value { result ≡
        (if int_lt long (pos 0) then scale.now.micro_to else scale.now.micro_from) }
    ensures within { IsMicroReading result }
{
    if long < 0 {
        scale.micro_to
    } else {
        scale.micro_from
    }
}
