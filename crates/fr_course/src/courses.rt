ghost use Rattle.std.specs.Prelude.{◌≡◌, pos, ◌+ℤ◌, ◌-ℤ◌, IfSome};
ghost use Rattle.std.specs.Int.{int_max, int_min};
ghost use Rattle.fr_base.specs.Within.{IsBetween};
ghost use Rattle.fr_course.specs.Course.{allowed, apart_by, between, course_back, course_by, course_from, course_on, is_there, length_seen, seen_apart};
ghost use Rattle.fr_course.specs.Near.{EndWithin, IsApart, IsBox, IsCorner, IsNearCourse, IsPoint, IsSeenLength, IsSpan};
ghost use Rattle.fr_course.specs.Ranges.{greatest_corners_apart, greatest_cycle_reading, greatest_points_apart};

use crate::intervals::{Interval, is_empty, meet, meet_if};
use crate::scales::Scale;

/// What is known of a node in a double cycle, as readings of an observer's clock.
#[derive(Clone, Copy, Debug, PartialEq, Eq)]
pub struct Course {
    /// The macrotick at which it sends.
    pub action: i128,
    /// Where its action point of the even cycle can lie.
    pub even: Interval,
    /// Where that of the odd cycle can lie.
    pub odd: Interval,
    /// How far apart both can lie.
    pub apart: Interval,
    /// How long its cycles can be, before their offset correction.
    pub length: Interval,
}

/// The course of a node that sends at a macrotick, by the boxes of its frames in the even and in the odd cycle and by
/// the spans between them; none without a frame.
pub fn course_from(
    scale: &Scale,
    action: i128,
    even: Option<Interval>,
    odd: Option<Interval>,
    span: Option<Interval>,
) -> Option<Course>
    requires action { IsBetween (pos 0) scale.now.correction action }
    requires even { IfSome even IsBox }
    requires odd { IfSome odd IsBox }
    requires span { IfSome span IsSpan }
    ensures value { result ≡ course_from scale.now action even odd span }
    ensures near { IfSome result (IsNearCourse scale.now) }
{
    match (even, odd) {
        (None, None) => None,
        (Some(even), None) => Some(course_on(scale, action, &even)),
        (None, Some(odd)) => Some(course_back(scale, action, &odd)),
        (Some(even), Some(odd)) => Some(course_of_both(scale, action, &even, &odd, span)),
    }
}

/// Whether no interval of a course is empty: else no clock of the cluster has such stamps.
pub fn is_there(course: &Course) -> bool
    ensures { result ≡ is_there course.now }
{
    !(is_empty(&course.even)
        || is_empty(&course.odd)
        || is_empty(&course.apart)
        || is_empty(&course.length))
}

// With a frame in the even cycle alone.
fn course_on(scale: &Scale, action: i128, even: &Interval) -> Course
    requires action { IsBetween (pos 0) scale.now.correction action }
    requires even { IsBox even.now }
    ensures value { result ≡ course_on scale.now action even.now }
    ensures near { IsNearCourse scale.now result }
{
    Course {
        action,
        even: *even,
        odd: Interval {
            low: even.low + scale.length_from,
            high: even.high + scale.length_to,
        },
        apart: allowed(scale),
        length: allowed(scale),
    }
}

// With a frame in the odd cycle alone.
fn course_back(scale: &Scale, action: i128, odd: &Interval) -> Course
    requires action { IsBetween (pos 0) scale.now.correction action }
    requires odd { IsBox odd.now }
    ensures value { result ≡ course_back scale.now action odd.now }
    ensures near { IsNearCourse scale.now result }
{
    Course {
        action,
        even: Interval {
            low: odd.low - scale.length_to,
            high: odd.high - scale.length_from,
        },
        odd: *odd,
        apart: allowed(scale),
        length: allowed(scale),
    }
}

// With a frame in both.
fn course_of_both(
    scale: &Scale,
    action: i128,
    even: &Interval,
    odd: &Interval,
    span: Option<Interval>,
) -> Course
    requires action { IsBetween (pos 0) scale.now.correction action }
    requires even { IsBox even.now }
    requires odd { IsBox odd.now }
    requires span { IfSome span IsSpan }
    ensures value { result ≡
        course_by scale.now action even.now odd.now (apart_by scale.now even.now odd.now span) }
    ensures near { IsNearCourse scale.now result }
{
    let apart = apart_by(scale, even, odd, span);
    course_by(scale, action, even, odd, &apart)
}

fn course_by(
    scale: &Scale,
    action: i128,
    even: &Interval,
    odd: &Interval,
    apart: &Interval,
) -> Course
    requires action { IsBetween (pos 0) scale.now.correction action }
    requires even { IsBox even.now }
    requires odd { IsBox odd.now }
    requires apart { IsApart apart.now }
    ensures value { result ≡ course_by scale.now action even.now odd.now apart.now }
    ensures near { IsNearCourse scale.now result }
{
    Course {
        action,
        even: before(even, odd, apart),
        odd: behind(even, odd, apart),
        apart: *apart,
        length: length_seen(scale, apart),
    }
}

// Where the action point of the even cycle can lie by that of the odd one.
fn before(even: &Interval, odd: &Interval, apart: &Interval) -> Interval
    requires even { IsBox even.now }
    requires odd { IsBox odd.now }
    requires apart { IsApart apart.now }
    ensures low { result.low ≡ int_max even.now.low (odd.now.low -ℤ apart.now.high) }
    ensures high { result.high ≡ int_min even.now.high (odd.now.high -ℤ apart.now.low) }
    ensures near { IsPoint result }
{
    Interval {
        low: even.low.max(odd.low - apart.high),
        high: even.high.min(odd.high - apart.low),
    }
}

// Where that of the odd cycle can lie by that of the even one.
fn behind(even: &Interval, odd: &Interval, apart: &Interval) -> Interval
    requires even { IsBox even.now }
    requires odd { IsBox odd.now }
    requires apart { IsApart apart.now }
    ensures low { result.low ≡ int_max odd.now.low (even.now.low +ℤ apart.now.low) }
    ensures high { result.high ≡ int_min odd.now.high (even.now.high +ℤ apart.now.high) }
    ensures near { IsPoint result }
{
    Interval {
        low: odd.low.max(even.low + apart.low),
        high: odd.high.min(even.high + apart.high),
    }
}

/// The lengths of cycles, before their offset correction, that a cluster allows, as readings.
pub fn allowed(scale: &Scale) -> Interval
    ensures value { result ≡ allowed scale.now }
    ensures near { EndWithin greatest_cycle_reading result }
{
    Interval {
        low: scale.length_from,
        high: scale.length_to,
    }
}

/// How much later points can be that lie in one interval than points that lie in another, as readings.
pub fn between(from: &Interval, to: &Interval) -> Interval
    requires from { IsCorner from.now }
    requires to { IsCorner to.now }
    ensures value { result ≡ between from.now to.now }
    ensures near { EndWithin greatest_corners_apart result }
    ensures courses { IsPoint from.now → IsPoint to.now →
        EndWithin greatest_points_apart result }
    ensures boxes { IsBox from.now → IsBox to.now → IsApart result }
{
    Interval {
        low: to.low - from.high,
        high: to.high - from.low,
    }
}

/// How far apart the action points of a node in the even and in the odd cycle lie, by the boxes of its frames and by the
/// spans between them, as readings: whether its cluster allows it or not.
pub fn seen_apart(even: &Interval, odd: &Interval, span: Option<Interval>) -> Interval
    requires even { IsBox even.now }
    requires odd { IsBox odd.now }
    requires span { IfSome span IsSpan }
    ensures value { result ≡ seen_apart even.now odd.now span }
    ensures near { IsApart result }
{
    meet_if(span, &between(even, odd))
}

// How far apart two action points can be by what is known of each, and by the spans.
fn apart_by(scale: &Scale, even: &Interval, odd: &Interval, span: Option<Interval>) -> Interval
    requires even { IsBox even.now }
    requires odd { IsBox odd.now }
    requires span { IfSome span IsSpan }
    ensures value { result ≡ apart_by scale.now even.now odd.now span }
    ensures near { IsApart result }
{
    meet_if(span, &meet(&allowed(scale), &between(even, odd)))
}

// How long cycles can be whose action points lie so far apart.
fn length_seen(scale: &Scale, apart: &Interval) -> Interval
    requires apart { IsApart apart.now }
    ensures value { result ≡ length_seen scale.now apart.now }
    ensures near { IsSeenLength result }
{
    Interval {
        low: (apart.low - scale.change).max(scale.length_from),
        high: (apart.high + scale.change).min(scale.length_to),
    }
}
