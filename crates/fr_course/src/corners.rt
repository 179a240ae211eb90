ghost use Rattle.std.specs.Prelude.{◌≡◌, pos, neg_ℤ, ◌+ℤ◌, ◌-ℤ◌};
ghost use Rattle.fr_base.specs.Within.{IsBetween, IsWithin};
ghost use Rattle.fr_course.specs.Course.{even_start, even_turn, mean_from, mean_to, odd_macrotick, odd_start, odd_turn, share_from, share_to};
ghost use Rattle.fr_course.specs.Near.{IsCorner, IsNearCourse};
ghost use Rattle.fr_course.specs.Ranges.{greatest_corner, greatest_length, greatest_mean, greatest_sharp_corner};

use crate::courses::Course;
use crate::intervals::Interval;
use crate::scales::Scale;
use crate::shares::{mean_from, mean_to, share_from, share_to};

/// Where the start of the even cycle can lie.
pub fn even_start(scale: &Scale, course: &Course) -> Interval
    requires course { IsNearCourse scale.now course.now }
    ensures value { result ≡ even_start scale.now course.now }
    ensures near { IsCorner result }
{
    Interval {
        low: course.even.low - action_to(scale, course),
        high: course.even.high - action_from(scale, course) + scale.micro_to,
    }
}

/// Where the start of the odd cycle can lie.
pub fn odd_start(scale: &Scale, course: &Course) -> Interval
    requires course { IsNearCourse scale.now course.now }
    ensures value { result ≡ odd_start scale.now course.now }
    ensures near { IsCorner result }
{
    Interval {
        low: odd_start_from(scale, course),
        high: odd_start_to(scale, course),
    }
}

/// Where the point of the even cycle can lie at which an offset correction would start, before it is rounded down to
/// microticks.
pub fn even_turn(scale: &Scale, course: &Course) -> Interval
    requires course { IsNearCourse scale.now course.now }
    ensures value { result ≡ even_turn scale.now course.now }
    ensures near { IsCorner result }
{
    Interval {
        low: even_turn_from(scale, course),
        high: even_turn_to(scale, course),
    }
}

/// Where the point of the odd cycle can lie at which its offset correction starts, before it is rounded down to
/// microticks.
pub fn odd_turn(scale: &Scale, course: &Course) -> Interval
    requires course { IsNearCourse scale.now course.now }
    ensures value { result ≡ odd_turn scale.now course.now }
    ensures near { IsCorner result }
{
    Interval {
        low: course.odd.low + ahead_from(scale, course),
        high: course.odd.high + ahead_to(scale, course) + scale.micro_to,
    }
}

// Where a macrotick of the odd cycle can lie, up to the start of its offset correction.
pub(crate) fn odd_macrotick(scale: &Scale, course: &Course, macrotick: i128) -> Interval
    requires course { IsNearCourse scale.now course.now }
    requires macrotick { IsBetween (pos 0) scale.now.correction macrotick }
    ensures value { result ≡ odd_macrotick scale.now course.now macrotick }
    ensures near { IsCorner result }
{
    let _of_cycle = scale.macros;
    let ahead = macrotick - course.action;
    if ahead >= 0 {
        macrotick_behind(scale, course, ahead)
    } else {
        macrotick_before(scale, course, ahead)
    }
}

// One so many macroticks behind the action point.
fn macrotick_behind(scale: &Scale, course: &Course, ahead: i128) -> Interval
    requires course { IsNearCourse scale.now course.now }
    requires ahead { IsBetween (pos 0) scale.now.macros ahead }
    ensures low { result.low ≡
        (course.now.odd.low +ℤ share_from scale.now ahead course.now.length.low) -ℤ scale.now.micro_to }
    ensures high { result.high ≡
        (course.now.odd.high +ℤ share_to scale.now ahead course.now.length.high) +ℤ scale.now.micro_to }
    ensures near { IsCorner result }
{
    Interval {
        low: course.odd.low + share_from(scale, ahead, course.length.low) - scale.micro_to,
        high: course.odd.high + share_to(scale, ahead, course.length.high) + scale.micro_to,
    }
}

// One so many macroticks before it: a number below 0.
fn macrotick_before(scale: &Scale, course: &Course, ahead: i128) -> Interval
    requires course { IsNearCourse scale.now course.now }
    requires ahead { IsBetween (neg_ℤ scale.now.macros) (pos 0) ahead }
    ensures low { result.low ≡
        (course.now.odd.low +ℤ share_from scale.now ahead course.now.length.high) -ℤ scale.now.micro_to }
    ensures high { result.high ≡
        (course.now.odd.high +ℤ share_to scale.now ahead course.now.length.low) +ℤ scale.now.micro_to }
    ensures near { IsCorner result }
{
    let micro = scale.micro_to;
    Interval {
        low: course.odd.low - share_to(scale, -ahead, course.length.high) - micro,
        high: course.odd.high - share_from(scale, -ahead, course.length.low) + micro,
    }
}

// How long the macroticks before the action point last, at least and at most.
fn action_from(scale: &Scale, course: &Course) -> i128
    requires course { IsNearCourse scale.now course.now }
    ensures value { result ≡ share_from scale.now course.now.action course.now.length.low }
    ensures within { IsWithin greatest_length result }
{
    let _of_cycle = scale.macros;
    share_from(scale, course.action, course.length.low)
}

fn action_to(scale: &Scale, course: &Course) -> i128
    requires course { IsNearCourse scale.now course.now }
    ensures value { result ≡ share_to scale.now course.now.action course.now.length.high }
    ensures within { IsWithin greatest_length result }
{
    let _of_cycle = scale.macros;
    share_to(scale, course.action, course.length.high)
}

// How long those behind it last.
pub(crate) fn rest_from(scale: &Scale, course: &Course) -> i128
    requires course { IsNearCourse scale.now course.now }
    ensures value { result ≡
        share_from scale.now (scale.now.macros -ℤ course.now.action) course.now.length.low }
    ensures within { IsWithin greatest_length result }
{
    let rest = scale.macros - course.action;
    share_from(scale, rest, course.length.low)
}

pub(crate) fn rest_to(scale: &Scale, course: &Course) -> i128
    requires course { IsNearCourse scale.now course.now }
    ensures value { result ≡
        share_to scale.now (scale.now.macros -ℤ course.now.action) course.now.length.high }
    ensures within { IsWithin greatest_length result }
{
    let rest = scale.macros - course.action;
    share_to(scale, rest, course.length.high)
}

// How long those between it and the start of the offset correction last.
fn ahead_from(scale: &Scale, course: &Course) -> i128
    requires course { IsNearCourse scale.now course.now }
    ensures value { result ≡
        share_from scale.now (scale.now.correction -ℤ course.now.action) course.now.length.low }
    ensures within { IsWithin greatest_length result }
{
    let ahead = scale.correction - course.action;
    share_from(scale, ahead, course.length.low)
}

fn ahead_to(scale: &Scale, course: &Course) -> i128
    requires course { IsNearCourse scale.now course.now }
    ensures value { result ≡
        share_to scale.now (scale.now.correction -ℤ course.now.action) course.now.length.high }
    ensures within { IsWithin greatest_length result }
{
    let ahead = scale.correction - course.action;
    share_to(scale, ahead, course.length.high)
}

// The start of the odd cycle: by the action point before it, by that behind it, and between both.
fn odd_start_from(scale: &Scale, course: &Course) -> i128
    requires course { IsNearCourse scale.now course.now }
    ensures value { result ≡ (odd_start scale.now course.now).low }
    ensures within { IsWithin greatest_sharp_corner result }
{
    let before = course.even.low + rest_from(scale, course);
    let behind = course.odd.low - action_to(scale, course);
    before.max(behind.max(between_from(scale, course)))
}

fn odd_start_to(scale: &Scale, course: &Course) -> i128
    requires course { IsNearCourse scale.now course.now }
    ensures value { result ≡ (odd_start scale.now course.now).high }
    ensures within { IsWithin greatest_corner result }
{
    let before = course.even.high + rest_to(scale, course);
    let behind = course.odd.high - action_from(scale, course);
    before.min(behind.min(between_to(scale, course))) + scale.micro_to
}

// Between both action points, so that they lie a cycle apart.
fn between_from(scale: &Scale, course: &Course) -> i128
    requires course { IsNearCourse scale.now course.now }
    ensures value { result ≡
        mean_from scale.now course.now.action course.now.even.low course.now.odd.low
        -ℤ scale.now.change }
    ensures within { IsWithin greatest_mean result }
{
    let change = scale.change;
    mean_from(scale, course.action, course.even.low, course.odd.low) - change
}

fn between_to(scale: &Scale, course: &Course) -> i128
    requires course { IsNearCourse scale.now course.now }
    ensures value { result ≡
        mean_to scale.now course.now.action course.now.even.high course.now.odd.high
        +ℤ scale.now.change }
    ensures within { IsWithin greatest_mean result }
{
    let change = scale.change;
    mean_to(scale, course.action, course.even.high, course.odd.high) + change
}

// The point of the even cycle at which an offset correction would start: by the action point before it, and between
// both.
fn even_turn_from(scale: &Scale, course: &Course) -> i128
    requires course { IsNearCourse scale.now course.now }
    ensures value { result ≡ (even_turn scale.now course.now).low }
    ensures within { IsWithin greatest_sharp_corner result }
{
    let before = course.even.low + ahead_from(scale, course);
    before.max(turn_from(scale, course))
}

fn even_turn_to(scale: &Scale, course: &Course) -> i128
    requires course { IsNearCourse scale.now course.now }
    ensures value { result ≡ (even_turn scale.now course.now).high }
    ensures within { IsWithin greatest_corner result }
{
    let before = course.even.high + ahead_to(scale, course);
    before.min(turn_to(scale, course)) + scale.micro_to
}

// Between both action points.
fn turn_from(scale: &Scale, course: &Course) -> i128
    requires course { IsNearCourse scale.now course.now }
    ensures value { result ≡
        mean_from scale.now (scale.now.macros -ℤ (scale.now.correction -ℤ course.now.action))
        course.now.even.low course.now.odd.low
        -ℤ scale.now.change }
    ensures within { IsWithin greatest_mean result }
{
    let ahead = scale.correction - course.action;
    let before = scale.macros - ahead;
    mean_from(scale, before, course.even.low, course.odd.low) - scale.change
}

fn turn_to(scale: &Scale, course: &Course) -> i128
    requires course { IsNearCourse scale.now course.now }
    ensures value { result ≡
        mean_to scale.now (scale.now.macros -ℤ (scale.now.correction -ℤ course.now.action))
        course.now.even.high course.now.odd.high
        +ℤ scale.now.change }
    ensures within { IsWithin greatest_mean result }
{
    let ahead = scale.correction - course.action;
    let before = scale.macros - ahead;
    mean_to(scale, before, course.even.high, course.odd.high) + scale.change
}
