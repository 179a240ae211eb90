ghost use Rattle.std.specs.Prelude.{◌≡◌, pos, All};
ghost use Rattle.fr_base.specs.Within.{IsBetween, IsWithin};
ghost use Rattle.fr_course.specs.Corners.{corner_place};
ghost use Rattle.fr_course.specs.Extremes.{join};
ghost use Rattle.fr_course.specs.Near.{IsCorner, IsInTicks, IsNearCourse};
ghost use Rattle.fr_course.specs.Spread.{least_at, least_distance, least_even_skew, least_odd_skew, lengths_apart, most_at, most_distance, most_even_skew, most_odd_skew, starts_apart};
ghost use Rattle.fr_course.specs.Ranges.{greatest_corners_apart};

use crate::corners::{even_start, even_turn, odd_start, odd_turn};
use crate::courses::Course;
use crate::intervals::{Interval, meet};
use crate::readings::{least_ticks, most_ticks};
use crate::scales::Scale;

// The reading that no corner of a course passes on either side of 0: `greatest_corner`.
const CORNER: i128 = 3_000_000_000_000_000_000;

// A corner of a course, or the length of its cycles.
#[derive(Clone, Copy)]
pub(crate) enum Corner {
    EvenStart,
    EvenTurn,
    OddStart,
    OddTurn,
    Length,
}

/// The skew of the even cycle of nodes with these courses is no less, in ticks; 0 of none.
pub fn least_even_skew(scale: &Scale, courses: &[Course]) -> i64
    requires courses { All (IsNearCourse scale.now) courses.now }
    ensures value { result ≡ least_even_skew scale.now courses.now }
{
    let starts = least_at(scale, Corner::EvenStart, courses);
    let turns = least_at(scale, Corner::EvenTurn, courses) - scale.micro_to;
    least_ticks(scale.drift, starts.max(turns)) as i64
}

/// The skew of the even cycle of nodes with these courses is no greater, in ticks.
pub fn most_even_skew(scale: &Scale, courses: &[Course]) -> i64
    requires courses { All (IsNearCourse scale.now) courses.now }
    ensures value { result ≡ most_even_skew scale.now courses.now }
{
    let starts = most_at(scale, Corner::EvenStart, courses);
    let ends = most_at(scale, Corner::OddStart, courses);
    most_ticks(scale.drift, starts.max(ends) + scale.micro_to) as i64
}

/// The skew of the odd cycle of nodes with these courses is no less, in ticks; 0 of none.
pub fn least_odd_skew(scale: &Scale, courses: &[Course]) -> i64
    requires courses { All (IsNearCourse scale.now) courses.now }
    ensures value { result ≡ least_odd_skew scale.now courses.now }
{
    let starts = least_at(scale, Corner::OddStart, courses);
    let turns = least_at(scale, Corner::OddTurn, courses) - scale.micro_to;
    least_ticks(scale.drift, starts.max(turns)) as i64
}

/// The skew of the odd cycle of nodes with these courses is no greater, in ticks; `next` are the courses of the same
/// nodes in the next double cycle.
pub fn most_odd_skew(scale: &Scale, courses: &[Course], next: &[Course]) -> i64
    requires courses { All (IsNearCourse scale.now) courses.now }
    requires next { All (IsNearCourse scale.now) next.now }
    ensures value { result ≡ most_odd_skew scale.now courses.now next.now }
{
    let starts = most_at(scale, Corner::OddStart, courses);
    let turns = most_at(scale, Corner::OddTurn, courses) + scale.micro_to;
    let ends = most_at(scale, Corner::EvenStart, next);
    most_ticks(scale.drift, starts.max(turns.max(ends)) + scale.micro_to) as i64
}

/// How far apart the even starts of nodes with these courses lie, in ticks: the greatest distance of two, from the least
/// to the greatest number that it can be; 0 of one alone and of none.
pub fn starts_apart(scale: &Scale, courses: &[Course]) -> Interval
    requires courses { All (IsNearCourse scale.now) courses.now }
    ensures value { result ≡ starts_apart scale.now courses.now }
    ensures near { IsInTicks result }
{
    Interval {
        low: least_ticks(scale.drift, least_at(scale, Corner::EvenStart, courses)),
        high: most_ticks(scale.drift, most_at(scale, Corner::EvenStart, courses)),
    }
}

/// How far apart the lengths of their cycles lie, in ticks.
pub fn lengths_apart(scale: &Scale, courses: &[Course]) -> Interval
    requires courses { All (IsNearCourse scale.now) courses.now }
    ensures value { result ≡ lengths_apart scale.now courses.now }
    ensures near { IsInTicks result }
{
    Interval {
        low: least_ticks(scale.drift, least_at(scale, Corner::Length, courses)),
        high: most_ticks(scale.drift, most_at(scale, Corner::Length, courses)),
    }
}

// How far apart a corner of any two courses lies at least: 0 of one alone and of none.
fn least_at(scale: &Scale, corner: Corner, courses: &[Course]) -> i128
    requires courses { All (IsNearCourse scale.now) courses.now }
    ensures value { result ≡ least_at scale.now (corner_place corner) courses.now }
    ensures within { IsBetween (pos 0) greatest_corners_apart result }
{
    let mut least = 0;
    let mut behind = Interval {
        low: -CORNER,
        high: CORNER,
    };
    for place in (0..courses.len()).rev() {
        let point = corner_place(scale, corner, &courses[place]);
        least = least_distance(&point, &behind).max(least);
        behind = meet(&behind, &point);
    }
    least
}

// The same at most.
fn most_at(scale: &Scale, corner: Corner, courses: &[Course]) -> i128
    requires courses { All (IsNearCourse scale.now) courses.now }
    ensures value { result ≡ most_at scale.now (corner_place corner) courses.now }
    ensures within { IsBetween (pos 0) greatest_corners_apart result }
{
    let mut most = 0;
    let mut behind = Interval {
        low: CORNER,
        high: -CORNER,
    };
    for place in (0..courses.len()).rev() {
        let point = corner_place(scale, corner, &courses[place]);
        most = most_distance(&point, &behind).max(most);
        behind = join(&behind, &point);
    }
    most
}

// Where a corner of a course can lie, or how long its cycles can be.
fn corner_place(scale: &Scale, corner: Corner, course: &Course) -> Interval
    requires course { IsNearCourse scale.now course.now }
    ensures value { result ≡ corner_place corner scale.now course.now }
    ensures near { IsCorner result }
{
    match corner {
        Corner::EvenStart => even_start(scale, course),
        Corner::EvenTurn => even_turn(scale, course),
        Corner::OddStart => odd_start(scale, course),
        Corner::OddTurn => odd_turn(scale, course),
        Corner::Length => course.length,
    }
}

// How far apart two points lie at least that lie in two intervals.
fn least_distance(one: &Interval, other: &Interval) -> i128
    requires one { IsCorner one.now }
    requires other { IsCorner other.now }
    ensures value { result ≡ least_distance one.now other.now }
    ensures within { IsWithin greatest_corners_apart result }
{
    (one.low - other.high).max(other.low - one.high)
}

// How far apart they lie at most.
fn most_distance(one: &Interval, other: &Interval) -> i128
    requires one { IsCorner one.now }
    requires other { IsCorner other.now }
    ensures value { result ≡ most_distance one.now other.now }
    ensures within { IsWithin greatest_corners_apart result }
{
    (one.high - other.low).max(other.high - one.low)
}

// From where the one begins that begins first to where the one ends that ends last.
fn join(one: &Interval, other: &Interval) -> Interval
    requires one { IsCorner one.now }
    requires other { IsCorner other.now }
    ensures value { result ≡ join one.now other.now }
    ensures near { IsCorner result }
{
    Interval {
        low: one.low.min(other.low),
        high: one.high.max(other.high),
    }
}
