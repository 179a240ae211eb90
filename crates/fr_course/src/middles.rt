ghost use Rattle.std.specs.Prelude.{◌≡◌, ◌≤◌, ◌<◌, ◌-◌, ◌∷◌, [], ◌++◌, min, if◌then◌else◌, List, ℤ, pos, All, IfSome, length, map};
ghost use Rattle.fr_midpoint.specs.Midpoint.{half_of_sum};
ghost use Rattle.fr_course.specs.Ends.{interval_end, AreRanked};
ghost use Rattle.fr_course.specs.Middles.{greatest_left, highs_of, hull, joined, least_left, lows_of, middle, middle_missing, middle_where, middle_with};
ghost use Rattle.fr_course.specs.Near.{HasValues};
ghost use Rattle.fr_course.specs.Readings.{Interval as Known};
ghost use Rattle.fr_course.specs.Ranges.{AreValues, IsValue};

use crate::intervals::Interval;
use fr_midpoint::discarded_of;
use std::marker::Model;

// An end of an interval.
#[derive(Clone, Copy)]
pub(crate) enum End {
    Low,
    High,
}

// At most 64 ends of intervals, each a value: contracts see their list.
#[derive(Drop)]
struct EndList {
    ends: [i64; 64],
    used: usize,
}

impl Model for EndList {
    ghost use Rattle.std.specs.Prelude.{◌≤◌, List, ℤ, take};
    ghost use Rattle.fr_course.specs.Ranges.{AreValues};

    ghost Value = { List ℤ };

    ghost view = { λ list. take list.used list.ends };

    ghost invariant = { λ list. (list.used ≤ 64) × AreValues (take list.used list.ends) };
}

impl EndList {
    // No ends.
    fn new() -> EndList
        ensures { result ≡ [] }
    {
        EndList {
            ends: [0; 64],
            used: 0,
        }
    }

    // Appends an end.
    fn push(&mut self, end: i64)
        requires room { length self.old < 64 }
        requires within { IsValue end }
        ensures { self.new ≡ self.old ++ end ∷ [] }
    {
        self.ends[self.used] = end;
        self.used += 1;
    }

    // Puts them into ascending order.
    fn sort(&mut self)
        ensures { AreRanked self.old self.new }
    {
        self.ends[..self.used].sort_unstable();
    }

    // They as a slice.
    fn as_slice(&self) -> &[i64]
        ensures value { result.now ≡ self.now }
        ensures within { AreValues result.now }
    {
        &self.ends[..self.used]
    }
}

/// Between which numbers the fault-tolerant midpoint of some values (section 8.6.1) lies, where each of the intervals
/// has one of them, but at most so many were lost and never all, and at most so many further ones may be there, of any
/// size; in the unit of the intervals, none where nothing limits it.
pub fn middle(further: usize, lost: usize, known: &[Interval]) -> Option<Interval>
    requires further { further ≤ 64 }
    requires lost { lost ≤ 64 }
    requires few { length known.now ≤ 64 }
    requires known { All HasValues known.now }
    ensures value { result ≡ middle further lost known.now }
    ensures near { IfSome result HasValues }
{
    let low_ends = ranked(End::Low, known);
    let high_ends = ranked(End::High, known);
    let (lows, highs) = (low_ends.as_slice(), high_ends.as_slice());
    let mut all = middle_missing(further, 0, lows, highs);
    for missed in 0..most_missed(lost, known.len()) {
        all = hull(all, middle_missing(further, missed + 1, lows, highs));
    }
    all
}

// How many of so many values are missed at most, where at most so many are lost: never all of them.
fn most_missed(lost: usize, count: usize) -> usize
    ensures { result ≡ min lost (count - 1) }
{
    lost.min(count.saturating_sub(1))
}

// With just so many that are missed.
fn middle_missing(further: usize, missed: usize, lows: &[i64], highs: &[i64]) -> Option<Interval>
    requires further { further ≤ 64 }
    requires missed { missed ≤ 64 }
    requires lows { AreValues lows.now }
    requires highs { AreValues highs.now }
    requires few { length lows.now ≤ 64 }
    ensures value { (known : List Known) → AreRanked (lows_of known) lows.now →
        AreRanked (highs_of known) highs.now → result ≡ middle_missing further missed known }
    ensures near { IfSome result HasValues }
{
    let mut all = middle_with(0, missed, lows, highs);
    for less in 0..further {
        all = hull(all, middle_with(less + 1, missed, lows, highs));
    }
    all
}

// The ends of some intervals in ascending order.
fn ranked(end: End, known: &[Interval]) -> EndList
    requires few { length known.now ≤ 64 }
    requires known { All HasValues known.now }
    ensures { AreRanked (map (interval_end end) known.now) result }
{
    let mut list = EndList::new();
    for interval in known {
        list.push(interval_end(interval, end));
    }
    list.sort();
    list
}

// What lies in one interval, in the other, or between both.
fn hull(one: Option<Interval>, other: Option<Interval>) -> Option<Interval>
    requires one { IfSome one HasValues }
    requires other { IfSome other HasValues }
    ensures value { result ≡ hull one other }
    ensures near { IfSome result HasValues }
{
    match (one, other) {
        (Some(one), Some(other)) => Some(joined(&one, &other)),
        _ => None,
    }
}

fn joined(one: &Interval, other: &Interval) -> Interval
    requires one { HasValues one.now }
    requires other { HasValues other.now }
    ensures value { result ≡ joined one.now other.now }
    ensures near { HasValues result }
{
    Interval {
        low: one.low.min(other.low),
        high: one.high.max(other.high),
    }
}

// With just so many further values too, by the ends of the known ones in ascending order.
fn middle_with(further: usize, missed: usize, lows: &[i64], highs: &[i64]) -> Option<Interval>
    requires further { further ≤ 64 }
    requires missed { missed ≤ 64 }
    requires lows { AreValues lows.now }
    requires highs { AreValues highs.now }
    requires few { length lows.now ≤ 64 }
    ensures value { (known : List Known) → AreRanked (lows_of known) lows.now →
        AreRanked (highs_of known) highs.now → result ≡ middle_with further missed known }
    ensures near { IfSome result HasValues }
{
    let ends = discarded_of(lows.len().saturating_sub(missed) + further);
    middle_where(further, missed, ends, lows, highs)
}

// Where so many are discarded at each end.
fn middle_where(
    further: usize,
    missed: usize,
    ends: usize,
    lows: &[i64],
    highs: &[i64],
) -> Option<Interval>
    requires missed { missed ≤ 64 }
    requires ends { ends ≤ 2 }
    requires lows { AreValues lows.now }
    requires highs { AreValues highs.now }
    ensures value { (known : List Known) → AreRanked (lows_of known) lows.now →
        AreRanked (highs_of known) highs.now → result ≡ middle_where further missed ends known }
    ensures near { IfSome result HasValues }
{
    if ends < further {
        return None;
    }
    Some(Interval {
        low: half_sum(
            least_left(lows, ends - further),
            greatest_left(lows, ends + missed),
        ),
        high: half_sum(
            least_left(highs, ends + missed),
            greatest_left(highs, ends - further),
        ),
    })
}

// Half of the sum of two values, truncated toward zero.
fn half_sum(low: i64, high: i64) -> i128
    requires low { IsValue low }
    requires high { IsValue high }
    ensures value { result ≡ half_of_sum low high }
    ensures within { IsValue result }
{
    i128::from((low + high) / 2)
}

// The least of some ends that remains where so many are discarded at each end, in ascending order.
fn least_left(ranked: &[i64], ends: usize) -> i64
    requires { AreValues ranked.now }
    ensures value { (values : List ℤ) → AreRanked values ranked.now → result ≡ least_left ends values }
    ensures within { IsValue result }
{
    if ends < ranked.len() { ranked[ends] } else { 0 }
}

// The greatest one.
fn greatest_left(ranked: &[i64], ends: usize) -> i64
    requires { AreValues ranked.now }
    ensures value { (values : List ℤ) → AreRanked values ranked.now → result ≡ greatest_left ends values }
    ensures within { IsValue result }
{
    if ends < ranked.len() {
        ranked[ranked.len() - 1 - ends]
    } else {
        0
    }
}

fn interval_end(interval: &Interval, end: End) -> i64
    requires { HasValues interval.now }
    ensures value { result ≡ interval_end end interval.now }
    ensures within { IsValue result }
{
    match end {
        End::Low => interval.low as i64,
        End::High => interval.high as i64,
    }
}
