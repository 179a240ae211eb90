ghost use Rattle.std.specs.Prelude.{◌≡◌, ◌⊎◌, ◌-◌, ◌≤◌, ◌<◌, ◌≤ℤ◌, ◌<ℤ◌, ℕ, length, nat_abs, pos, true, All, IsSome};
ghost use Rattle.fr_base.specs.Within.{IsBetween};
ghost use Rattle.fr_time.specs.Placed.{IsPlacedRow};
ghost use Rattle.fr_time.specs.Position.{IsGrid};
ghost use Rattle.fr_skew.specs.Courses.{AreCourses};
ghost use Rattle.fr_skew.specs.Spreads.{spread_at};
ghost use Rattle.fr_skew.specs.Stretches.{IsNoGreater, IsReached, IsStretch};
ghost use Rattle.fr_skew.specs.Sweep.{greatest_after, greatest_within};

use crate::alike::{are_alike, keep_pace};
use crate::bound::{MOST, correction, wider_end};
use crate::courses::{Course, courses_of, go_all, next_spread};
use crate::peak::{Peak, greater, macroticks};
use crate::spread::spread_at;
use fr_base::NodeRow;
use fr_time::{Grid, is_odd};

// How many macroticks a stretch has at most.
const STRETCH: u32 = 64;

// The greatest skew after all macroticks of one more cycle. One `Macro` for each running node moves through it, all
// together. A stretch in which by its bound no skew can be the greatest of the cycle is left out.
pub(crate) fn swept_by_stretches(
    grid: &Grid,
    cycle: u32,
    rows: &[NodeRow],
    before: Option<Peak>,
) -> Option<Peak>
    requires grid { IsGrid grid.now }
    requires rows { All (IsPlacedRow grid.now) rows.now }
    requires few { length rows.now ≤ 64 }
    ensures value { result ≡ greatest_within grid.now cycle rows.now before (nat_abs grid.now.macros) }
    ensures there { IsSome result }
{
    let mut courses = courses_of(grid, cycle, rows);
    swept_along(grid, cycle, rows, courses.as_mut_slice(), before)
}

fn swept_along(
    grid: &Grid,
    cycle: u32,
    rows: &[NodeRow],
    courses: &mut [Course],
    before: Option<Peak>,
) -> Option<Peak>
    requires grid { IsGrid grid.now }
    requires rows { All (IsPlacedRow grid.now) rows.now }
    requires courses { AreCourses grid.now cycle rows.now courses.old }
    ensures value { result ≡ greatest_within grid.now cycle rows.now before (nat_abs grid.now.macros) }
    ensures there { IsSome result }
{
    let macros = macroticks(grid);
    let known = known_skew(grid, cycle, rows);
    let mut peak = before;
    let mut from = 0;
    while from < macros {
        let to = next_end(grid, cycle, rows, from, known, peak);
        peak = swept_or_left(grid, cycle, rows, courses, from, to, known, peak);
        from = to;
    }
    peak
}

// The greatest skew after a stretch. It is left out where all its skews are below one that is known to come in the
// cycle, or no more than the greatest so far.
fn swept_or_left(
    grid: &Grid,
    cycle: u32,
    rows: &[NodeRow],
    courses: &mut [Course],
    from: u32,
    to: u32,
    known: i64,
    before: Option<Peak>,
) -> Option<Peak>
    requires grid { IsGrid grid.now }
    requires rows { All (IsPlacedRow grid.now) rows.now }
    requires courses { AreCourses grid.now cycle rows.now courses.old }
    requires stretch { IsStretch grid.now cycle from to }
    ensures skew { (result ≡ greatest_after grid.now cycle rows.now before from (to - from))
        ⊎ ((result ≡ before) × ((macrotick : ℕ) → from ≤ macrotick → macrotick < to →
        spread_at grid.now cycle rows.now macrotick <ℤ known)) }
    ensures courses { AreCourses grid.now cycle rows.now courses.new }
{
    let bound = stretch_bound(grid, cycle, rows, from, to);
    if bound < known {
        return before;
    }
    if is_no_greater(bound, before) {
        return before;
    }
    go_all(courses, from);
    let mut peak = before;
    for macrotick in from..to {
        let skew = next_spread(courses);
        peak = Some(greater(
            peak,
            Peak {
                skew,
                cycle,
                macrotick,
            },
        ));
    }
    peak
}

// Whether a skew is no greater than the greatest so far.
fn is_no_greater(skew: i64, peak: Option<Peak>) -> bool
    ensures { result ≡ true → IsNoGreater skew peak }
{
    match peak {
        None => false,
        Some(peak) => skew <= peak.skew,
    }
}

// How far at most the instants of any macrotick of a stretch lie apart, in ticks: within a stretch each node's instants
// lie on a line, but for a microtick, and not even that matters where all nodes have the same macroticks in it.
fn stretch_bound(grid: &Grid, cycle: u32, rows: &[NodeRow], from: u32, to: u32) -> i64
    requires grid { IsGrid grid.now }
    requires rows { All (IsPlacedRow grid.now) rows.now }
    requires stretch { IsStretch grid.now cycle from to }
    ensures { (macrotick : ℕ) → from ≤ macrotick → macrotick < to →
        spread_at grid.now cycle rows.now macrotick ≤ℤ result }
{
    let widest = wider_end(grid, cycle, rows, from, to);
    if are_alike(rows) {
        widest
    } else if keep_pace(grid, cycle, rows, to) {
        widest
    } else {
        widest + 2 * MOST
    }
}

// Where the sweep goes on that has come to a macrotick: behind all macroticks that follow one rule, where that stretch is
// left out as a whole, or else behind a short one.
fn next_end(
    grid: &Grid,
    cycle: u32,
    rows: &[NodeRow],
    from: u32,
    known: i64,
    before: Option<Peak>,
) -> u32
    requires grid { IsGrid grid.now }
    requires rows { All (IsPlacedRow grid.now) rows.now }
    requires within { from < nat_abs grid.now.macros }
    ensures { IsStretch grid.now cycle from result }
{
    if 0 < from && from != correction(grid) {
        return stretch_end(grid, cycle, from);
    }
    let far = rule_end(grid, cycle, from);
    let whole = stretch_bound(grid, cycle, rows, from, far);
    if whole < known {
        return far;
    }
    if is_no_greater(whole, before) {
        return far;
    }
    stretch_end(grid, cycle, from)
}

// Up to where macroticks follow the rule of one.
fn rule_end(grid: &Grid, cycle: u32, from: u32) -> u32
    requires grid { IsGrid grid.now }
    requires within { from < nat_abs grid.now.macros }
    ensures { IsStretch grid.now cycle from result }
{
    let macros = macroticks(grid);
    let correction = correction(grid);
    if is_odd(cycle) && from < correction {
        correction
    } else {
        macros
    }
}

// Where the stretch that begins at a macrotick ends. None goes on beyond the start of the offset correction.
fn stretch_end(grid: &Grid, cycle: u32, from: u32) -> u32
    requires grid { IsGrid grid.now }
    requires within { from < nat_abs grid.now.macros }
    ensures { IsStretch grid.now cycle from result }
{
    let macros = macroticks(grid);
    let correction = correction(grid);
    let far = nearer(from + STRETCH, macros);
    if is_odd(cycle) && from < correction {
        nearer(far, correction)
    } else {
        far
    }
}

// The nearer of two macroticks.
fn nearer(one: u32, other: u32) -> u32
    ensures first { result ≤ one }
    ensures second { result ≤ other }
    ensures which { (result ≡ one) ⊎ (result ≡ other) }
{
    if one < other { one } else { other }
}

// A skew that some macrotick of the cycle has: the greatest of three that often have it.
fn known_skew(grid: &Grid, cycle: u32, rows: &[NodeRow]) -> i64
    requires grid { IsGrid grid.now }
    requires rows { All (IsPlacedRow grid.now) rows.now }
    ensures { IsReached grid.now cycle rows.now result }
{
    let correction = correction(grid);
    let last = macroticks(grid) - 1;
    let begins = spread_at(grid, cycle, 0, rows);
    let turns = spread_at(grid, cycle, correction, rows);
    let ends = spread_at(grid, cycle, last, rows);
    higher(higher(begins, turns), ends)
}

// The higher of two skews.
fn higher(one: i64, other: i64) -> i64
    ensures { (result ≡ one) ⊎ (result ≡ other) }
{
    if one < other { other } else { one }
}
