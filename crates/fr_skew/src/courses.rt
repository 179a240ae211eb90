ghost use Rattle.std.specs.Prelude.{◌≡◌, ◌≤◌, ◌<◌, ◌≤ℤ◌, ◌+ℤ◌, ◌*ℤ◌, ◌++◌, length, map, pos, All, None, IfSome};
ghost use Rattle.std.specs.List.{fold};
ghost use Rattle.arrayvec.specs.ArrayVec.{array_vec_len};
ghost use Rattle.fr_base.specs.Timed.{IsLength};
ghost use Rattle.fr_base.specs.Within.{IsBetween};
ghost use Rattle.fr_time.specs.Cycles.{is_odd};
ghost use Rattle.fr_time.specs.Placed.{IsPlacedRow};
ghost use Rattle.fr_skew.specs.Courses.{course_if, course_of, courses_at, gone_on, gone_to, next_instant, CanGoOn};
ghost use Rattle.fr_skew.specs.Extents.{with_number, IsExtent, IsInstant};
ghost use Rattle.fr_skew.specs.Spreads.{most_apart_ever, spread_of};

use crate::extent::{Extent, spread_by, widened};
use arrayvec::ArrayVec;
use fr_base::{NodeRow, ROW_ROOM, ticks_of};
use fr_time::{Grid, Macro, is_odd};

// A running node's cycle, macrotick by macrotick.
#[derive(Debug, Drop)]
pub(crate) struct Course {
    walk: Macro,
    // The start of the cycle and the length of a microtick in it, in ticks.
    start: i64,
    length: i64,
}

// The grid of the shortest cycle.
const SHORTEST: Grid = Grid {
    macros: 2,
    micros: 2,
    correction: 1,
};

// What stands in the places of a list that are not in use.
impl Default for Course {
    fn default() -> Course {
        Course {
            walk: Macro::begin(&SHORTEST, 0, 0, false),
            start: 0,
            length: 0,
        }
    }
}

impl Course {
    // A node's cycle before its first macrotick.
    fn begin(grid: &Grid, cycle: u32, row: &NodeRow) -> Course
        requires { IsPlacedRow grid.now row.now }
        ensures { result ≡ course_of grid.now (is_odd cycle) (pos 0) row.now }
    {
        Course {
            walk: Macro::begin(grid, row.rate, row.offset, is_odd(cycle)),
            start: row.start,
            length: row.length,
        }
    }

    // Goes on by a macrotick, and answers its instant, in ticks.
    fn next(&mut self) -> i64
        requires { CanGoOn self.old }
        ensures instant { result ≡ next_instant self.old }
        ensures after { self.new ≡ gone_on self.old }
        ensures proper { IsInstant result }
    {
        match self.walk.next() {
            None => unreachable!(),
            Some(at) => instant_by(self.start, at, self.length),
        }
    }

    // Goes before another macrotick.
    fn go(&mut self, macrotick: u32)
        requires { pos macrotick ≤ℤ self.old.walk.grid.macros }
        ensures { self.new ≡ gone_to (pos macrotick) self.old }
    {
        self.walk.go(i64::from(macrotick));
    }
}

// The instant of a position, in ticks.
fn instant_by(start: i64, position: i64, length: i64) -> i64
    requires start { IsBetween (pos 0) (pos 1_110_000_000_000_000_000) start }
    requires position { IsBetween (pos 0) (pos 700_000) position }
    requires length { IsLength length }
    ensures value { result ≡ start +ℤ (position *ℤ length) }
    ensures proper { IsInstant result }
{
    start + ticks_of(position, length)
}

// The cycles of the running nodes before their first macrotick.
pub(crate) fn courses_of(grid: &Grid, cycle: u32, rows: &[NodeRow]) -> ArrayVec<Course, ROW_ROOM>
    requires rows { All (IsPlacedRow grid.now) rows.now }
    requires few { length rows.now ≤ 64 }
    ensures { result.items ≡ courses_at grid.now cycle rows.now (pos 0) }
{
    let mut courses = ArrayVec::new();
    for row in rows {
        add_course(grid, cycle, row, &mut courses);
    }
    courses
}

fn add_course(grid: &Grid, cycle: u32, row: &NodeRow, courses: &mut ArrayVec<Course, ROW_ROOM>)
    requires row { IsPlacedRow grid.now row.now }
    requires room { array_vec_len courses.old < 64 }
    ensures { courses.new.items ≡ courses.old.items ++ course_if grid.now (is_odd cycle) row.now }
{
    if !row.state.is_halted() {
        courses.push(Course::begin(grid, cycle, row));
    }
}

// Goes before another macrotick with each.
pub(crate) fn go_all(courses: &mut [Course], macrotick: u32)
    requires { All (λ course. pos macrotick ≤ℤ course.walk.grid.macros) courses.old }
    ensures { courses.new ≡ map (gone_to (pos macrotick)) courses.old }
{
    for course in courses.iter_mut() {
        course.go(macrotick);
    }
}

// Goes on by a macrotick with each, and answers how far its instants lie apart, in ticks.
pub(crate) fn next_spread(courses: &mut [Course]) -> i64
    requires { All CanGoOn courses.old }
    ensures value { result ≡ spread_of (map next_instant courses.old) }
    ensures after { courses.new ≡ map gone_on courses.old }
    ensures within { IsBetween (pos 0) (pos most_apart_ever) result }
{
    spread_by(next_extent(courses))
}

fn next_extent(courses: &mut [Course]) -> Option<Extent>
    requires { All CanGoOn courses.old }
    ensures value { result ≡ fold with_number None (map next_instant courses.old) }
    ensures after { courses.new ≡ map gone_on courses.old }
    ensures proper { IfSome result IsExtent }
{
    let mut extent = None;
    for course in courses.iter_mut() {
        let at = course.next();
        extent = Some(widened(extent, at));
    }
    extent
}
