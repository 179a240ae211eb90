ghost use Rattle.std.specs.Prelude.{◌≡◌, ◌<◌, [], ◌∷◌, ◌++◌, length};

use crate::sender::no_course;
use fr_base::ROW_ROOM;
use fr_course::Course;
use std::marker::Model;

/// The courses of nodes, one of each at most and no more than 64: contracts see their list. No call takes memory.
#[derive(Drop)]
pub struct CourseList {
    courses: [Course; ROW_ROOM],
    used: usize,
}

impl Model for CourseList {
    ghost use Rattle.std.specs.Prelude.{◌≤◌, List, take};
    ghost use Rattle.fr_course.specs.declared.courses.Course.{Course as Known};

    ghost Value = { List Known };

    ghost view = { λ list. take list.used list.courses };

    ghost invariant = { λ list. list.used ≤ 64 };
}

impl CourseList {
    /// No courses.
    pub fn new() -> CourseList
        ensures { result ≡ [] }
    {
        CourseList {
            courses: [no_course(); ROW_ROOM],
            used: 0,
        }
    }

    /// Appends a course.
    pub fn push(&mut self, course: Course)
        requires { length self.old < 64 }
        ensures { self.new ≡ self.old ++ course ∷ [] }
    {
        self.courses[self.used] = course;
        self.used += 1;
    }

    /// The courses as a slice.
    pub fn as_slice(&self) -> &[Course]
        ensures { result.now ≡ self.now }
    {
        &self.courses[..self.used]
    }
}
