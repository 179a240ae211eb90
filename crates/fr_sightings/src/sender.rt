use fr_base::NodeId;
use fr_course::{Course, Interval};

/// A node with its course in a double cycle.
#[derive(Clone, Copy, Debug, PartialEq, Eq)]
pub struct Sender {
    /// The node.
    pub node: NodeId,
    /// Its course.
    pub course: Course,
    /// Its course in the next double cycle, if it has one there.
    pub next: Option<Course>,
    /// How far the action point of the next even cycle lies behind that of the odd one, by stamps of one channel.
    pub onward: Option<Interval>,
}

// What stands in the places of a list of courses that are not in use: all its numbers are 0.
pub(crate) fn no_course() -> Course {
    let nowhere = Interval { low: 0, high: 0 };
    Course {
        action: 0,
        even: nowhere,
        odd: nowhere,
        apart: nowhere,
        length: nowhere,
    }
}

// What stands in those of a list of senders.
impl Default for Sender {
    fn default() -> Sender {
        Sender {
            node: NodeId(1),
            course: no_course(),
            next: None,
            onward: None,
        }
    }
}
