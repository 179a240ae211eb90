ghost use Rattle.fr_seen.specs.Courses.{CornersLie, CoursesAreThere, CoursesHold};

/// The law of courses: the course of a node's stamped frames holds of the node, and none of its intervals is empty.
pub fn courses_hold()
    ensures hold { CoursesHold }
    ensures there { CoursesAreThere }
{}

/// The law of corners: where a course holds, the starts of both cycles lie in its corners, and the macroticks up to the
/// start of the offset correction.
pub fn corners_lie()
    ensures { CornersLie }
{}
