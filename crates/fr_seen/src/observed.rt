ghost use Rattle.fr_seen.specs.Observed.{NumbersAreFound, SeenCoursesHold, SeenNodesGoOn, SeenNumbersAreFound, TimelyFramesAreNear};

/// The law of numbers: the number of a frame's cycle in a log is found by its count from that of a frame before it, if
/// both come in time, as those of a log that is seen of a run do.
pub fn numbers_are_found()
    ensures count { NumbersAreFound }
    ensures near { TimelyFramesAreNear }
    ensures seen { SeenNumbersAreFound }
{}

/// A law: of a log that is seen of a run, in sync or not, the courses by its frames hold of the nodes that sent them,
/// and from one double cycle to the next these nodes go on. So what courses say of skew and terms is so in the run.
pub fn seen_courses_hold()
    ensures hold { SeenCoursesHold }
    ensures on { SeenNodesGoOn }
{}
