ghost use Rattle.fr_course.specs.Computed.{ValuesAreCounted, ValuesArePlaced};
ghost use Rattle.fr_course.specs.Middles.{MiddlesHold, MissingMiddlesWiden};

/// The law of values: what a receiver counts of ticks that lie from one number to another, with an error and rounded down
/// to microticks between the shortest and the longest, lies between the numbers that both ends give.
pub fn values_are_counted()
    ensures { ValuesAreCounted }
{}

/// The law of placed values: a number of microticks between the shortest and the longest that gives, with an error, ticks
/// that lie from one number to another, lies between the numbers that both ends give.
pub fn values_are_placed()
    ensures { ValuesArePlaced }
{}

/// The law of middles: the fault-tolerant midpoint of values (section 8.6.1), of which one lies in each of some intervals but
/// in those of at most a number that were missed, and of which the others are not more than a number, lies in the middle of
/// these intervals with so many further and so many lost values.
pub fn middles_hold()
    ensures { MiddlesHold }
{}

/// The law of wider middles: a midpoint that lies in the middle of some intervals with so many lost values lies in that with
/// more of them.
pub fn missing_middles_widen()
    ensures { MissingMiddlesWiden }
{}
