ghost use Rattle.fr_runs.specs.Following.{EndsLieNear, FirstDoubleIsInReach, FirstDoubleIsNear, FirstLengthsAreNearNext, FirstStartIsNearEnds, SecondDoubleIsInReach, SecondStartIsNear};

/// The law of ends: the corrected ends of any two receivers of a round lie no further apart than the ends of the
/// senders, and some, in ticks, each with numbers of its own; so does the first start of a node whose reference is one
/// of the senders.
pub fn ends_lie_near()
    ensures ends { EndsLieNear }
    ensures first { FirstStartIsNearEnds }
{}

/// The law of following: where the senders are in sync, a node that begins to follow lies near each node that has a
/// row, in starts and in lengths, in ticks, and so does its start after its first double cycle.
pub fn followers_stay_near()
    ensures lengths { FirstLengthsAreNearNext }
    ensures first { FirstDoubleIsNear }
    ensures second { SecondStartIsNear }
{}

/// The law of reach: up to the start of the offset correction a node that follows lies within reach of the others, in
/// ticks, in both cycles of its first and of its second double cycle.
pub fn followers_stay_in_reach()
    ensures first { FirstDoubleIsInReach }
    ensures second { SecondDoubleIsInReach }
{}
