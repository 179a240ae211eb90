ghost use Rattle.fr_seen.specs.Skews.{EvenSkewIsSeen, OddSkewIsKept, OddSkewIsReached};

/// The law of skew: of nodes whose courses hold, the skew of the even cycle, in ticks, is from the least to the
/// greatest that the courses allow; that of the odd one is no less than they allow.
pub fn skews_are_seen()
    ensures even { EvenSkewIsSeen }
    ensures odd { OddSkewIsReached }
{}

/// A law: where they have courses in the next double cycle too, the skew of the odd cycle, in ticks, is no greater than
/// both allow.
pub fn odd_skews_are_kept()
    ensures { OddSkewIsKept }
{}
