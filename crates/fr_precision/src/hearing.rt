ghost use Rattle.fr_precision.specs.Hearing.{HearersKeepSenders, HearsAllSteadily};
ghost use Rattle.fr_precision.specs.SharpRound.{RoundsAreSharp, RoundsInReachAreSharp};

/// The law of rounds: a receiver whose deviations of each sender are steady pairs has one offset and one rate value
/// of each (sections 8.5 and 8.6), of which the latter place the lengths of their even cycles, in ticks. Any two
/// receivers keep a sender in common; without arbitrary sync nodes they have the values of the senders alone. So
/// receivers whose action points lie within reach, as those of receivers that lie near each other do, are a double
/// cycle as the sharper step asks for.
pub fn rounds_are_heard_steadily()
    ensures all { HearsAllSteadily }
    ensures keep { HearersKeepSenders }
    ensures reach { RoundsInReachAreSharp }
    ensures double { RoundsAreSharp }
{}
