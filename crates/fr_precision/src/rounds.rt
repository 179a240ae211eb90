ghost use Rattle.fr_precision.specs.Round.{HearersAreGuided, HearersKeepOne, HearsAll};

/// The law of rounds: where the senders outweigh the arbitrary sync nodes, a receiver that has deviations of
/// every sender, and others of arbitrary nodes alone, has one offset and one rate value of each sender
/// (sections 8.5 and 8.6), and no more further ones than it discards at each end. Any two receivers keep
/// the value of one sender in common.
pub fn rounds_are_heard()
    ensures all { HearsAll }
    ensures keep { HearersKeepOne }
{}

/// The law of one receiver, as of a node that follows before it joins: within reach of the senders it cuts
/// no term, and its next start, in ticks, lies among the ends of the senders.
pub fn rounds_guide()
    ensures { HearersAreGuided }
{}
