ghost use Rattle.fr_seen.specs.LogDoubles.{DoublesAreThere, SendersLieAsSeen};

/// A law: of senders whose courses hold, in sync or not, the starts lie apart, in ticks, by no less and no more than the
/// courses allow, and so do the lengths of their cycles, each of which is one that its course allows.
pub fn senders_lie_as_seen()
    ensures { SendersLieAsSeen }
{}

/// A law: the run that a log is seen of has each double cycle that has rows in the log's text.
pub fn doubles_are_there()
    ensures { DoublesAreThere }
{}
