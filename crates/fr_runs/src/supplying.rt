ghost use Rattle.fr_runs.specs.References.{CatchesAreCaught, CatchesSuffice};
ghost use Rattle.fr_runs.specs.Supplied.{CoverageSuffices, CoveredListenersBegin, GatheringsAreFed, LawfulCyclesAreFed, StartsStayNatural};

/// A law: what a node begins to follow with behind a double cycle in sync was caught of the frames of its
/// reference, in ticks, and it suffices where the reference's start is not negative. So in a covered run a node
/// that listens in such a double cycle begins to follow behind it.
pub fn references_are_heard()
    ensures caught { CatchesAreCaught }
    ensures suffices { CatchesSuffice }
    ensures begin { CoveredListenersBegin }
{}

/// A law: in a covered run, each node that has rows in a double cycle in sync, and each node that
/// follows in it, has the deviations of every sender, and no others but those of arbitrary nodes.
pub fn gatherings_are_fed()
    ensures double { GatheringsAreFed }
    ensures cycles { LawfulCyclesAreFed }
{}

/// A law: where the starts of cycle 0 are not negative, in ticks, and the rates of its nodes begin within their
/// limit, no start of a later cycle is, of a node that has a row or of one that follows.
pub fn starts_stay_natural()
    ensures { StartsStayNatural }
{}

/// A law: what is stated of a run alone, its checks, its nodes, its oscillators, references, delays and links, covers
/// it, whichever nodes have rows.
pub fn coverage_suffices()
    ensures { CoverageSuffices }
{}
