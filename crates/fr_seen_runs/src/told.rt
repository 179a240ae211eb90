ghost use Rattle.fr_seen.specs.Contradictions.{SteadyRunsMissNone};
ghost use Rattle.fr_seen_runs.specs.ToldDoubles.{TextTellsDoubles};
ghost use Rattle.fr_seen_runs.specs.ToldFaults.{NoFaultIsTold, ToldFaultsAskEither, ToldFaultsAskOwnSlots, ToldFaultsAskJudged, VerdictTellsFirst};

/// The law of faults. The slots of a log are own where each whole frame in the slot of a node that the log does not name
/// arbitrary is one that the node sends there. The text of a log that is seen of a run, which is as the log states, tells only
/// such as ask for own slots, and none where they are. That of a log that is seen of any run whose oscillators keep within
/// what is stated tells only such as ask for runs as the log states or for own slots, and where they are only the former.
pub fn no_fault_is_told()
    ensures run { ToldFaultsAskEither }
    ensures run_with_own_slots { ToldFaultsAskJudged }
    ensures stated { ToldFaultsAskOwnSlots }
    ensures stated_with_own_slots { NoFaultIsTold }
{}

/// A law: a run of which all frames are carried, with delays and changes within what is stated, misses none: of it a log asks nothing
/// more, whatever it says of losses.
pub fn steady_runs_miss_none()
    ensures { SteadyRunsMissNone }
{}

/// A law: the verdict of a log is no exactly where its text tells a fault, and by the first.
pub fn verdict_tells_first()
    ensures { VerdictTellsFirst }
{}

/// A law: between its precision and its census the text of a log has the rows of its double cycles, and these have exactly the
/// faults, the rows of what was missed, those of spread and those that say over, of which the other laws speak.
pub fn text_tells_doubles()
    ensures { TextTellsDoubles }
{}
