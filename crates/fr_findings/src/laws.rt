ghost use Rattle.fr_findings.specs.Judged.{WithinIsJudged};
ghost use Rattle.fr_findings.specs.Outcomes.{OpenIsCounted, OverIsTold, PartlyIsCounted, StandingsAreTold};
ghost use Rattle.fr_findings.specs.Outcomes.{SyncIsCounted, WithinIsCounted};
ghost use Rattle.fr_findings.specs.Within.{PartlyIsElse, WithinSaysWithin};

/// The law of judged double cycles: where the verdict of a log is within, each of its double cycles from that of the verdict's
/// first cycle on is judged.
pub fn within_is_judged()
    ensures { WithinIsJudged }
{}

/// The law of what is counted: each double cycle of a log is judged or has a reason. The row `sync` and the
/// verdicts partly, within and open name the first of those that are judged, and the last; how many they are, how
/// many there are in all, and what their rows say; and of the reasons the first of those that came farthest.
pub fn outcomes_are_counted()
    ensures each { StandingsAreTold }
    ensures sync { SyncIsCounted }
    ensures partly { PartlyIsCounted }
    ensures within { WithinIsCounted }
    ensures open { OpenIsCounted }
{}

/// The law of within: where the verdict of a log is within, each of its double cycles from the first judged one on
/// is judged, and each of their rows but the last says within; where it is partly, it is not so.
pub fn within_is_exact()
    ensures within { WithinSaysWithin }
    ensures partly { PartlyIsElse }
{}

/// The law of rows over: the verdict over has how many rows say over, one at least; where it is open, within or partly none
/// does.
pub fn over_is_told()
    ensures { OverIsTold }
{}
