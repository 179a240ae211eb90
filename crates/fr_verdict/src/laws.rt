ghost use Rattle.fr_verdict.specs.Answer.{OneAnswer, SomeAnswer};
ghost use Rattle.fr_verdict.specs.Breach.{OneFirstBreach};
ghost use Rattle.fr_verdict.specs.FirstGap.{FirstGapIsFound, FoundGapIsFirst, NoGapFoundIsCovered};
ghost use Rattle.fr_verdict.specs.Heard.{HeardSuffices};
ghost use Rattle.fr_verdict.specs.OtherGaps.{OneOtherwise, OtherGapIsFound, SomeOtherwise};
ghost use Rattle.fr_verdict.specs.Precision.{CheckedTracesKeepPrecision, LawfulTracesRun};
ghost use Rattle.fr_verdict.specs.Search.{FirstBreachIsFound, FoundBreachIsFirst, NoneFoundIsLawful, PassesInParts};
ghost use Rattle.fr_verdict.specs.Worked.{ItemsAreNumbered, RowsAreBroken, DevsAreBroken, TermsAreBroken, WorkedIsLawful, GapsAreFound, JoinedIsLawful, NodesAreApart};

/// A law: the worked trace with its items and their numbers, in which no law is broken; and for each law the
/// first breach of a trace in which one record is another. Likewise of a trace with a node that joins.
pub fn worked_trace()
    ensures items { ItemsAreNumbered }
    ensures lawful { WorkedIsLawful }
    ensures rows { RowsAreBroken }
    ensures terms { TermsAreBroken }
    ensures devs { DevsAreBroken }
    ensures gaps { GapsAreFound }
    ensures joined { JoinedIsLawful }
    ensures apart { NodesAreApart }
{}

/// A law: the breach that is found is the first, the first is found, and a trace in which none is found is lawful;
/// a trace has one first breach at most, and it is found part by part.
pub fn found_breach_is_first()
    ensures found { FoundBreachIsFirst }
    ensures first { FirstBreachIsFound }
    ensures none { NoneFoundIsLawful }
    ensures one { OneFirstBreach }
    ensures parts { PassesInParts }
{}

/// A law: the gap that is found is the first, the first is found, and a trace in which none is found is covered.
pub fn found_gap_is_first()
    ensures found { FoundGapIsFirst }
    ensures first { FirstGapIsFound }
    ensures none { NoGapFoundIsCovered }
{}

/// A law: the gap other than a failed check that is found is the first, and where none is found there is none. Of what
/// comes first in a trace, a breach or such a gap, there is one at most, and none exactly where the trace is lawful
/// without such a gap.
pub fn other_gaps_are_found()
    ensures found { OtherGapIsFound }
    ensures one { OneOtherwise }
    ensures some { SomeOtherwise }
{}

/// A law: a trace has one answer.
pub fn one_answer()
    ensures one { OneAnswer }
    ensures some { SomeAnswer }
{}

/// A law: it suffices that of each correct sender and each other correct node every deviation is one of both rows, and
/// that on some channel there is one in both cycles (section 8.5), for each node to hear each other one.
pub fn hearing_suffices()
    ensures { HeardSuffices }
{}

/// A law: the clocks of a lawful trace run by their laws, and those of a trace that passes are in sync in each double
/// cycle and keep together within the precision, in ticks, from its first double cycle in sync in which no node may
/// follow to its end, whoever joins.
pub fn a_passing_trace_keeps_its_precision()
    ensures run { LawfulTracesRun }
    ensures keep { CheckedTracesKeepPrecision }
{}
