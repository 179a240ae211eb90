ghost use Rattle.fr_verdict.specs.Alike.{AlikeTracesKeepPrecision, AlikeTracesKeepSharpSync, FirstUnlikeIsFound, PassingTracesKeepSharply, UnnamedTracesAreAlike};
ghost use Rattle.fr_verdict.specs.SharpTraces.{CheckedTracesAreSteady, PassingTracesComeSharp, TracesKeepSharpPrecision, TracesKeepSharpSync, TracesSettleSharply};
ghost use Rattle.fr_verdict.specs.WorkedTrace.{WorkedTraceKeepsPrecision, WorkedTraceMeetsPremises};

/// The law of recorded traces: where no node joins, a lawful trace keeps the sharper precision, in ticks, with both errors
/// of an arrival for the flutter. From a double cycle in sharp sync on, with even lengths in their range and under the second
/// and the third check, it is in sharp sync in each double cycle, for as many as the rate limit holds the walk: no term by
/// its recorded deviations is cut or missing, and each node is active behind. Where the first check holds too, all that is
/// so in each cycle to the end, with even lengths in their range. A lawful trace without a gap but of the older checks is such
/// a one, from its first double cycle in sync on. One that passes, so under the older checks, comes into sharp sync as many
/// double cycles after it as the spreads from the older pi and lambda take to come to rest.
pub fn traces_keep_sharp_sync()
    ensures steady { CheckedTracesAreSteady }
    ensures keep { TracesKeepSharpSync }
    ensures precise { TracesKeepSharpPrecision }
    ensures passing { PassingTracesComeSharp }
{}

/// The law of what is said alike: where from a double cycle on the frames of each arbitrary sync node reach all correct
/// nodes or none, at one time, as recorded rows and deviations tell, the trace keeps the sharper precision without arbitrary
/// nodes, in ticks, from that double cycle on, if it is in sharp sync as without such nodes. A trace that names none is a case
/// of it. The first double cycle in which that is not so is found by a search.
pub fn alike_traces_keep_sharp_sync()
    ensures unnamed { UnnamedTracesAreAlike }
    ensures found { FirstUnlikeIsFound }
    ensures keep { AlikeTracesKeepSharpSync }
    ensures precise { AlikeTracesKeepPrecision }
    ensures passing { PassingTracesKeepSharply }
{}

/// A law: from stated numbers for starts and even lengths, in ticks, these in their range, such a trace keeps to the
/// spreads by double cycle, under the second and the third check with a reach for the whole way, and is in sharp sync when
/// these have come to rest, as long as the walk lasts.
pub fn traces_settle_sharply()
    ensures { TracesSettleSharply }
{}

/// A law: the worked trace of two nodes meets the premises from its start on, with a flutter of 1,000,000 ticks, and its
/// clocks keep within 45,007,594 ticks.
pub fn a_steady_trace()
    ensures premises { WorkedTraceMeetsPremises }
    ensures precise { WorkedTraceKeepsPrecision }
{}
