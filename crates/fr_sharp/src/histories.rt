ghost use Rattle.fr_sharp.specs.SettlingHistories.{HistoriesBeginActive, HistoriesKeepToSpreads, HistoriesReachSharpSync, OlderHistoriesSettle, StatedRunsBeginInSharpSync, StatedStartsAreSharp, TimedRunsBeginInSharpSync};
ghost use Rattle.fr_sharp.specs.WayHistories.{HistoriesSettleSharply, StatedRunsSettleSharply};
ghost use Rattle.fr_runs.specs.SharpHistories.{HistoriesAreSharpDoubles, HistoriesHaveMembers, HistoriesKeepSharpPrecision, HistoriesKeepSharpSync, HistoriesStepSharply, StatedRunsAreSteady};

use fr_history::one_lawful_run;

/// The law of histories: in a lawful history of a run that no node joins and whose delays flutter little, from a double
/// cycle in sharp sync on, with lengths in their range and under the checks but the first, the nodes are in sharp sync in
/// each double cycle, for as many as the rate limit holds the walk: no term is cut or missing, each node is active, behind
/// the last cycle too, and no corresponding macroticks lie further apart than the sharper precision, in ticks. Its double
/// cycles, by the rows of their nodes and the senders of their rounds, are as the law of many double cycles asks for; and
/// where all five checks hold, all that is so in each cycle to the end, with each length in its range. One step of it is
/// with any number for how far lengths lie beyond their range for which the rate limit suffices.
pub fn histories_keep_sharp_sync()
    ensures members { HistoriesHaveMembers }
    ensures double { HistoriesAreSharpDoubles }
    ensures step { HistoriesStepSharply }
    ensures keep { HistoriesKeepSharpSync }
    ensures precise { HistoriesKeepSharpPrecision }
{}

/// A law: the cycles that a run has by what is stated of it are such a history, where no node joins. Its cycle 0 lies
/// within what is stated of starts and lengths, in ticks; so, with pi and lambda for these numbers, it is in sharp sync in
/// the first double cycle, also where frames may be lost.
pub fn stated_runs_are_steady()
    ensures steady { StatedRunsAreSteady }
    ensures starts { StatedStartsAreSharp }
    ensures synced { StatedRunsBeginInSharpSync }
    ensures timed { TimedRunsBeginInSharpSync }
{
    one_lawful_run();
}

/// A law: from stated numbers for starts and even lengths, in ticks, each length in its range, such a history keeps to the
/// spreads by double cycle, under the checks with a reach for the whole way, and is in sharp sync when these have come to
/// rest, as long as the walk lasts; its nodes are active in the first double cycle. So it is from sync in the older sense,
/// under the older checks, where delays flutter by no more than twice the error of an arrival, with no macroticks further
/// apart than the older precision on the way.
pub fn histories_come_into_sharp_sync()
    ensures active { HistoriesBeginActive }
    ensures spreads { HistoriesKeepToSpreads }
    ensures reached { HistoriesReachSharpSync }
    ensures older { OlderHistoriesSettle }
{}

/// A law: where no check for the way fails that is computed from stated numbers for starts and even lengths, in ticks, such
/// a history is in sharp sync in the double cycle that it names, and no macroticks before lie further apart than its peak;
/// so is a run of whose cycle 0 such numbers are stated.
pub fn histories_settle_sharply()
    ensures settle { HistoriesSettleSharply }
    ensures stated { StatedRunsSettleSharply }
{}
