ghost use Rattle.fr_runs.specs.Numbers.{JoinedRunsKeepOffsets, JoinedRunsKeepRates, StatedRunsAreSynced};

use fr_history::one_lawful_run;

/// A law: the cycles that a run has by what is stated of it are such a run as the next two laws speak of, in each
/// double cycle in sync.
pub fn stated_runs_are_synced()
    ensures { StatedRunsAreSynced }
{
    one_lawful_run();
}

/// The law of rates of a covered run: of the nodes that have a row in a double cycle in sync, whoever follows in it,
/// no rate term is cut or missing, and the lengths of their next double cycle's cycles, in ticks, are proper and lie near
/// each other.
pub fn joined_runs_keep_rates()
    ensures { JoinedRunsKeepRates }
{}

/// The law of offsets: nor is an offset term of these nodes, their starts of the next double cycle, in ticks, lie
/// near each other, and every sync frame of theirs that no event takes or flips is stored at every other of them
/// that has the channel.
pub fn joined_runs_keep_offsets()
    ensures { JoinedRunsKeepOffsets }
{}
