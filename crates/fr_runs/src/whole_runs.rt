ghost use Rattle.fr_runs.specs.Whole.{ListenersJoin, UnfollowedRunsKeepTogether};
ghost use Rattle.fr_runs.specs.Stated.{StatedRunsStayTogether};

use fr_history::{one_first_unfollowed_sync, one_lawful_run};

/// A law: in a whole run that is covered, from a double cycle in sync in which no node follows to the end the clocks
/// of the nodes with rows are in sync in each double cycle and lie no further apart than the precision, in ticks,
/// whoever joins; each of these nodes is active, behind the last cycle too; and no row tells a cut.
pub fn unfollowed_runs_keep_together()
    ensures { UnfollowedRunsKeepTogether }
{}

/// A law: and a node that listens in double cycle `e`, from that one on, follows in cycles `2 e + 2` to `2 e + 5`, as
/// far as the run has them, and has a row in every cycle of the run from `2 e + 6` on.
pub fn listeners_join()
    ensures { ListenersJoin }
{}

/// A law: so it is of the cycles that a run has by what is stated of it, from the first such double cycle on.
pub fn stated_runs_stay_together()
    ensures { StatedRunsStayTogether }
{
    one_lawful_run();
    one_first_unfollowed_sync();
}
