ghost use Rattle.std.specs.Prelude.{ℕ, ◌<◌};
ghost use Rattle.fr_runs.specs.Numbers.{IsSyncedRun};
ghost use Rattle.fr_runs.specs.Stated.{IsCoveredRun, StaysTogether, all_cycles};
ghost use Rattle.fr_history.specs.Worked.{ComesOf};
ghost use Rattle.fr_worked.specs.Uneven.{uneven_run};
ghost use Rattle.fr_worked.specs.UnevenCycles.{uneven_10, uneven_peak};

use fr_history::{one_first_unfollowed_sync, one_lawful_run};
use fr_runs::stated_runs_are_synced;

/// A law: what comes of a run on two channels with uneven clocks, in ticks: of its two nodes that join, one follows in
/// cycles 2 to 5 and has a row from cycle 6 on, and the other two cycles later; the values of the arbitrary node, which
/// says its frame too late to one node and too early to another, are discarded; and no term is cut.
pub fn an_uneven_run()
    ensures { ComesOf uneven_run uneven_10 uneven_peak 0 }
{}

/// A law: a run on two channels, with uneven clocks, delays that are not the nominal ones, an arbitrary node that says
/// to each receiver something else, and two nodes that join, is stated as the laws ask; so it keeps together from its
/// first double cycle on, and both join. So the laws of rates and of offsets speak of each of its double cycles, also
/// of those in which a node follows.
pub fn an_uneven_run_stays_together()
    ensures stated { IsCoveredRun uneven_run }
    ensures stays { StaysTogether uneven_run 0 }
    ensures synced { (double : ℕ) → double < 5 → IsSyncedRun uneven_run (all_cycles uneven_run) double }
{
    one_lawful_run();
    one_first_unfollowed_sync();
    stated_runs_are_synced();
}
