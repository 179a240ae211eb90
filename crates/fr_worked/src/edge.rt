ghost use Rattle.std.specs.Prelude.{◌≡◌, ◌*◌, ◌≤◌, pos};
ghost use Rattle.fr_bound.specs.Bounds.{precision_of};
ghost use Rattle.fr_history.specs.Cycles.{told_of};
ghost use Rattle.fr_history.specs.Skew.{skew_at};
ghost use Rattle.fr_history.specs.Unfollowed.{IsFirstUnfollowedSync};
ghost use Rattle.fr_promise.specs.Statement.{KeepsPrecision};
ghost use Rattle.fr_runs.specs.Stated.{IsCoveredRun, all_cycles};
ghost use Rattle.fr_worked.specs.Edge.{edge_run};

use fr_history::{one_first_unfollowed_sync, one_lawful_run};

/// A law: the precision is tight where sync begins. A covered run of two nodes is in sync in its first double cycle, so it
/// keeps its precision from there on, and reaches 98 hundredths of it, in ticks, shortly before its offset correction.
pub fn the_precision_is_reached()
    ensures stated { IsCoveredRun edge_run }
    ensures first { IsFirstUnfollowedSync edge_run.params (all_cycles edge_run) 0 }
    ensures keeps { KeepsPrecision edge_run (all_cycles edge_run) 0 }
    ensures reached { skew_at edge_run.params (told_of (all_cycles edge_run)) 1 4_667 ≡ pos 249_032_800 }
    ensures nearly { 98 * precision_of edge_run.params ≤ 100 * 249_032_800 }
{
    one_lawful_run();
    one_first_unfollowed_sync();
}
