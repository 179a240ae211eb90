ghost use Rattle.std.specs.Prelude.{◌≡◌, ◌-ℤ◌, ◌<ℤ◌, None, pos};
ghost use Rattle.fr_runs.specs.Following.{first_apart};
ghost use Rattle.fr_history.specs.Next.{cycles_of};
ghost use Rattle.fr_history.specs.Unfollowed.{first_unfollowed_sync_of};
ghost use Rattle.fr_history.specs.History.{row_for};
ghost use Rattle.fr_runs.specs.Numbers.{IsSyncedRun};
ghost use Rattle.fr_runs.specs.Stated.{IsCoveredRun};
ghost use Rattle.fr_worked.specs.FarCycles.{far_6, far_cycle_2};
ghost use Rattle.fr_worked.specs.Uneven.{far_run, small_cluster};

use fr_runs::stated_runs_are_synced;

/// A law: where node 1 begins late, and node 5 listens to it meanwhile, node 5 begins to follow further from node 2, in
/// ticks, than a node does that listened in a double cycle in sync. The laws of whole runs say nothing of this run, of
/// which no double cycle is in sync without followers; those of rates and of offsets speak of double cycle 1 all the
/// same, since the nodes with rows are in sync in it.
pub fn a_far_follower()
    ensures comes { cycles_of far_run 6 ≡ far_6 }
    ensures stated { IsCoveredRun far_run }
    ensures never { first_unfollowed_sync_of small_cluster far_6 ≡ None }
    ensures synced { IsSyncedRun far_run far_6 1 }
    ensures far { pos (first_apart small_cluster)
        <ℤ ((row_for far_cycle_2.followers 5).start -ℤ (row_for far_cycle_2.told.rows 2).start) }
{
    stated_runs_are_synced();
}
