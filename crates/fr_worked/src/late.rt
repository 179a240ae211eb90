ghost use Rattle.std.specs.Prelude.{◌≡◌, ◌<ℤ◌, pos};
ghost use Rattle.fr_bound.specs.Bounds.{precision_of};
ghost use Rattle.fr_history.specs.Skew.{skew_at};
ghost use Rattle.fr_history.specs.Cycles.{told_of};
ghost use Rattle.fr_history.specs.Next.{cycles_of};
ghost use Rattle.fr_history.specs.Unfollowed.{IsFirstUnfollowedSync};
ghost use Rattle.fr_history.specs.Worked.{roomy_cluster};
ghost use Rattle.fr_runs.specs.Stated.{IsCoveredRun};
ghost use Rattle.fr_worked.specs.Late.{late_4, late_run};
ghost use Rattle.fr_promise.specs.Statement.{KeepsPrecision};

use fr_history::{one_first_unfollowed_sync, one_lawful_run};

/// A law: the promise says no more than is true. Where node 2 begins late, the run is covered all the same, and keeps its
/// precision from its first double cycle in sync on, which is double cycle 1; but not from the double cycle before that
/// one, since there node 2 lies further from the others than the precision, in ticks.
pub fn the_promise_begins_in_sync()
    ensures comes { cycles_of late_run 4 ≡ late_4 }
    ensures stated { IsCoveredRun late_run }
    ensures first { IsFirstUnfollowedSync roomy_cluster late_4 1 }
    ensures keeps { KeepsPrecision late_run late_4 1 }
    ensures above { pos (precision_of roomy_cluster) <ℤ skew_at roomy_cluster (told_of late_4) 0 0 }
    ensures before { KeepsPrecision late_run late_4 0 → ⊥ }
{
    one_lawful_run();
    one_first_unfollowed_sync();
}
