ghost use Rattle.std.specs.Prelude.{ℕ, ◌<◌};
ghost use Rattle.fr_history.specs.Cycles.{Cycle, Cycles};
ghost use Rattle.fr_history.specs.Worked.{after_12, joined_run};
ghost use Rattle.fr_runs.specs.Rounds.{IsDoubleOf, IsFedFrom, IsRun, IsUnfollowedSync, KeepsUp};
ghost use Rattle.fr_runs.specs.Whole.{IsUnfollowedRun, KeepsTogether};
ghost use Rattle.fr_runs.specs.Stated.{IsCoveredRun, StaysTogether};

use fr_history::{a_joined_run, one_first_unfollowed_sync, one_lawful_run};
use fr_runs::gatherings_are_fed;

/// A law: the run in which node 3 listens to node 1 in double cycle 1 is one of which the law of whole runs speaks:
/// its clocks run by their laws and are covered, each receiver has the deviations of its senders, and its first
/// double cycle is in sync with no follower. So each of its six double cycles is in sync, with node 3 near where it
/// follows.
pub fn a_joined_run_keeps_up()
    ensures run { IsRun joined_run after_12 }
    ensures fed { IsFedFrom joined_run after_12 0 }
    ensures unfollowed { (earlier : Cycles) (even odd : Cycle) →
        IsDoubleOf after_12 0 earlier even odd → IsUnfollowedSync joined_run earlier even odd }
    ensures keeps { (k : ℕ) (earlier : Cycles) (even odd : Cycle) →
        k < 6 → IsDoubleOf after_12 k earlier even odd → KeepsUp joined_run earlier even odd k }
{
    one_lawful_run();
    a_joined_run();
    gatherings_are_fed();
}

/// A law: and of which the laws of lawful runs speak, so it keeps together from its first double cycle on.
pub fn a_joined_run_keeps_together()
    ensures unfollowed { IsUnfollowedRun joined_run after_12 0 }
    ensures together { KeepsTogether joined_run after_12 0 }
{
    one_lawful_run();
    a_joined_run();
}

/// A law: so it does by what is stated of it alone, and node 3 joins.
pub fn a_joined_run_stays_together()
    ensures stated { IsCoveredRun joined_run }
    ensures stays { StaysTogether joined_run 0 }
{
    one_lawful_run();
    one_first_unfollowed_sync();
    a_joined_run();
}
