ghost use Rattle.std.specs.Prelude.{◌≡◌, ◌+◌, ◌<◌, ℕ, drop, length, Some, None};
ghost use Rattle.fr_cluster.specs.Values.{Values};
ghost use Rattle.fr_cluster.specs.Setting.{IsSetting, Setting};
ghost use Rattle.fr_history.specs.Gauged.{told_only};
ghost use Rattle.fr_history.specs.Catching.{ArbitraryNodesAreNotCaught};
ghost use Rattle.fr_history.specs.Cycles.{Cycle, Cycles, cycle_at, told_of};
ghost use Rattle.fr_history.specs.Joining.{FollowersHaveNoRow, JoiningNodesStandInTime, RowsStay, RunsThatNoneJoins};
ghost use Rattle.fr_history.specs.Lawful.{IsLawful, Obeys};
ghost use Rattle.fr_history.specs.Next.{cycles_of, next_cycle};
ghost use Rattle.fr_history.specs.Unfollowed.{IsFirstUnfollowedSync, IsUnfollowedSyncAt, first_unfollowed_sync_of, followed_of};

use fr_reception::{a_regular_frame, an_answer, the_answer_is_found};

/// A law: for each number of cycles exactly one list of them is lawful in a run, whoever joins, with the
/// parameters of a cluster and with bytes for what is said: the one that `cycles_of` gives. That there is no
/// other holds of every setting. So behind some cycles exactly one obeys the laws, the one that `next_cycle`
/// gives; and the cycles of a shorter run are a part of those of a longer one.
pub fn one_lawful_run()
    ensures lawful { (x : Setting) (n : ℕ) → IsSetting x → IsLawful x (cycles_of x n) }
    ensures long { (x : Setting) (n : ℕ) → length (cycles_of x n) ≡ n }
    ensures only { (x : Setting) (h : Cycles) → IsLawful x h → h ≡ cycles_of x (length h) }
    ensures next { (x : Setting) (h : Cycles) → IsSetting x → Obeys x h (next_cycle x h) }
    ensures no_other { (x : Setting) (h : Cycles) (c : Cycle) → Obeys x h c → c ≡ next_cycle x h }
    ensures part { (x : Setting) (more n : ℕ) → drop more (cycles_of x (more + n)) ≡ cycles_of x n }
    ensures cycles { (x : Setting) (cycle n : ℕ) → cycle < n →
        cycle_at (cycles_of x n) cycle ≡ Some (next_cycle x (cycles_of x cycle)) }
{
    an_answer();
    a_regular_frame();
    the_answer_is_found();
}

/// A law: in each cycle of a lawful run that no node joins every correct node has a row, and no node follows.
pub fn runs_that_none_joins()
    ensures { RunsThatNoneJoins }
{}

/// A law: of such cycles there is one first double cycle in sync at most in which no node follows, which
/// `first_unfollowed_sync_of` gives; where it gives none there is no such double cycle.
pub fn one_first_unfollowed_sync()
    ensures found { (p : Values) (h : Cycles) (double : ℕ) →
        first_unfollowed_sync_of p h ≡ Some double → IsFirstUnfollowedSync p h double }
    ensures none { (p : Values) (h : Cycles) → first_unfollowed_sync_of p h ≡ None →
        (double : ℕ) → IsUnfollowedSyncAt p h double → ⊥ }
    ensures one { (p : Values) (h : Cycles) (double other : ℕ) →
        IsFirstUnfollowedSync p h double → IsFirstUnfollowedSync p h other → double ≡ other }
{}

/// A law: what a gauge gathers of cycles, by which `first_unfollowed_sync_of` is said, tells of them what they
/// tell.
pub fn gathered_cycles_are_told()
    ensures { (h : Cycles) → told_only (followed_of h) ≡ told_of h }
{}

/// A law: in lawful cycles a node that listens in double cycle `e` follows in cycles `2 e + 2` to `2 e + 5` at
/// most and has a row from cycle `2 e + 6` on at the earliest, so no node has a row where it follows; and a
/// node that has a row keeps it.
pub fn joining_nodes_stand_in_time()
    ensures when { JoiningNodesStandInTime }
    ensures apart { FollowersHaveNoRow }
    ensures stay { RowsStay }
{}

/// A law: a listening node catches nothing in a slot of an arbitrary node, whatever that says.
pub fn arbitrary_nodes_are_not_caught()
    ensures { ArbitraryNodesAreNotCaught }
{}
