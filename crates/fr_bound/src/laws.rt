ghost use Rattle.std.specs.Prelude.{◌≡◌, ◌↔◌, ℕ, ℤ, List, Option, true};
ghost use Rattle.fr_base.specs.declared.node_row.NodeRow.{NodeRow};
ghost use Rattle.fr_cluster.specs.Values.{Values};
ghost use Rattle.fr_cluster.specs.Sane.{IsSane};
ghost use Rattle.fr_bound.specs.Checks.{IsUncut, FirstFailing, FirstFailingToJoin, AllChecksHold, AllJoinChecksHold};
ghost use Rattle.fr_bound.specs.Settling.{IsPeakTo, IsSettleVerdict, SettlesAt};
ghost use Rattle.fr_bound.specs.Sync.{IsInSync, is_in_sync};

/// A law: of the parameters of a cluster, no difference in the bounds and checks is below 0, so none is cut
/// off there.
pub fn nothing_is_cut()
    ensures { (p : Values) → IsSane p → IsUncut p }
{}

/// A law: there is one first check that fails, and none where all hold.
pub fn one_first_failing()
    ensures one { (p : Values) (number other : ℕ) → FirstFailing number p → FirstFailing other p → number ≡ other }
    ensures none { (p : Values) (number : ℕ) → FirstFailing number p → AllChecksHold p → ⊥ }
{}

/// A law: so it is of the checks of a cluster that nodes join.
pub fn one_first_failing_to_join()
    ensures one { (p : Values) (number other : ℕ) →
        FirstFailingToJoin number p → FirstFailingToJoin other p → number ≡ other }
    ensures none { (p : Values) (number : ℕ) →
        FirstFailingToJoin number p → AllJoinChecksHold p → ⊥ }
{}

/// A law: the test of two lists of rows tells whether they are in sync.
pub fn in_sync_is_tested()
    ensures { (p : Values) (even odd : List NodeRow) →
        (is_in_sync p even odd ≡ true) ↔ IsInSync p even odd }
{}

/// A law: what is said of the way to sync is one answer.
pub fn one_settling()
    ensures doubles { (p : Values) (start rate double other : ℕ) →
        SettlesAt p start rate double → SettlesAt p start rate other → double ≡ other }
    ensures peak { (p : Values) (start rate double peak other : ℕ) →
        IsPeakTo p start rate double peak → IsPeakTo p start rate double other → peak ≡ other }
    ensures failed { (p : Values) (peak : ℕ) (one other : Option (ℕ × ℤ × ℤ)) →
        IsSettleVerdict p peak one → IsSettleVerdict p peak other → one ≡ other }
{}
