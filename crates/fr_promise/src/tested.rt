ghost use Rattle.std.specs.Prelude.{◌≡◌, ◌↔◌, ℕ, pos, Bool, List, None, Some, true};
ghost use Rattle.fr_base.specs.declared.node_row.NodeRow.{NodeRow};
ghost use Rattle.fr_cluster.specs.Values.{Values};
ghost use Rattle.fr_history.specs.Cycles.{Cycles};
ghost use Rattle.fr_precision.specs.SharpStep.{IsInSharpSync};
ghost use Rattle.fr_promise.specs.SharpTested.{IsFirstSharpSyncBy, IsUnfollowedSharpSyncAt, first_sharp_sync_by, is_in_sharp_sync};

/// A law: the test of two lists of rows tells whether they are in sharp sync, with lengths in their range: by the
/// even cycle alone, in the odd one all nodes are active.
pub fn sharp_sync_is_tested()
    ensures { (beside : Bool) (p : Values) (flutter : ℕ) (even odd : List NodeRow) →
        (is_in_sharp_sync beside p flutter even odd ≡ true) ↔ IsInSharpSync beside p flutter (pos 0) even odd }
{}

/// A law: of some cycles there is one first double cycle in sharp sync at most in which no node follows, each with the
/// numbers for a flutter of its own, which `first_sharp_sync_by` gives; where it gives none there is no such double cycle.
pub fn one_first_sharp_sync()
    ensures found { (beside : Bool) (p : Values) (flutter : ℕ → ℕ) (h : Cycles) (double : ℕ) →
        first_sharp_sync_by beside p flutter h ≡ Some double → IsFirstSharpSyncBy beside p flutter h double }
    ensures none { (beside : Bool) (p : Values) (flutter : ℕ → ℕ) (h : Cycles) →
        first_sharp_sync_by beside p flutter h ≡ None →
        (double : ℕ) → IsUnfollowedSharpSyncAt beside p (flutter double) h double → ⊥ }
    ensures one { (beside : Bool) (p : Values) (flutter : ℕ → ℕ) (h : Cycles) (double other : ℕ) →
        IsFirstSharpSyncBy beside p flutter h double → IsFirstSharpSyncBy beside p flutter h other → double ≡ other }
{}
