ghost use Rattle.std.specs.Prelude.{◌≡◌, ◌<◌, ◌-ℤ◌, ℤ, List, Contains, length};
ghost use Rattle.fr_base.specs.Within.{LieWithin};
ghost use Rattle.fr_base.specs.declared.node_row.NodeRow.{NodeRow};
ghost use Rattle.fr_bound.specs.Sync.{is_in_sync};
ghost use Rattle.fr_cluster.specs.Values.{Values};
ghost use Rattle.fr_skew.specs.Laws.{MacroticksLieNear};
ghost use Rattle.fr_skew.specs.Spreads.{spread_of, HasDifference};
ghost use Rattle.fr_skew.specs.Sync.{are_in_sync, sync_bounds_of};

/// A law: any two of some numbers lie at most their spread apart, and where there is a number two of them
/// do lie as far apart.
pub fn a_spread_is_the_greatest_difference()
    ensures within { (xs : List ℤ) → LieWithin (spread_of xs) xs }
    ensures reached { (xs : List ℤ) → 0 < length xs → HasDifference (spread_of xs) xs }
{}

/// A law: the clocks of a cluster are in sync exactly where their spreads are within the bounds.
pub fn in_sync_by_spreads()
    ensures { (p : Values) (even odd : List NodeRow) →
        are_in_sync (sync_bounds_of p) even odd ≡ is_in_sync p even odd }
{}

/// A law: no macrotick of a cycle lies further apart among the running nodes than the widest of its start, its end
/// by the rule of even cycles, the start of its offset correction and its end, and the longest microtick.
pub fn macroticks_lie_near()
    ensures { MacroticksLieNear }
{}
