ghost use Rattle.std.specs.Prelude.{◌≡◌, ◌*◌, ◌*ℤ◌, ◌+ℤ◌, ◌≤ℤ◌, ◌&&◌, int_le, pos, neg_ℤ, All};
ghost use Rattle.std.specs.List.{list_all};
ghost use Rattle.fr_bound.specs.Bounds.{longest_micro, shortest_micro};
ghost use Rattle.fr_bound.specs.Sync.{is_in_sync};
ghost use Rattle.fr_base.specs.States.{is_active};
ghost use Rattle.fr_base.specs.Timed.{IsTimed};
ghost use Rattle.fr_base.specs.Within.{IsBetween, IsWithin};
ghost use Rattle.fr_cluster.specs.Values.{amount};
ghost use Rattle.fr_cluster.specs.declared.names.ParamName.TheVariants as name;
ghost use Rattle.fr_skew.specs.Extents.{IsInstant};
ghost use Rattle.fr_skew.specs.Sync.{are_in_sync, are_in_sync_by_even, are_synced, cycle_length_by, is_synced_row, sync_bounds_of, IsSyncBounds};

use crate::spread::{lengths_spread, starts_spread};
use fr_base::{NodeRow, RowList, ticks_of};
use fr_bound::bounds;
use fr_cluster::{ParamName, Params};

/// What decides whether the clocks of a cluster are in sync, in ticks.
#[derive(Clone, Copy, Debug, PartialEq, Eq)]
pub struct SyncBounds {
    /// How far two nodes' starts of an even cycle may lie apart.
    pub pi: i64,
    /// How far the lengths of two nodes' cycles may lie apart.
    pub lambda: i64,
    /// The length of the shortest cycle.
    pub shortest: i64,
    /// The length of the longest cycle.
    pub longest: i64,
    /// Microticks per cycle before correction.
    pub micros: i64,
}

/// The bounds of a cluster.
pub fn sync_bounds(params: &Params) -> SyncBounds
    ensures value { result ≡ sync_bounds_of params.now }
    ensures proper { IsSyncBounds result }
{
    let bounds = bounds(params);
    SyncBounds {
        pi: bounds.pi,
        lambda: bounds.lambda,
        shortest: shortest_cycle(params),
        longest: longest_cycle(params),
        micros: micros(params),
    }
}

fn micros(params: &Params) -> i64
    ensures value { result ≡ params.now.micros }
    ensures within { IsBetween (pos 0) (pos 640_000) result }
{
    params.value(ParamName::pMicroPerCycle)
}

fn shortest_cycle(params: &Params) -> i64
    ensures { result ≡ pos (amount params.now name.pMicroPerCycle * shortest_micro params.now) }
{
    let shortest = 1_000_000 - params.natural(ParamName::xRateBound);
    (params.natural(ParamName::pMicroPerCycle) * shortest) as i64
}

fn longest_cycle(params: &Params) -> i64
    ensures { result ≡ pos (amount params.now name.pMicroPerCycle * longest_micro params.now) }
{
    let longest = 1_000_000 + params.natural(ParamName::xRateBound);
    (params.natural(ParamName::pMicroPerCycle) * longest) as i64
}

impl SyncBounds {
    // The length of a node's cycle before its offset correction, in ticks.
    pub(crate) fn cycle_length(&self, row: &NodeRow) -> i64
        requires bounds { IsSyncBounds self.now }
        requires row { IsTimed row.now }
        ensures value { result ≡ cycle_length_by self.now row.now }
        ensures proper { IsInstant result }
    {
        ticks_of(with_rate(self.micros, row.rate), row.length)
    }

    fn is_proper(&self, length: i64) -> bool
        ensures { result ≡ (int_le self.now.shortest length && int_le length self.now.longest) }
    {
        self.shortest <= length && length <= self.longest
    }
}

/// Whether the clocks of a cluster are in sync in a double cycle, by the rows of its even and of its odd
/// cycle: all nodes are active, any two starts of the even cycle lie at most pi apart, and in each cycle any
/// two lengths lie at most lambda apart and each is proper. It holds of no rows. It takes no memory.
pub fn in_sync(params: &Params, even: &RowList, odd: &RowList) -> bool
    requires even { All IsTimed even.now }
    requires odd { All IsTimed odd.now }
    ensures { result ≡ is_in_sync params.now even.now odd.now }
{
    in_sync_within(&sync_bounds(params), even.as_slice(), odd.as_slice())
}

/// The same by the bounds of the cluster, for who asks often.
#[tactic(auto, unfolding(crate::specs::Sync::are_in_sync))]
pub fn in_sync_within(bounds: &SyncBounds, even: &[NodeRow], odd: &[NodeRow]) -> bool
    requires bounds { IsSyncBounds bounds.now }
    requires even { All IsTimed even.now }
    requires odd { All IsTimed odd.now }
    ensures { result ≡ are_in_sync bounds.now even.now odd.now }
{
    are_synced(bounds, even) && are_synced(bounds, odd) && starts_spread(even) <= bounds.pi
}

/// Whether they are in sync by the even cycle alone: all nodes are active in both cycles, and in the even one any two
/// starts lie at most pi apart, any two lengths at most lambda, and each length is proper, however long the odd cycle is.
#[tactic(auto, unfolding(crate::specs::Sync::are_in_sync_by_even))]
pub fn in_sync_by_even(bounds: &SyncBounds, even: &[NodeRow], odd: &[NodeRow]) -> bool
    requires bounds { IsSyncBounds bounds.now }
    requires even { All IsTimed even.now }
    ensures { result ≡ are_in_sync_by_even bounds.now even.now odd.now }
{
    are_synced(bounds, even) && are_active(odd) && starts_spread(even) <= bounds.pi
}

fn are_active(rows: &[NodeRow]) -> bool
    ensures { result ≡ list_all (λ row. is_active row.state) rows.now }
{
    rows.iter().all(|row| row.state.is_active())
}

// Whether the nodes of a cycle are active, and their cycles proper and of about one length.
fn are_synced(bounds: &SyncBounds, rows: &[NodeRow]) -> bool
    requires bounds { IsSyncBounds bounds.now }
    requires rows { All IsTimed rows.now }
    ensures { result ≡ are_synced bounds.now rows.now }
{
    are_active_and_proper(bounds, rows) && lengths_spread(bounds, rows) <= bounds.lambda
}

fn are_active_and_proper(bounds: &SyncBounds, rows: &[NodeRow]) -> bool
    requires bounds { IsSyncBounds bounds.now }
    requires rows { All IsTimed rows.now }
    ensures { result ≡ list_all (is_synced_row bounds.now) rows.now }
{
    rows.iter().all(|row| is_synced_row(bounds, row))
}

fn is_synced_row(bounds: &SyncBounds, row: &NodeRow) -> bool
    requires bounds { IsSyncBounds bounds.now }
    requires row { IsTimed row.now }
    ensures { result ≡ is_synced_row bounds.now row.now }
{
    row.state.is_active() && bounds.is_proper(bounds.cycle_length(row))
}

fn with_rate(micros: i64, rate: i32) -> i64
    requires { IsBetween (pos 0) (pos 640_000) micros }
    ensures value { result ≡ micros +ℤ rate }
    ensures within { IsWithin (pos 2_200_000_000) result }
{
    micros + rate as i64
}
