ghost use Rattle.std.specs.Prelude.{◌≡◌, ◌<◌, All, IsSome, if◌then◌else◌};
ghost use Rattle.fr_base.specs.Timed.{IsTimed};
ghost use Rattle.fr_time.specs.Cycles.{is_odd};
ghost use Rattle.fr_time.specs.Placed.{IsPlacedRow};
ghost use Rattle.fr_skew.specs.Gauge.{fresh_gauge, gauged, are_free_in_sync, next_sync};
ghost use Rattle.fr_skew.specs.Sync.{IsSyncBounds};

use crate::peak::{Peak, swept};
use crate::sync::{SyncBounds, in_sync_within, sync_bounds};
use fr_base::RowList;
use fr_cluster::Params;
use fr_time::{Grid, grid_of, is_odd};
use std::marker::Model;

/// What is told of the clocks of a cluster, gathered cycle by cycle: it keeps the numbers that it rests on, the
/// rows of one cycle and whether a node followed in it, and no history. No call takes memory.
#[derive(Debug, Drop)]
pub struct Gauge {
    grid: Grid,
    bounds: SyncBounds,
    added: u32,
    greatest: Option<Peak>,
    synced: Option<u32>,
    even: RowList,
    followed: bool,
}

impl Model for Gauge {
    ghost use Rattle.fr_skew.specs.Gauge.{GaugeView, IsGauge};

    ghost Value = { GaugeView };

    ghost view = { λ g. record { grid = g.grid; bounds = g.bounds; added = g.added; greatest = g.greatest; synced = g.synced; even = g.even; followed = g.followed } };

    ghost invariant = { λ g. IsGauge (record { grid = g.grid; bounds = g.bounds; added = g.added; greatest = g.greatest; synced = g.synced; even = g.even; followed = g.followed }) };
}

impl Gauge {
    /// The gauge of a cluster, of no cycle.
    pub fn new(params: &Params) -> Gauge
        ensures { result ≡ fresh_gauge params.now }
    {
        Gauge {
            grid: grid_of(params),
            bounds: sync_bounds(params),
            added: 0,
            greatest: None,
            synced: None,
            even: RowList::new(),
            followed: false,
        }
    }

    /// Adds the rows of the next cycle, and whether a node follows in it, which has no row.
    pub fn add(&mut self, rows: &RowList, following: bool)
        requires in_run { self.old.added < 200_000 }
        requires rows { All (IsPlacedRow self.old.grid) rows.now }
        ensures { self.new ≡ gauged self.old rows.now following }
    {
        self.greatest = swept(&self.grid, self.added, rows.as_slice(), self.greatest);
        self.synced = self.synced_after(rows, following);
        keep_even(self.added, rows, &mut self.even);
        self.followed = followed_after(self.added, self.followed, following);
        self.added += 1;
    }

    /// The greatest skew so far and its first place; some where a cycle was added.
    pub fn greatest(&self) -> Option<Peak>
        ensures value { result ≡ self.now.greatest }
        ensures there { 0 < self.now.added → IsSome result }
    {
        self.greatest
    }

    /// The first double cycle in sync in which no node follows, if there was one.
    pub fn synced(&self) -> Option<u32>
        ensures { result ≡ self.now.synced }
    {
        self.synced
    }

    // The first double cycle in sync in which no node follows, after one more cycle.
    fn synced_after(&self, rows: &RowList, following: bool) -> Option<u32>
        requires rows { All IsTimed rows.now }
        ensures { result ≡
            next_sync self.now.bounds self.now.added self.now.even self.now.followed rows.now following
            self.now.synced }
    {
        if self.synced.is_none()
            && is_odd(self.added)
            && is_free(&self.bounds, &self.even, self.followed, rows, following)
        {
            Some(self.added / 2)
        } else {
            self.synced
        }
    }
}

// Whether the rows of an even and an odd cycle are in sync, and no node follows in either cycle.
fn is_free(
    bounds: &SyncBounds,
    even: &RowList,
    followed: bool,
    rows: &RowList,
    following: bool,
) -> bool
    requires bounds { IsSyncBounds bounds.now }
    requires even { All IsTimed even.now }
    requires rows { All IsTimed rows.now }
    ensures { result ≡ are_free_in_sync bounds.now even.now followed rows.now following }
{
    in_sync_within(bounds, even.as_slice(), rows.as_slice()) && !followed && !following
}

// Whether a node followed in the last even cycle, after one more cycle.
fn followed_after(cycle: u32, followed: bool, following: bool) -> bool
    ensures { result ≡ (if is_odd cycle then followed else following) }
{
    if is_odd(cycle) { followed } else { following }
}

// Keeps the rows of an even cycle.
fn keep_even(cycle: u32, rows: &RowList, even: &mut RowList)
    ensures { even.new ≡ (if is_odd cycle then even.old else rows.now) }
{
    if !is_odd(cycle) {
        even.assign(rows);
    }
}
