ghost use Rattle.std.specs.Prelude.{◌≡◌, ◌≤◌, ◌<◌, ◌*◌, nat_abs, true, All, None, Some};
ghost use Rattle.fr_time.specs.Placed.{IsPlacedRow};
ghost use Rattle.fr_skew.specs.Sweep.{greatest_within};
ghost use Rattle.fr_series.specs.Scale.{IsScale, first_above, peak_by, scale_of};

use crate::spread::searched;
use fr_base::NodeRow;
use fr_bound::bounds;
use fr_cluster::Params;
use fr_skew::{Peak, SyncBounds, swept, sync_bounds};
use fr_time::{Grid, grid_of};

/// What the figures of a series rest on.
#[derive(Clone, Copy, Debug, PartialEq, Eq)]
pub struct Scale {
    /// How a cycle is divided.
    pub grid: Grid,
    /// What decides whether the clocks are in sync.
    pub bounds: SyncBounds,
    /// The precision, in ticks.
    pub precision: i64,
}

impl Scale {
    /// The numbers of a cluster.
    pub fn of(params: &Params) -> Scale
        ensures value { result ≡ scale_of params.now }
        ensures proper { IsScale result }
    {
        Scale {
            grid: grid_of(params),
            bounds: sync_bounds(params),
            precision: bounds(params).precision,
        }
    }

    // The greatest skew of a cycle, and its first macrotick.
    pub(crate) fn peak(&self, cycle: u32, rows: &[NodeRow]) -> Option<Peak>
        requires scale { IsScale self.now }
        requires rows { All (IsPlacedRow self.now.grid) rows.now }
        ensures { result ≡ peak_by self.now.grid cycle rows.now }
    {
        swept(&self.grid, cycle, rows, None)
    }

    // The first macrotick of a cycle at which the skew is above the precision.
    pub(crate) fn first_above(&self, cycle: u32, rows: &[NodeRow]) -> Option<Peak>
        requires scale { IsScale self.now }
        requires rows { All (IsPlacedRow self.now.grid) rows.now }
        ensures { result ≡ first_above self.now.grid cycle rows.now self.now.precision (nat_abs self.now.grid.macros) }
    {
        if self.stays_within(cycle, rows) {
            None
        } else {
            searched(self, cycle, rows)
        }
    }

    fn stays_within(&self, cycle: u32, rows: &[NodeRow]) -> bool
        requires scale { IsScale self.now }
        requires rows { All (IsPlacedRow self.now.grid) rows.now }
        ensures { result ≡ true →
            first_above self.now.grid cycle rows.now self.now.precision (nat_abs self.now.grid.macros) ≡ None }
    {
        let limit = Peak {
            skew: self.precision,
            cycle,
            macrotick: 0,
        };
        match swept(&self.grid, cycle, rows, Some(limit)) {
            Some(peak) => peak.skew <= self.precision,
            None => false,
        }
    }
}
