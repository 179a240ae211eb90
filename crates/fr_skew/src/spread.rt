ghost use Rattle.std.specs.Prelude.{◌≡◌, ◌≤ℤ◌, pos, map, All, None, IfSome};
ghost use Rattle.std.specs.List.{fold};
ghost use Rattle.fr_base.specs.Timed.{IsTimed};
ghost use Rattle.fr_base.specs.Within.{IsBetween};
ghost use Rattle.fr_time.specs.Cycles.{is_odd};
ghost use Rattle.fr_time.specs.Instant.{instant_of};
ghost use Rattle.fr_time.specs.Placed.{IsPlacedRow};
ghost use Rattle.fr_skew.specs.Extents.{with_instant, with_length, with_start, IsExtent, IsInstant};
ghost use Rattle.fr_skew.specs.Spreads.{most_apart_ever, spread_at, spread_of};
ghost use Rattle.fr_skew.specs.Sync.{cycle_length_by, IsSyncBounds};

use crate::extent::{Extent, spread_by, widened};
use crate::sync::SyncBounds;
use fr_base::NodeRow;
use fr_time::{Grid, instant, is_odd};

/// How far the instants of a macrotick of a cycle lie apart among the running nodes, in ticks; the macrotick may be
/// the end of the cycle.
pub fn spread_at(grid: &Grid, cycle: u32, macrotick: u32, rows: &[NodeRow]) -> i64
    requires rows { All (IsPlacedRow grid.now) rows.now }
    requires macrotick { pos macrotick ≤ℤ grid.now.macros }
    ensures value { result ≡ spread_at grid.now cycle rows.now macrotick }
    ensures within { IsBetween (pos 0) (pos most_apart_ever) result }
{
    spread_by(instants_extent(grid, cycle, macrotick, rows))
}

fn instants_extent(grid: &Grid, cycle: u32, macrotick: u32, rows: &[NodeRow]) -> Option<Extent>
    requires rows { All (IsPlacedRow grid.now) rows.now }
    requires macrotick { pos macrotick ≤ℤ grid.now.macros }
    ensures value { result ≡ fold (with_instant grid.now cycle macrotick) None rows.now }
    ensures proper { IfSome result IsExtent }
{
    let mut extent = None;
    for row in rows {
        extent = with_instant(grid, cycle, macrotick, extent, row);
    }
    extent
}

fn with_instant(
    grid: &Grid,
    cycle: u32,
    macrotick: u32,
    extent: Option<Extent>,
    row: &NodeRow,
) -> Option<Extent>
    requires row { IsPlacedRow grid.now row.now }
    requires macrotick { pos macrotick ≤ℤ grid.now.macros }
    requires proper { IfSome extent IsExtent }
    ensures value { result ≡ with_instant grid.now cycle macrotick extent row.now }
    ensures proper { IfSome result IsExtent }
{
    if row.state.is_halted() {
        extent
    } else {
        Some(widened(extent, instant_at(grid, row, cycle, macrotick)))
    }
}

// The instant of a macrotick in a node's cycle, in ticks.
fn instant_at(grid: &Grid, row: &NodeRow, cycle: u32, macrotick: u32) -> i64
    requires row { IsPlacedRow grid.now row.now }
    requires macrotick { pos macrotick ≤ℤ grid.now.macros }
    ensures value { result ≡ instant_of grid.now row.now (is_odd cycle) (pos macrotick) }
    ensures proper { IsInstant result }
{
    instant(grid, row, is_odd(cycle), i64::from(macrotick))
}

// How far the starts of some rows lie apart, in ticks.
pub(crate) fn starts_spread(rows: &[NodeRow]) -> i64
    requires { All IsTimed rows.now }
    ensures { result ≡ spread_of (map (λ row. row.start) rows.now) }
{
    spread_by(starts_extent(rows))
}

fn starts_extent(rows: &[NodeRow]) -> Option<Extent>
    requires { All IsTimed rows.now }
    ensures value { result ≡ fold with_start None rows.now }
    ensures proper { IfSome result IsExtent }
{
    let mut extent = None;
    for row in rows {
        extent = with_start(extent, row);
    }
    extent
}

fn with_start(extent: Option<Extent>, row: &NodeRow) -> Option<Extent>
    requires row { IsTimed row.now }
    requires proper { IfSome extent IsExtent }
    ensures value { result ≡ with_start extent row.now }
    ensures proper { IfSome result IsExtent }
{
    Some(widened(extent, row.start))
}

// How far the lengths of the cycles of some rows lie apart, in ticks.
pub(crate) fn lengths_spread(bounds: &SyncBounds, rows: &[NodeRow]) -> i64
    requires bounds { IsSyncBounds bounds.now }
    requires rows { All IsTimed rows.now }
    ensures { result ≡ spread_of (map (cycle_length_by bounds.now) rows.now) }
{
    spread_by(lengths_extent(bounds, rows))
}

fn lengths_extent(bounds: &SyncBounds, rows: &[NodeRow]) -> Option<Extent>
    requires bounds { IsSyncBounds bounds.now }
    requires rows { All IsTimed rows.now }
    ensures value { result ≡ fold (with_length bounds.now) None rows.now }
    ensures proper { IfSome result IsExtent }
{
    let mut extent = None;
    for row in rows {
        extent = with_length(bounds, extent, row);
    }
    extent
}

fn with_length(bounds: &SyncBounds, extent: Option<Extent>, row: &NodeRow) -> Option<Extent>
    requires bounds { IsSyncBounds bounds.now }
    requires row { IsTimed row.now }
    requires proper { IfSome extent IsExtent }
    ensures value { result ≡ with_length bounds.now extent row.now }
    ensures proper { IfSome result IsExtent }
{
    Some(widened(extent, bounds.cycle_length(row)))
}
