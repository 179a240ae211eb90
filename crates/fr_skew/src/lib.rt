//! How far the clocks of a cluster lie apart, and from when on they are in sync: gathered cycle by cycle from the
//! rows alone, of a run or of a trace.
#![tactic(auto)]

mod alike;
mod bound;
mod courses;
mod extent;
mod gauge;
mod laws;
mod peak;
mod spread;
mod stretches;
mod sync;

pub use gauge::Gauge;
pub use laws::{a_spread_is_the_greatest_difference, in_sync_by_spreads, macroticks_lie_near};
pub use peak::{Peak, macroticks, swept, swept_through};
pub use spread::spread_at;
pub use sync::{SyncBounds, in_sync, in_sync_by_even, in_sync_within, sync_bounds};
