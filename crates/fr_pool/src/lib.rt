//! The message memory of a controller: a pool of cells of 264 bytes, each of which is free or out once.
#![tactic(auto)]

mod cell;
mod fault;
mod pool;

pub use cell::Cell;
pub use fault::PoolFault;
pub use pool::{CELL_BYTES, Pool};
