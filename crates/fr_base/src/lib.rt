//! What every crate of the cluster speaks of: channels, identifiers and states; the rows, deviations and
//! counts of a cycle; exact numbers and the reasons for which records are refused; and what is promised of
//! the two devices, a shelf that files are loaded from and a sink that text is put into.
#![tactic(auto)]

mod channel;
mod cycle_row;
mod dev;
mod dev_list;
mod ids;
mod node_row;
mod numbers;
mod reason;
mod row_list;
mod shelf;
mod sink;
mod state;
mod ticks;

pub use channel::Channel;
pub use cycle_row::{Counts, CycleRow};
pub use dev::Dev;
pub use dev_list::DevList;
pub use ids::{NodeId, Slot};
pub use node_row::NodeRow;
pub use numbers::{NumberFault, number};
pub use reason::Reason;
pub use row_list::{ROW_ROOM, RowList};
pub use shelf::{LoadFault, MAX_FILE, Shelf};
pub use sink::{PutFault, Sink};
pub use state::{Outcome, State};
pub use ticks::ticks_of;

/// The length of a microtick, in ticks, at the nominal rate of an oscillator.
pub const NOMINAL_MICROTICK: i64 = 1_000_000;
