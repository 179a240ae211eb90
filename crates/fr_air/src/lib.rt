//! Frames on the air: who sends in a slot on a channel and when, what stands in the message cells, and what each
//! node is offered, answers and catches; and who has a row, who follows and who listens, by the cycle before.
#![tactic(auto)]

pub mod catching;
pub mod cells;
pub mod fault;
pub mod files;
pub mod flipping;
pub mod hearing;
pub mod instants;
pub mod kept;
pub mod lines;
pub mod memory;
pub mod offering;
pub mod reach;
pub mod senders;
mod standing;
pub mod tally;
pub mod turn;
mod worked;

pub use standing::{followers_are_seen, listeners_begin, nodes_have_what_they_had, nodes_succeed};
pub use worked::a_joining_node_stands;
