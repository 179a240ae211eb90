//! The parameters of a cluster as a value: its numbers by name, its nodes and slots, and what holds of them; a
//! node that joins, and, for specs alone, the setting of a run: its parameters and the nodes that join.
#![tactic(auto)]

mod join;
mod lists;
mod names;
mod nodes;
mod params;

pub use join::Join;
pub use lists::{NodeList, SlotList};
pub use names::ParamName;
pub use nodes::{NodeSpec, SlotSpec};
pub use params::Params;
