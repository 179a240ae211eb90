//! The drift file of a cluster: how long a run is, where each node's clock starts, how long its microticks
//! are, and how long frames travel; and what it takes for a file to be accepted.
#![tactic(auto)]

mod draft;
mod drift;
mod fault;
mod keys;
mod kind;
mod laws;
mod reading;
mod rows;
mod spans;
mod told;
mod typed;

pub use drift::Drift;
pub use fault::DriftFault;
pub use kind::DriftFile;
pub use laws::{a_row_holds_until_the_next, one_answer, refused_for_the_least_reason, some_answer};
pub use reading::read;
