//! The deviations that a node measures in a double cycle, and the values that the correction terms are
//! computed from (sections 8.5, 8.6.2 and 8.6.3).
#![tactic(auto)]

mod table;
mod values;

pub use table::Table;
