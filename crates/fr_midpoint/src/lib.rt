//! The fault-tolerant midpoint of at most 15 values (section 8.6.1), which both correction terms stand on,
//! and what it makes of the values that two receivers have of the same senders.
#![tactic(auto)]

mod list15;
mod middle;
mod receivers;

pub use list15::List15;
pub use middle::{discarded_of, half_sum, midpoint, midpoint_is_there, midpoint_is_unique};
pub use receivers::{few_are_discarded, midpoints_agree, receivers_agree};
