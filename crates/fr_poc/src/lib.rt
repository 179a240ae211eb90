//! Protocol operation control: which nodes send, which only listen and which have halted, by how
//! the clock corrections of the double cycles ended.
#![tactic(auto)]

mod control;
mod limiting;

pub use control::{Poc, PocLimits, control_steps_along};
pub use limiting::poc_limits;
