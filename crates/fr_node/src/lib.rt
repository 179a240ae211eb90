//! One node of the cluster: it receives frames as bytes, measures their deviations, and corrects its clock
//! at the end of each double cycle (chapters 2, 4, 5 and 8 of the standard).
#![tactic(auto)]

mod answers;
mod corrections;
mod frames;
mod listener;
mod node;
mod own;
mod quotients;

pub use answers::{Reception, received};
pub use fr_reception::{Heard, Ignored};
pub use frames::{frame_of, regular_read};
pub use listener::Listener;
pub use node::Node;
