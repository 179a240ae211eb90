//! What comes of the frames of a run where frames are lost, by its script: of which correct sync nodes a receiver has values in a
//! double cycle, which nodes have none, and what is heard in it, for nodes that take part and for nodes that join. And what a
//! receiver makes of the values that it has.
#![tactic(auto)]

mod bearing;
mod heard;
mod hearing;
mod meeting;
mod traffic;

pub use bearing::{all_bear_from, none_lacks};
pub use heard::{all_reach, is_whole};
pub use hearing::{heard_in, is_borne_to_join};
pub use traffic::{discarded_of, is_arbitrary_sync};
