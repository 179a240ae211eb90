//! The world of a run: every node's clock over every cycle, in a stage that goes from cycle to cycle; and what
//! stands in its message memory, in words of what is told of its cycles.
#![tactic(auto)]

mod beginning;
mod building;
mod cycling;
mod joining;
mod laws;
mod listing;
mod running;
mod sent_frames;
mod stage;
mod world;

pub use fr_air::fault::BuildFault;
pub use laws::files_decide_one_run;
pub use sent_frames::{
    a_cell_holds_the_last_frame_sent, a_cell_is_there_where_a_frame_is,
    each_cell_is_free_or_of_one_slot_and_channel,
};
pub use world::World;
