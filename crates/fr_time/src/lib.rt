//! The time base of a cluster: where each macrotick of a cycle lies, in microticks and in ticks, and which
//! node sends in which static slot, and when.
#![tactic(auto)]

mod cycles;
mod grid;
mod instants;
mod laws;
mod macroticks;
mod positions;
mod senders;
mod shares;
mod slots;

pub use cycles::{cycle_count, is_odd};
pub use grid::{Grid, grid_of, macros_of, micros_of};
pub use instants::{action_instant, early_position, next_start, slot_instants};
pub use laws::{
    a_cycle_begins_and_ends, each_cycle_is_in_a_double_cycle, each_slot_has_its_sender, placeable,
    slots_end_before_the_correction,
};
pub use macroticks::Macro;
pub use positions::{instant, position};
pub use senders::{Kind, Sending, sender};
pub use slots::{action_point, slot_bounds};
