//! What a node hears: the regular frame of a static slot, and the answer to a frame that is offered to a
//! node (chapters 4, 5 and 8 of the standard). Definitions and their laws; a node computes the answers.
#![tactic(auto)]

mod heard;
mod laws;

pub use heard::{Heard, Ignored};
pub use laws::{
    a_frame_carries_its_crc, a_regular_frame, an_answer, one_answer,
    slots_lie_before_the_correction, the_answer_is_found,
};
