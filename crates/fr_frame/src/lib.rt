//! Frames as bytes: what a frame is, reading one with its first fault, and writing one (chapter 4 of the
//! standard, frame format).
#![tactic(auto)]

mod decoding;
mod encoding;
mod fault;
mod front;
mod header;
mod laws;

pub use decoding::{Frame, decode};
pub use encoding::{encode, seal};
pub use fault::{EncodeFault, FrameFault};
pub use front::{Front, front_of};
pub use header::Header;
pub use laws::{
    a_fault_is_no_frame, a_frame, a_frame_is_of_bytes, a_frame_is_spelled,
    a_refusal_is_not_accepted, frame_length, no_frame_has_a_fault, no_frame_is_a_front,
    one_first_fault, one_first_refusal, one_reading, one_spelling, what_is_read_is_there,
    what_is_there_is_read,
};
