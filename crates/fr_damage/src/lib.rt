//! What the two CRCs of a frame see of damage: one inverted bit, two, an odd number, and a burst, in any message
//! and in the bytes of a frame; and that in a run no flipped frame is stored or caught (sections 4.5 and 8.5 of the
//! standard). Laws; nothing here runs.
#![tactic(auto)]

mod crcs;
mod flips;
mod frames;

pub use crcs::{
    a_burst_changes_the_crc, an_odd_number_of_bits_changes_the_crc, code_words_lie_apart,
    equal_crcs, one_bit_changes_the_crc, the_crc_of_a_sum, two_bits_change_the_frame_crc,
    two_bits_change_the_header_crc,
};
pub use flips::{
    a_flipped_frame_is_ignored, a_flipped_frame_is_no_frame, a_twice_flipped_frame_is_no_frame,
    no_files_store_a_flipped_frame, no_run_stores_a_flipped_frame, what_is_no_frame_is_not_caught,
    what_is_no_frame_is_not_stored,
};
pub use frames::{
    a_burst_leaves_no_frame, a_frame_is_none_on_the_other_channel,
    an_odd_number_of_bits_leaves_no_frame, one_bit_leaves_its_crc, one_bit_leaves_no_frame,
    three_bits_leave_no_frame, two_bits_leave_no_frame,
};
