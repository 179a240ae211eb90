//! Frames one after the other, as a logger writes them: fed in pieces, each frame is told with its place, up to the
//! first byte that no frame explains, and then the reason; and `flexray capture CHANNEL FILE`, which prints them.
#![tactic(auto)]

mod answering;
mod capture;
mod command_laws;
mod fault;
mod feed_laws;
mod feeding;
mod kept;
mod laws;
mod line_end;
mod lines;
mod reading;

pub use answering::answer_capture;
pub use capture::{Capture, Fed};
pub use command_laws::file_decides_the_frames;
pub use fault::CaptureFault;
pub use feed_laws::a_feed_without_a_place_adds_no_frame;
pub use laws::{
    a_completed_frame_is_the_last, a_rest_begins_with_no_frame, a_shown_fault_stays,
    frames_are_found, one_list_of_frames,
};
