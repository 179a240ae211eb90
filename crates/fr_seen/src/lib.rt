//! Why what one observer's stamps tell of clocks is so, and which senders that lie too far apart they tell: laws over rows
//! of nodes, stamps of their frames and double cycles of a log. Nothing here runs.
#![tactic(auto)]

mod clocks;
mod completeness;
mod courses;
mod log_doubles;
mod logs;
mod observed;
mod runs;
mod skews;
mod terms;
mod worked;

pub use clocks::{intervals_are_shared, readings_are_near_ticks, stamps_place_action_points};
pub use completeness::{corners_are_narrow, far_senders_are_told, near_senders_are_within};
pub use courses::{corners_lie, courses_hold};
pub use log_doubles::{doubles_are_there, senders_lie_as_seen};
pub use logs::{
    cycle_words_hold, no_frame_of_a_seen_log_is_untimely, no_frame_of_own_slots_is_irregular,
    observed_rows_hold, senders_are_on_course, sightings_are_sent,
};
pub use observed::{numbers_are_found, seen_courses_hold};
pub use runs::nodes_run_regularly;
pub use skews::{odd_skews_are_kept, skews_are_seen};
pub use terms::terms_are_seen;
pub use worked::worked_row;
