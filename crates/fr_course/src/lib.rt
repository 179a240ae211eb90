//! Where the clock of a node can lie in a double cycle, by an observer's stamps of its frames; how far the clocks of
//! several lie apart by that, which correction terms they can have applied, and between which numbers a midpoint lies.
#![tactic(auto)]

mod corners;
mod corrections;
mod courses;
mod intervals;
mod laws;
mod measuring;
mod middles;
mod quotients;
mod readings;
mod scales;
mod shares;
mod skews;
mod stamps;
mod values;

pub use corners::{even_start, even_turn, odd_start, odd_turn};
pub use corrections::{offset_seen, rate_step_seen};
pub use courses::{Course, allowed, between, course_from, is_there, seen_apart};
pub use intervals::{Interval, is_empty, meet, meet_all, meet_if};
pub use laws::{middles_hold, missing_middles_widen, values_are_counted, values_are_placed};
pub use measuring::{Measuring, undamped};
pub use middles::middle;
pub use scales::Scale;
pub use skews::{
    least_even_skew, least_odd_skew, lengths_apart, most_even_skew, most_odd_skew, starts_apart,
};
pub use stamps::{Delays, Observer, span_of, stamped};
pub use values::{deviation_seen, length_ticks, rate_value_seen};
