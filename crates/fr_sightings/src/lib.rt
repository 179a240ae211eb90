//! Which frames of the log of a bus analyzer say where a sender's clock was, the courses of senders by them, and which
//! correction terms these must have computed.
#![tactic(auto)]

mod computed;
mod course_list;
mod first_list;
mod gathered;
mod interval_list;
mod intervals;
mod judging;
mod laws;
mod looking;
mod nodes;
mod numbering;
mod placing;
mod sender;
mod sending;
mod sighting;
mod sure;
mod walking;

pub use computed::{Reception, offset_computed, rate_computed};
pub use course_list::CourseList;
pub use first_list::FirstList;
pub use gathered::SightingList;
pub use intervals::{SeenCycle, first_stamp, seen_box, seen_span};
pub use laws::silence_ends_all;
pub use looking::{Window, look_at, look_from};
pub use nodes::{is_judged, keyed_count};
pub use sender::Sender;
pub use sending::{Observed, seen_senders};
pub use sighting::{Fate, Sighting, Tally};
pub use sure::{are_numbers_sure, is_sync_as};
pub use walking::sightings;
