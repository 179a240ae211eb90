//! What a double cycle of a log tells for certain of a cluster's clocks, by its sightings: the skew of those that send, their
//! lengths and terms, and what contradicts lawful runs.
#![tactic(auto)]

mod apart_faults;
mod fault;
mod missing;
mod own_faults;
mod rows;
mod says;
mod scene;
mod sender_faults;
mod skews;
mod slot_faults;
mod telling;
mod term;

pub use apart_faults::{Apart, put_apart, put_skews};
pub use fault::{Fault, LogSpan, Range, known_node};
pub use missing::put_missing;
pub use own_faults::put_own_faults;
pub use rows::{cycle_row, known_count, node_row, precision_row, terms_of};
pub use says::Says;
pub use scene::Scene;
pub use sender_faults::{
    Asked, proper_lengths, put_of_senders, sender_fault, stated_flutter, step_of,
};
pub use skews::{Skews, courses_of, skews_of};
pub use slot_faults::put_slot_faults;
pub use telling::tell;
pub use term::Term;
