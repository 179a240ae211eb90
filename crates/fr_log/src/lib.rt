//! The log of a bus analyzer: each frame that came, with a stamp of its one clock, and what its user states of it.
#![tactic(auto)]

mod draft;
mod entry;
mod fault;
mod fields;
mod file_laws;
mod kind;
mod log;
mod reading;
mod rows;
mod told;

pub use entry::{Entry, EntryBytes, EntryKind};
pub use fault::LogFault;
pub use file_laws::{
    arbitrary_node_of_a_log_has_key_slot, log_of_a_file_fits, one_answer,
    refused_for_the_least_reason, some_answer, sync_frames_of_a_log_have_limits,
};
pub use kind::LogFile;
pub use log::Log;
pub use reading::read;
pub use rows::DelayLimits;
