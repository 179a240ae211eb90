//! A recorded trace: what each correct node of a cluster that takes part did, cycle by cycle, and what it measured,
//! and which nodes join; its text, what it takes for a file to be accepted, and which record of the file is which
//! item of the trace.
#![tactic(auto)]

mod dev_line;
mod draft;
mod fault;
mod fields;
mod kind;
mod laws;
mod numbered;
mod order;
mod read_back;
mod reading;
mod rows;
mod told;
mod trace;
mod writing;

pub use fault::TraceFault;
pub use kind::TraceFile;
pub use laws::{one_answer, refused_for_the_least_reason, some_answer, trace_of_a_file_is_sound};
pub use numbered::records_in_order;
pub use read_back::{texts_are_read_back, texts_tell_no_counts};
pub use reading::read;
pub use trace::{Trace, TracedCycle, TracedJoin};
pub use writing::{write_cycle, write_head};
