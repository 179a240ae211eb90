//! Whether a recorded trace is that of a lawful run that the precision theorem covers: the first record that
//! breaks a law, or the first gap, or else from when on the clocks were in sync and how far they lay apart. And laws by
//! which a recorded trace keeps the sharper precision.
#![tactic(auto)]

mod covering;
mod found;
mod laws;
mod ordered;
mod places;
mod run_laws;
mod traces;
mod unlawful;

pub use covering::{dev_in, first_gap, first_other_gap, is_early, timed_cycles};
pub use found::{is_named, row_of};
pub use laws::{
    a_passing_trace_keeps_its_precision, found_breach_is_first, found_gap_is_first,
    hearing_suffices, one_answer, other_gaps_are_found, worked_trace,
};
pub use ordered::devs_of;
pub use places::{is_said_alike_in, recorded_flutter};
pub use run_laws::{
    a_covered_run_passes, a_run_breaks_no_law, a_run_is_read_back, a_verdict_tells_of_the_run,
    files_are_read_back,
};
pub use traces::{
    a_steady_trace, alike_traces_keep_sharp_sync, traces_keep_sharp_sync, traces_settle_sharply,
};
pub use unlawful::{Unlawful, Verdict};
