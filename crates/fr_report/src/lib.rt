//! The commands that play a run: `flexray run` and `flexray make`, which print its report, and `flexray trace`, which
//! prints its rows.
#![tactic(auto)]

mod answering;
mod clocks;
mod files;
mod gathering;
mod making;
mod playing;
mod run;
mod run_laws;
mod status_laws;
mod trace_laws;
mod tracing;
mod world;

pub use answering::{RunWriter, answer_world};
pub use files::RunFiles;
pub use fr_lines::{Clock, ClockList, Report, Told};
pub use fr_text::Status;
pub use gathering::{add_next, told_of, write_report};
pub use making::answer_made;
pub use playing::play;
pub use run::answer_run;
pub use run_laws::{a_run_is_lawful, a_seed_decides_the_report, files_decide_the_report};
pub use status_laws::{a_made_run_has_one_status, a_trace_has_one_status};
pub use trace_laws::{a_trace_is_lawful, files_decide_the_trace};
pub use tracing::answer_trace;
pub use world::world_of;
