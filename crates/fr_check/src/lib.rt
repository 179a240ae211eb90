//! The check of a recorded trace, and `flexray check PARAMS TRACE`: the first record that breaks a law, or the first
//! gap, or else from when on its clocks were in sync and how far they lay apart. And what the sharper bounds need of a trace.
#![tactic(auto)]

mod alike;
mod answering;
mod apart;
mod checking;
mod command_laws;
mod control;
mod corrections;
mod deviations;
mod files;
mod first;
mod past;
mod printing;
mod rows;
mod terms;
mod unlawful_lines;
mod walk;

pub use alike::first_unlike;
pub use answering::answer_check;
pub use checking::{check, check_otherwise, sound_cycles};
pub use command_laws::files_decide_the_verdict;
pub use files::CheckFiles;
pub use unlawful_lines::unlawful_line;
