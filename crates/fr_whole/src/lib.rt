//! The whole program as a call: what `flexray observe PARAMS LOG`, `flexray run PARAMS DRIFT SCRIPT sharp`, `flexray check
//! PARAMS TRACE sharp` and `flexray settle PARAMS power FLUTTER` answer, and with it all words of `flexray`. The other
//! words are answered by `fr_answer`, which stands on nothing that these alone need. And the laws of how clocks come into
//! sync: those that begin apart, by the classical bounds, and the startup of a cluster with a run of it.
#![tactic(auto)]

mod few_missed_laws;
mod observe;
mod observe_laws;
mod pages;
mod power_on;
mod power_on_laws;
mod report_lines;
mod request;
mod settles;
mod sharp_check;
mod sharp_check_laws;
mod sharp_check_lines;
mod sharp_gaps;
mod sharp_gathering;
mod sharp_report;
mod sharp_report_laws;
mod status_laws;
mod top;
mod traced_figures;

pub use few_missed_laws::{few_missed_keep_the_peak, few_missed_meet};
pub use fr_text::Status;
pub use observe::{ObserveFiles, answer_observe, files_decide_what_is_told};
pub use observe_laws::an_observed_text_is_so;
pub use pages::{Page, answer_page, page_request};
pub use power_on::answer_power_on;
pub use power_on_laws::{
    a_power_on_is_told, a_run_that_is_led, file_decides_the_power_on, power_on_comes_into_sync,
};
pub use settles::{files_settle, runs_settle};
pub use sharp_check::answer_sharp_check;
pub use sharp_check_laws::{a_sharp_check_is_told, files_decide_the_sharp_check};
pub use sharp_gaps::SharpGaps;
pub use sharp_gathering::write_sharp_report;
pub use sharp_report::{answer_sharp_report, answer_sharp_run, files_decide_what_is_told_sharply};
pub use sharp_report_laws::{a_sharp_report_is_lawful, files_decide_the_sharp_report};
pub use status_laws::{
    a_power_on_has_one_status, a_sharp_check_has_one_status, a_sharp_report_has_one_status,
    an_observation_has_one_status, each_word_has_one_status,
};
pub use top::flexray;
pub use traced_figures::{TracedFigures, TracedKind};
