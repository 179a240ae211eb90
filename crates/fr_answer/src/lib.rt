//! The program's answer as a call: words, a shelf and two sinks in, a status out. What `flexray frame CHANNEL FILE`, `flexray
//! bound PARAMS`, also with the word `join`, with `sharp FLUTTER`, with both, or with `sharp FLUTTER lost COUNT`, and `flexray
//! settle PARAMS START RATE`, also with `sharp FLUTTER`, answer is made here, the answer to each other command in the crate of
//! its subject; of a run it says here what the sharper promise says of it. And that the bytes of the files of each request
//! define one status. Of all words of `flexray` these are all but `observe`, `help`, `version`, `sharp` of `run` and of
//! `check`, and `power` of `settle`, which stand on much that no run needs: `fr_whole` answers them.
#![tactic(auto)]

mod bound;
mod bound_join;
mod bound_laws;
mod bound_lost;
mod bound_sharp;
mod bound_sharp_join;
mod fault_line;
mod frame;
mod frame_laws;
mod frame_line;
mod request;
mod round_laws;
mod run;
mod settle;
mod settle_sharp;
mod status_laws;
mod top;

pub use bound::answer_bound;
pub use bound_join::answer_bound_join;
pub use bound_laws::{
    file_decides_the_bounds, file_decides_the_bounds_of_joining, file_decides_the_costs_of_losses,
    file_decides_the_settling, file_decides_the_sharper_bounds,
    file_decides_the_sharper_bounds_of_joining, file_decides_the_sharper_settling,
};
pub use bound_lost::{LossFigures, answer_bound_lost};
pub use bound_sharp::answer_bound_sharp;
pub use bound_sharp_join::answer_bound_sharp_join;
pub use fr_report::play;
pub use fr_text::Status;
pub use frame::answer_frame;
pub use frame_laws::file_decides_the_line;
pub use round_laws::{traced_files_are_checked, what_is_traced_is_checked};
pub use run::answer_kept_run;
pub use settle::answer_settle;
pub use settle_sharp::answer_settle_sharp;
pub use status_laws::{
    a_capture_has_one_status, a_check_has_one_status, a_frame_has_one_status, a_run_has_one_status,
    a_startup_has_one_status, an_upgrade_has_one_status, bounds_have_one_status,
    each_request_has_one_status, losses_have_one_status, settlings_have_one_status,
    vectors_have_one_status,
};
pub use top::{answer_core, flexray_core, told};
