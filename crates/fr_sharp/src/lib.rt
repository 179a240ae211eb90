//! Why runs keep a sharper precision where delays change little from one cycle of a double cycle to the next, without
//! arbitrary nodes and beside them: laws over the lawful histories of runs that no node joins, where frames are lost too, over
//! double cycles that are judged by their own numbers, and over what the files of a run promise. What losses cost is
//! computed here, and what a run loses and whether it has an arbitrary node.
#![tactic(auto)]

mod arbitrary;
mod digits;
mod files;
mod group_losses;
mod held;
mod histories;
mod joined_files;
mod judged_steps;
mod losing;
mod loss_checks;
mod loss_cost_laws;
mod loss_costs;
mod loss_steps;
mod losses_of_runs;
mod lossy_files;
mod meeting_costs;
mod sharp_covered;
mod strays;
mod through;

pub use arbitrary::has_arbitrary;
pub use digits::Digits;
pub use files::{
    covered_files_keep_sharply, files_are_steady, files_keep_sharp_precision, files_settle_sharply,
};
pub use held::held_walks_keep_sharp_sync;
pub use histories::{
    histories_come_into_sharp_sync, histories_keep_sharp_sync, histories_settle_sharply,
    stated_runs_are_steady,
};
pub use joined_files::{
    covered_files_keep_sharply_joined, joined_files_keep_sharp_precision,
    joined_files_keep_through_losses,
};
pub use judged_steps::{carried_states_are_known, judged_double_cycles_go_on};
pub use losing::{
    histories_keep_through_losses, joined_histories_keep_through_losses, what_is_heard_suffices,
};
pub use loss_checks::{LossSides, limits_hold, loss_side};
pub use loss_cost_laws::{
    bursts_keep_the_peak, costs_are_one, costs_are_there, crossing_bursts_keep_the_peak,
    every_second_keeps_the_peak,
};
pub use loss_costs::{
    CrossingCost, LossCost, SecondCost, crossing_cost, every_second_cost, heard_behind,
    longest_loss, loss_cost,
};
pub use loss_steps::LossSpread;
pub use losses_of_runs::{RunLosses, losses_are_told, run_losses};
pub use lossy_files::{files_keep_through_losses, lossy_files_give_runs};
pub use meeting_costs::{MeetingCost, meeting_cost};
pub use sharp_covered::first_sharp_gap;
pub use strays::strays_are_told;
pub use through::is_through;
