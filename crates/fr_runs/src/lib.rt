//! Why a covered run keeps together: each node stores every sync frame of the others that no event takes or flips,
//! and what it stores is where their clocks are; so the clocks of the nodes that have rows stay in sync, those that
//! follow stay near, and who listens joins. And in numbers, what the nodes with rows keep, whoever follows, in sync or
//! not yet. And what a run hears whose delays change little, for the sharper precision. Laws; nothing here runs.
#![tactic(auto)]

mod apart;
mod clock_terms;
mod exchanges;
mod following;
mod following_spread;
mod going_on;
mod group;
mod listening;
mod numbers;
mod room;
mod round_laws;
mod runs_flutter;
mod steady_runs;
mod succession;
mod supplying;
mod whole_runs;

pub use apart::spread_rows_draw_near;
pub use clock_terms::clocks_apply_terms;
pub use exchanges::{exchanged_frames_are_recorded, linked_frames_are_stored};
pub use following::{ends_lie_near, followers_stay_in_reach, followers_stay_near};
pub use following_spread::spreads_are_kept;
pub use going_on::{
    lawful_cycles_run, runs_keep_up, unfollowed_runs_keep_precision, unfollowed_runs_keep_up,
};
pub use group::groups_are_kept;
pub use listening::{first_starts_are_near, references_are_caught};
pub use numbers::{joined_runs_keep_offsets, joined_runs_keep_rates, stated_runs_are_synced};
pub use room::join_checks_suffice;
pub use round_laws::{rounds_are_kept, rounds_draw_near, succeeding_goes_on};
pub use runs_flutter::stated_delays_flutter;
pub use steady_runs::runs_hear_steadily;
pub use succession::{followers_join, gathered_nodes_succeed, gatherings_go_on};
pub use supplying::{
    coverage_suffices, gatherings_are_fed, references_are_heard, starts_stay_natural,
};
pub use whole_runs::{listeners_join, stated_runs_stay_together, unfollowed_runs_keep_together};
