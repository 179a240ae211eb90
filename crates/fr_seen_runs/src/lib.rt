//! Why what contradicts a log contradicts each run that it can be seen of, and what its verdict says of these: laws over whole
//! runs, their nodes' rows and the sightings of a log. Nothing here runs.
#![tactic(auto)]

mod computed;
mod in_time;
mod known;
mod own;
mod told;
mod verdicts;
mod worked;

pub use computed::{missed_senders_are_so, nodes_apply_midpoints, terms_are_computed};
pub use in_time::{a_worked_reading, judged_is_near, near_is_timely, no_near_run_is_contradicted};
pub use known::{
    known_faults_are_none, missings_are_so, seen_numbers_are_known, skew_faults_within_are_none,
    spreads_are_so, standings_are_so,
};
pub use own::{own_faults_are_none, slot_faults_are_none};
pub use told::{no_fault_is_told, steady_runs_miss_none, text_tells_doubles, verdict_tells_first};
pub use verdicts::{no_run_is_contradicted, over_is_so, within_is_so};
pub use worked::{
    a_worked_log, worked_contradictions, worked_judged_contradictions, worked_strangers,
};
