//! What a run is: its cycles as a function of its setting, which of them are lawful, how far its clocks lie apart,
//! and when they are in sync. A node that joins listens to a reference node for a double cycle, follows the nodes
//! that have rows for two, and has a row from then on (section 7.2 of the standard); a run that no node joins is
//! a case. Definitions, their laws, and runs computed from them; nothing here runs.
#![tactic(auto)]

mod laws;
mod runs;
mod worked;

pub use laws::{a_gauge_holds_a_history, each_cycle_has_its_record, one_greatest_skew};
pub use runs::{
    arbitrary_nodes_are_not_caught, gathered_cycles_are_told, joining_nodes_stand_in_time,
    one_first_unfollowed_sync, one_lawful_run, runs_that_none_joins,
};
pub use worked::{a_joined_run, a_run_with_a_deaf_follower, a_run_with_a_lost_reference};
