//! What the files of a run promise: a run without a gap is covered, and keeps its precision from its first double
//! cycle in sync on in which no node follows. And why the nodes
//! of a run that others join keep the sharper precision. Laws; only the way to sharp sync, for how long that lasts, and the
//! bounds and checks of nodes that join are computed here.
#![tactic(auto)]

mod among;
mod following;
mod grouping;
mod join_checking;
mod joined;
mod joined_histories;
mod joining;
mod laws;
mod levels;
mod listening;
mod sharp_settling;
mod tested;
mod way;

pub use among::{
    heard_numbers, losses_cost, losses_last, lost_numbers, nodes_come_among, strays_are_held,
};
pub use following::followers_hear_steadily;
pub use grouping::{all_is_heard_of_both, sharp_groups_are_kept, steady_groups_are_kept};
pub use join_checking::{first_rates_last, sharp_join_checks, sharp_join_side, sharp_reach};
pub use joined::{followed_doubles_go_on, joined_doubles_go_on};
pub use joined_histories::joined_histories_keep_sharp_sync;
pub use joining::{followers_come_nearer, group_spreads_go, sharp_join_checks_suffice};
pub use laws::{
    covered_files_are_stated, drift_of_a_file_fits, files_keep_precision, greatest_skew_is_within,
    rates_are_within, the_headline,
};
pub use levels::{lasts_by, levels_hold, sync_lasts};
pub use listening::listeners_come_near;
pub use sharp_settling::{one_sharp_way, sharp_spreads_settle};
pub use tested::{one_first_sharp_sync, sharp_sync_is_tested};
pub use way::{SharpWay, sharp_settle};
