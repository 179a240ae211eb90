//! Whether a run is covered by the precision theorem: the first gap of its three files, if there is one; and the
//! lines that are told of a run and of a recorded trace alike.
#![tactic(auto)]

mod clocks;
mod fluttering;
mod gap;
mod gap_words;
mod gaps;
mod joining;
mod laws;
mod linking;
mod search;
mod spans;

pub use clocks::{precision_line, skew_line, sync_line};
pub use fluttering::{flutter, ticks_of};
pub use gap::{Fluttering, Gap, RunGaps};
pub use gap_words::gap_line;
pub use gaps::{covered, gaps_by_kind, run_covered};
pub use joining::some_join;
pub use laws::{
    covered_run_has_no_gap, each_kind_is_found, first_gap_is_found, flutter_is_the_greatest,
    flutter_is_told, found_gap_from_is_first, found_gap_is_first, found_gap_of_run_is_first,
};
pub use linking::{is_carried_on, is_link, shares};
pub use search::{Search, first_among};
