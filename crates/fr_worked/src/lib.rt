//! Worked runs of a cluster, computed from the definitions alone: what happens cycle by cycle, the greatest skew,
//! the first double cycle in sync, the report, and that they meet what the laws of runs ask. And worked files of runs
//! that nodes join, by their bytes, and worked traces: they meet what is asked where something is promised of such, by
//! the older bounds and by the sharper ones. And runs that come near the precision, in closed form too, and runs that
//! lose it where a check fails. Nothing here runs.
#![tactic(auto)]

ghost use Rattle.std.specs.Prelude.{◌≡◌, None, false, pos, true};
ghost use Rattle.fr_history.specs.Next.{cycles_of};
ghost use Rattle.fr_history.specs.Worked.{joined_run};
ghost use Rattle.fr_lines.specs.Text.{report_of};
ghost use Rattle.fr_worked.specs.Joined.{joined_report};
ghost use Rattle.fr_worked.specs.Positions.{even_positions, odd_positions, positions_of, short_grid};
ghost use Rattle.fr_worked.specs.Offset.{worked_offset};
ghost use Rattle.fr_worked.specs.Rates.{worked_rates};
ghost use Rattle.fr_worked.specs.OneArbitrary.{worked_one_arbitrary};
ghost use Rattle.fr_worked.specs.TwoArbitrary.{worked_two_arbitrary};
ghost use Rattle.fr_worked.specs.Quiet.{worked_quiet};
ghost use Rattle.fr_worked.specs.Lost.{worked_lost, worked_flipped, worked_lost_on_one};
ghost use Rattle.fr_worked.specs.Working.{IsAsWritten, WorkedRunKeepsPrecision};

mod driven_run;
mod edge;
mod far;
mod far_run;
mod halting_run;
mod joined_files;
mod joining_losses;
mod judged_run;
mod late;
mod laws;
mod long_run;
mod lossy_files;
mod meeting_files;
mod reached_run;
mod sharply_joined_files;
mod traces;
mod uneven;
mod walking_files;
mod worked_run;

pub use driven_run::a_driven_run;
pub use edge::the_precision_is_reached;
pub use far::a_far_follower;
pub use far_run::{each_cluster_has_a_far_run, far_runs_reach};
use fr_history::{a_joined_run, one_lawful_run};
pub use halting_run::the_first_sharp_check_is_needed;
pub use joined_files::{
    joined_files_are_traced, joined_files_keep_their_precision, uneven_files_keep_their_precision,
};
pub use joining_losses::joining_files_lose_frames;
pub use judged_run::a_judged_run;
pub use late::the_promise_begins_in_sync;
pub use laws::{a_joined_run_keeps_together, a_joined_run_keeps_up, a_joined_run_stays_together};
pub use long_run::a_long_walk;
pub use lossy_files::{files_that_lose_a_crossing_burst, files_that_lose_frames};
pub use meeting_files::files_whose_lists_meet;
pub use reached_run::the_sharper_precision_is_reached;
pub use sharply_joined_files::joined_files_keep_their_sharper_precision;
pub use traces::{a_trace_beside_an_arbitrary_node, a_trace_that_comes_sharp};
pub use uneven::{an_uneven_run, an_uneven_run_stays_together};
pub use walking_files::walking_files_keep_while_it_lasts;
pub use worked_run::{a_steady_run, files_that_flutter};

/// A law: two clocks that start two and a half microticks apart come within half a microtick.
pub fn a_run_with_an_offset()
    ensures { IsAsWritten worked_offset }
{
    one_lawful_run();
}

/// A law: where two oscillators lie apart, the rate terms bring the cycles together, and the skew is
/// greatest where the first offset correction starts.
pub fn a_run_with_drifting_rates()
    ensures { IsAsWritten worked_rates }
{
    one_lawful_run();
}

/// A law: an arbitrary node that says different things to each of three correct nodes moves none of
/// them.
pub fn a_run_with_one_arbitrary_node()
    ensures { IsAsWritten worked_one_arbitrary }
{
    one_lawful_run();
}

/// A law: two arbitrary nodes move none of six correct ones.
pub fn a_run_with_two_arbitrary_nodes()
    ensures { IsAsWritten worked_two_arbitrary }
{
    one_lawful_run();
}

/// A law: two correct nodes are too few beside an arbitrary one, even where that says nothing.
pub fn a_run_with_a_silent_arbitrary_node()
    ensures { IsAsWritten worked_quiet }
{
    one_lawful_run();
}

/// A law: a frame that is lost is not measured.
pub fn a_run_with_a_lost_frame()
    ensures { IsAsWritten worked_lost }
{
    one_lawful_run();
}

/// A law: a frame with one bit inverted is found damaged.
pub fn a_run_with_a_flipped_frame()
    ensures { IsAsWritten worked_flipped }
{
    one_lawful_run();
}

/// A law: a frame that is lost on one channel is measured on the other.
pub fn a_run_with_a_frame_lost_on_one_channel()
    ensures { IsAsWritten worked_lost_on_one }
{
    one_lawful_run();
}

/// A law: where node 3 joins two others, the report has a line of it, and names the first double cycle.
pub fn a_report_of_a_node_that_joins()
    ensures { report_of joined_run None (cycles_of joined_run 12) ≡ joined_report }
{
    a_joined_run();
}

/// A law: the worked runs without a gap keep their precision from their first double cycle in sync on, beside
/// arbitrary nodes too: what the law of precision asks is met by them.
pub fn covered_runs_keep_their_precision()
    ensures offset { WorkedRunKeepsPrecision worked_offset }
    ensures rates { WorkedRunKeepsPrecision worked_rates }
    ensures one_arbitrary { WorkedRunKeepsPrecision worked_one_arbitrary }
    ensures two_arbitrary { WorkedRunKeepsPrecision worked_two_arbitrary }
    ensures lost_on_one { WorkedRunKeepsPrecision worked_lost_on_one }
{
    a_run_with_an_offset();
    a_run_with_drifting_rates();
    a_run_with_one_arbitrary_node();
    a_run_with_two_arbitrary_nodes();
    a_run_with_a_frame_lost_on_one_channel();
}

/// A law: where the macroticks of a short cycle lie, in an even cycle and in an odd one with a correction.
pub fn positions_in_a_short_cycle()
    ensures even { positions_of (short_grid (pos 9)) (pos 0) false ≡ even_positions }
    ensures odd { positions_of (short_grid (pos 8)) (pos 2) true ≡ odd_positions }
{}
