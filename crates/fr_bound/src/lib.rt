//! What the theory computes from the parameters of a cluster: the bounds, in ticks, and the checks under which they hold,
//! the classical and the sharper ones; and what is known of clocks from one double cycle to the next.
#![tactic(auto)]

mod bounding;
mod checking;
mod double_number;
mod flutter;
mod judging;
mod laws;
mod outweighing;
mod settling;
mod sharp_bounding;
mod sharp_checking;

pub use bounding::{
    BoundValues, arrival_error, bounds, cycle_change, longest_microtick, reach, shortest_microtick,
};
pub use checking::{CheckSides, checks, join_checks, side};
pub use double_number::DoubleNumber;
pub use flutter::Flutter;
pub use judging::{Heard, Known, apart_through, is_judged, known_after, met, met_with};
pub use laws::{
    in_sync_is_tested, nothing_is_cut, one_first_failing, one_first_failing_to_join, one_settling,
};
pub use outweighing::outweighs;
pub use settling::{Settling, Spread, settle, side_within};
pub use sharp_bounding::{
    SharpValues, even_lambda, last_action, near_by, next_sharp_spread, odd_spread, precision_by,
    rate_room, rate_walk, sharp_bounds, sharp_lasts, sharp_pi, steady_error, wide_change,
};
pub use sharp_checking::{sharp_checks, sharp_side, sharp_side_within};
