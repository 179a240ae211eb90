//! Why the clocks of a cluster keep their precision from one double cycle to the next: laws over rows and values,
//! and over what a receiver makes of a round of clock synchronisation. So they keep the sharper precision where delays
//! change little from one cycle of a double cycle to the next. Nothing here runs.
#![tactic(auto)]

mod bounds;
mod deviations;
mod ends;
mod hearing;
mod instants;
mod kinds;
mod lasting;
mod lengths;
mod nearness;
mod offsets;
mod placement;
mod rates;
mod receivers;
mod reception;
mod rounds;
mod sharp_step;
mod steady;
mod step;

pub use bounds::{sharp_bounds_are_below, sharp_checks_suffice, walks_are_bounded};
pub use deviations::deviations_are_gaps;
pub use ends::ends_come_near;
pub use hearing::rounds_are_heard_steadily;
pub use instants::{macroticks_stay_near, precision_holds};
pub use kinds::Kinds;
pub use lasting::sharp_sync_lasts;
pub use lengths::{lengths_come_near, ranges_walk};
pub use nearness::nodes_lie_near;
pub use offsets::{offsets_stay_in_limit, starts_draw_together};
pub use placement::rate_values_place_lengths;
pub use rates::{lengths_draw_together, lengths_stay_in_range};
pub use receivers::receivers_come_near;
pub use reception::frames_arrive_in_slots;
pub use rounds::{rounds_are_heard, rounds_guide};
pub use sharp_step::{alike_spreads_shrink, sharp_spreads_shrink, sharp_sync_is_kept};
pub use steady::{pairs_are_steady, steady_values_place};
pub use step::{spreads_shrink, sync_is_kept, sync_is_spread};
