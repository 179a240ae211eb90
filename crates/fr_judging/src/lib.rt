//! How the double cycles of a log are judged: what its nodes hear of each other, what is known of a double cycle by its own numbers,
//! what contradicts it, and how many senders a node must have missed in it.
#![tactic(auto)]

mod hearing;
mod knowing;
mod laws;
mod missed;
mod obstacle;
mod standing_faults;
mod standings;
mod unseen;
mod zeros;

pub use hearing::{heard, yardstick};
pub use knowing::Standing;
pub use laws::{missed_is_least, reasons_are_of_unjudged};
pub use missed::{Missed, put_missed};
pub use obstacle::{Obstacle, ObstacleKind};
pub use standing_faults::{put_moving_faults, put_spread, put_term_faults};
pub use standings::{known_next, standing};
