//! What the log of a bus analyzer comes to, as a text: what each of its double cycles tells, which of them are judged, the first
//! contradiction, and a verdict.
#![tactic(auto)]

mod census;
mod contradicting;
mod counts;
mod ends;
mod ground;
mod laws;
mod observing;
mod progress;
mod verdict;
mod writing;

pub use counts::Counts;
pub use laws::{outcomes_are_counted, over_is_told, within_is_exact, within_is_judged};
pub use observing::write_observed;
pub use progress::{Judged, OverRow, Progress, Reach};
pub use verdict::{Partly, Verdict};
