//! The offset and the rate correction term of a double cycle (sections 8.6.2 to 8.6.4).
#![tactic(auto)]

mod damping;
mod measured;
mod term;

pub use damping::damping_takes_toward_zero;
pub use measured::{offset_term_from, rate_term_from};
pub use term::{Term, offset_term, rate_term, terms_are_there, terms_are_unique, terms_lie_within};
