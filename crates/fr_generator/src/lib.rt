//! A cluster that is made from a seed: eight nodes, two of them arbitrary, with drawn clocks, delays and said frames.
#![tactic(auto)]

mod cluster;
mod draws;
mod drift;
mod generated;
mod laws;
mod places;
mod script;

pub use generated::{Generated, generate};
pub use laws::{a_seed_decides_one_cluster, made_files_are_accepted};
pub use places::{Chance, Link};
