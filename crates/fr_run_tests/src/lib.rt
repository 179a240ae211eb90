//! Tests of whole runs and of the program's answers: `calls` tries one call, and the tables beside it are data. Nothing
//! stands on this crate.
#![tactic(auto)]

#[cfg(test)]
mod answers;
#[cfg(test)]
mod calls;
#[cfg(test)]
mod faults;
#[cfg(test)]
mod series;
#[cfg(test)]
mod verdict;
#[cfg(test)]
mod world;
