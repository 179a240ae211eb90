//! Tests of what calls answer of files that are read, of how files of records are read, and of the reader of logs. What
//! the other readers take and refuse, `tools/try-cases` tries through the program. Nothing stands on this crate.
#![tactic(auto)]

#[cfg(test)]
mod coverage;
#[cfg(test)]
mod drift;
#[cfg(test)]
mod faults;
#[cfg(test)]
mod judged;
#[cfg(test)]
mod lines;
#[cfg(test)]
mod log;
#[cfg(test)]
mod moves;
#[cfg(test)]
mod params;
#[cfg(test)]
mod records;
#[cfg(test)]
mod script;
#[cfg(test)]
mod trace;
#[cfg(test)]
mod vectors;
