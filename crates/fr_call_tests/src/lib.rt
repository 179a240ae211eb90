//! Tests of the calls that make parameters, drifts and scripts without a file: each stands for what the reader makes of
//! the same records. And of those of one node: what it hears, how it ends a cycle, how it listens, follows and joins.
//! Nothing stands on this crate.
#![tactic(auto)]

#[cfg(test)]
mod adding;
#[cfg(test)]
mod assembling;
#[cfg(test)]
mod listener;
#[cfg(test)]
mod node;
#[cfg(test)]
mod observed;
#[cfg(test)]
mod observing;
