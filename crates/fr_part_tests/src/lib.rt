//! Tests of the public calls below the world, one file a subject: tables of data, and a small helper for each call.
//! Nothing stands on this crate.
#![tactic(auto)]

#[cfg(test)]
mod bounds;
#[cfg(test)]
mod capture;
#[cfg(test)]
mod checksums;
#[cfg(test)]
mod devices;
#[cfg(test)]
mod frames;
#[cfg(test)]
mod lists;
#[cfg(test)]
mod pool;
#[cfg(test)]
mod terms;
#[cfg(test)]
mod time;
#[cfg(test)]
mod words;
