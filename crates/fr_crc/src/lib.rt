//! The two cyclic redundancy checks of a frame: the header CRC and the frame CRC (section 4.5 of the
//! standard, CRC calculation details). Both are defined as the remainder of a division without carry,
//! and computed by a shift register: the header CRC by ten bits at a time, the frame CRC by sixteen bytes at a
//! time, then eight, then four, and the last ones singly, with tables. The same register bit by bit stands beside them
//! for tests to compare with.
#![tactic(auto)]

mod body;
mod checks;
mod entries;
mod halves;
mod laws;
mod plain;
mod register;
mod tables;
#[cfg(test)]
mod tests;

pub use checks::{frame_crc, header_crc};
pub use laws::{
    a_frame_crc, a_header_crc, a_remainder, one_frame_crc, one_header_crc, one_remainder,
};
pub use plain::{frame_crc_by_bits, header_crc_by_bits};
pub use tables::{frame_entry, header_entry};
