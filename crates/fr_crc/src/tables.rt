ghost use Rattle.std.specs.Prelude.{◌≡◌, ◌<◌, ◌≤◌, ◌^◌};
ghost use Rattle.fr_crc.specs.Bits.{bits, message_of, zeros};
ghost use Rattle.fr_crc.specs.Crc.{IsCrc, frame_generator, header_generator, header_message};
ghost use Rattle.fr_crc.specs.Register.{after};

use crate::entries::frame_place;
use crate::halves::last_place;

/// The frame CRC, of 24 bits, of the eight bits of a byte, the most significant first, with start value 0.
pub fn frame_entry(index: u8) -> u32
    ensures fits { result < 2 ^ 24 }
    ensures remainder { IsCrc frame_generator (zeros 24) (bits 8 index) (bits 24 result) }
    ensures after { bits 24 result ≡ after frame_generator (zeros 24) (bits 8 index) }
{
    frame_place(index)
}

/// The header CRC, of 11 bits, of the four bits of a number below 16, the most significant first, with
/// start value 0.
pub fn header_entry(index: u8) -> u16
    requires { index < 16 }
    ensures fits { result < 2 ^ 11 }
    ensures remainder { IsCrc header_generator (zeros 11) (bits 4 index) (bits 11 result) }
    ensures after { bits 11 result ≡ after header_generator (zeros 11) (bits 4 index) }
{
    last_place(u16::from(index))
}

// The register of the frame CRC after one more byte.
fn after_byte(register: u32, byte: u8) -> u32
    requires { register < 2 ^ 24 }
    ensures fits { result < 2 ^ 24 }
    ensures next { bits 24 result ≡ after frame_generator (bits 24 register) (bits 8 byte) }
{
    let first = (register >> 16) as u8;
    ((register & 0xFFFF) << 8) ^ frame_entry(first ^ byte)
}

// The register of the frame CRC after bytes, any number of them, one by one.
pub(crate) fn after_each(mut register: u32, bytes: &[u8]) -> u32
    requires { register < 2 ^ 24 }
    ensures fits { result < 2 ^ 24 }
    ensures after { bits 24 result ≡
        after frame_generator (bits 24 register) (message_of bytes.now) }
{
    for byte in bytes {
        register = after_byte(register, *byte);
    }
    register
}

// The twenty bits of the header that its CRC covers, as a number.
pub(crate) fn covered(sync: bool, startup: bool, id: u16, words: u8) -> u32
    requires id { id ≤ 2047 }
    requires words { words ≤ 127 }
    ensures { bits 20 result ≡ header_message sync startup id words }
{
    ((u32::from(sync) * 2 + u32::from(startup)) * 2048 + u32::from(id)) * 128 + u32::from(words)
}
