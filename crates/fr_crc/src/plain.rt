ghost use Rattle.std.specs.Prelude.{◌≡◌, ℕ, ◌≤◌, length};
ghost use Rattle.fr_crc.specs.Crc.{IsHeaderCrc, IsFrameCrc};

use crate::checks::{HEADER_START, start_on};
use crate::register::{Generator, after_bit, after_bits, after_bytes};
use fr_base::Channel;

// The generator of the header CRC, x^11 + x^9 + x^8 + x^7 + x^2 + 1.
pub(crate) const HEADER: Generator = Generator {
    width: 11,
    terms: 0x385,
};

// The terms of the frame CRC's generator below x^24.
const FRAME: Generator = Generator {
    width: 24,
    terms: 0x5D6DCB,
};

/// The header CRC as `header_crc` answers it, bit by bit and without a table. It is there for tests to
/// compare with.
pub fn header_crc_by_bits(sync: bool, startup: bool, id: u16, words: u8) -> u16
    requires id { id ≤ 2047 }
    requires words { words ≤ 127 }
    ensures { IsHeaderCrc sync startup id words result }
{
    let register = after_bit(HEADER, HEADER_START, sync);
    let register = after_bit(HEADER, register, startup);
    let register = after_bits(HEADER, register, 11, u32::from(id));
    let register = after_bits(HEADER, register, 7, u32::from(words));
    register as u16
}

/// The frame CRC as `frame_crc` answers it, bit by bit and without a table. It is there for tests to
/// compare with.
pub fn frame_crc_by_bits(channel: Channel, body: &[u8]) -> u32
    requires { length body.now ≤ 259 }
    ensures { IsFrameCrc channel body.now result }
{
    after_bytes(FRAME, start_on(channel), body)
}
