ghost use Rattle.std.specs.Prelude.{◌≡◌, ℕ, ◌+◌, ◌*◌, ◌^◌, ◌<◌, ◌≤◌, length};
ghost use Rattle.fr_frame.specs.Frame.{bit, header_bytes, trailer_bytes};

/// The header of a frame without its CRC (section 4.2 of the standard).
#[derive(Clone, Copy, Debug, PartialEq, Eq)]
pub struct Header {
    /// The reserved bit. A sender leaves it clear; a receiver covers it by the frame CRC and otherwise
    /// ignores it.
    pub reserved: bool,
    /// The payload preamble indicator.
    pub preamble: bool,
    /// The null frame indicator: set where the payload is valid.
    pub null_bit: bool,
    /// The sync frame indicator.
    pub sync: bool,
    /// The startup frame indicator.
    pub startup: bool,
    /// The frame ID, 1 to 2047.
    pub id: u16,
    /// The payload length in two-byte words, 0 to 127.
    pub words: u8,
    /// The cycle count, 0 to 63.
    pub cycle: u8,
}

// The header in five bytes, and the CRC that they keep.
pub(crate) fn header_at(front: &[u8]) -> (Header, u16)
    requires { length front.now ≡ 5 }
    ensures id { result.0.id ≤ 2047 }
    ensures words { result.0.words ≤ 127 }
    ensures cycle { result.0.cycle ≤ 63 }
    ensures kept { result.1 < 2 ^ 11 }
    ensures spelled { front.now ≡ header_bytes result.0 result.1 }
{
    let header = Header {
        reserved: front[0] & 0x80 != 0,
        preamble: front[0] & 0x40 != 0,
        null_bit: front[0] & 0x20 != 0,
        sync: front[0] & 0x10 != 0,
        startup: front[0] & 0x08 != 0,
        id: u16::from(front[0] & 0x07) << 8 | u16::from(front[1]),
        words: front[2] >> 1,
        cycle: front[4] & 0x3F,
    };
    let kept = u16::from(front[2] & 1) << 10 | u16::from(front[3]) << 2 | u16::from(front[4] >> 6);
    (header, kept)
}

// An indicator as a number.
fn number_of(set: bool) -> u8
    ensures value { result ≡ bit set }
    ensures small { result ≤ 1 }
{
    u8::from(set)
}

// The five indicators, at the top of a byte.
fn indicators(header: &Header) -> u8
    ensures value { result ≡ 128 * bit header.now.reserved + 64 * bit header.now.preamble +
        32 * bit header.now.null_bit + 16 * bit header.now.sync + 8 * bit header.now.startup }
    ensures small { result ≤ 248 }
{
    let first = 128 * number_of(header.reserved) + 64 * number_of(header.preamble);
    let second = 16 * number_of(header.sync) + 8 * number_of(header.startup);
    first + 32 * number_of(header.null_bit) + second
}

// The five bytes of a header and its CRC.
pub(crate) fn header_as_bytes(header: &Header, crc: u16) -> [u8; 5]
    requires id { header.now.id ≤ 2047 }
    requires words { header.now.words ≤ 127 }
    requires cycle { header.now.cycle ≤ 63 }
    requires crc { crc < 2 ^ 11 }
    ensures { result ≡ header_bytes header.now crc }
{
    [
        indicators(header) + (header.id / 256) as u8,
        (header.id % 256) as u8,
        2 * header.words + (crc / 1024) as u8,
        (crc / 4 % 256) as u8,
        64 * (crc % 4) as u8 + header.cycle,
    ]
}

// The three bytes of a frame CRC.
pub(crate) fn trailer_as_bytes(crc: u32) -> [u8; 3]
    requires { crc < 2 ^ 24 }
    ensures { result ≡ trailer_bytes crc }
{
    [
        (crc / 65536) as u8,
        (crc / 256 % 256) as u8,
        (crc % 256) as u8,
    ]
}

// The frame CRC in three bytes.
pub(crate) fn trailer_at(back: &[u8]) -> u32
    requires { length back.now ≡ 3 }
    ensures kept { result < 2 ^ 24 }
    ensures spelled { back.now ≡ trailer_bytes result }
{
    u32::from(back[0]) << 16 | u32::from(back[1]) << 8 | u32::from(back[2])
}
