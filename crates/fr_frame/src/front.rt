ghost use Rattle.std.specs.Prelude.{◌≡◌, ◌≤◌, length};
ghost use Rattle.fr_frame.specs.Reading.{crc_of, header_crc_in, header_of};

use crate::header::{Header, header_at};
use fr_crc::header_crc;

/// What the first five bytes of a frame say: its header, and the header CRC beside the one that they keep.
#[derive(Clone, Copy, Debug, PartialEq, Eq)]
pub struct Front {
    /// The header.
    pub header: Header,
    /// The header CRC that the bytes keep, of 11 bits.
    pub kept: u16,
    /// The header CRC that is computed of the header's fields.
    pub computed: u16,
}

/// Reads the header in the first five bytes, whatever stands behind them (section 4.2 of the standard).
pub fn front_of(bytes: &[u8]) -> Front
    requires { 5 ≤ length bytes.now }
    ensures header { result.header ≡ header_of bytes.now }
    ensures kept { result.kept ≡ header_crc_in bytes.now }
    ensures computed { result.computed ≡ crc_of (header_of bytes.now) }
    ensures words { result.header.words ≤ 127 }
{
    let (header, kept) = header_at(&bytes[..5]);
    Front {
        header,
        kept,
        computed: header_crc(header.sync, header.startup, header.id, header.words),
    }
}
