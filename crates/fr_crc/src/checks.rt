ghost use Rattle.std.specs.Prelude.{◌≡◌, ℕ, ◌≤◌, length};
ghost use Rattle.fr_crc.specs.Crc.{frame_start, IsHeaderCrc, IsFrameCrc};

use crate::body::after_body;
use crate::halves::after_twenty;
use crate::tables::covered;
use fr_base::Channel;

// The start value of the header CRC, on both channels.
pub(crate) const HEADER_START: u32 = 0x01A;

// The start value of the frame CRC.
pub(crate) fn start_on(channel: Channel) -> u32
    ensures { result ≡ frame_start channel }
{
    match channel {
        Channel::A => 0xFEDCBA,
        Channel::B => 0xABCDEF,
    }
}

/// The header CRC, of 11 bits, over the 20 bits of sync indicator, startup indicator, frame ID (at most
/// 2047) and payload length (at most 127 two-byte words). It is the same on both channels (section
/// 4.5.2 of the standard).
pub fn header_crc(sync: bool, startup: bool, id: u16, words: u8) -> u16
    requires id { id ≤ 2047 }
    requires words { words ≤ 127 }
    ensures { IsHeaderCrc sync startup id words result }
{
    after_twenty(covered(sync, startup, id, words))
}

/// The frame CRC, of 24 bits, over the bytes of header and payload (at most 259) as they are sent on
/// this channel; the channels differ in the start value (section 4.5.3 of the standard).
pub fn frame_crc(channel: Channel, body: &[u8]) -> u32
    requires { length body.now ≤ 259 }
    ensures { IsFrameCrc channel body.now result }
{
    after_body(start_on(channel), body)
}
