ghost use Rattle.std.specs.Prelude.{◌≡◌, ◌≤◌, ◌-◌, ℕ, List, length, take, drop, IfOk, IfErr, OnErr, IsOkAnd};
ghost use Rattle.fr_frame.specs.Frame.{IsFrameWith, IsFrame, IsNoFrame, IsPartAt};
ghost use Rattle.fr_frame.specs.Fault.{IsFirstFault};

use crate::fault::FrameFault;
use crate::header::{Header, header_at, trailer_at};
use fr_base::Channel;
use fr_crc::{frame_crc, header_crc};

/// A frame that was read from bytes.
#[derive(Clone, Copy, Debug, PartialEq, Eq)]
pub struct Frame<'a> {
    /// The header that stands before the payload.
    pub header: Header,
    /// The payload, a part of the bytes: two bytes a word.
    pub payload: &'a [u8],
    /// The header CRC, of 11 bits.
    pub header_crc: u16,
    /// The frame CRC, of 24 bits.
    pub frame_crc: u32,
}

// The payload where it lies, between the header and `end`.
fn payload_in(bytes: &[u8], end: usize) -> &[u8]
    requires start { 5 ≤ end }
    requires within { end ≤ length bytes.now }
    ensures part { IsPartAt result bytes.entry 5 }
    ensures value { result.now ≡ take (end - 5) (drop 5 bytes.now) }
{
    &bytes[5..end]
}

/// Reads the frame that the bytes are on this channel, all of them, or tells their first fault (sections
/// 4.2 to 4.5 of the standard). That a frame with the startup indicator set has the sync indicator set
/// too is asked of received frames here, while the standard asks it of senders.
pub fn decode(channel: Channel, bytes: &[u8]) -> Result<Frame<'_>, FrameFault>
    // The frame is that of the bytes, with both its CRCs.
    ensures found { IfOk result (λ f.
        IsFrameWith channel f.header f.payload.now f.header_crc f.frame_crc bytes.now) }
    // The payload is the bytes' own part after the header.
    ensures part { IfOk result (λ f. IsPartAt f.payload bytes.entry 5) }
    // Only what is no frame is refused.
    ensures only { OnErr result (IsNoFrame channel bytes.now) }
    // What is a frame is read as that frame.
    ensures back { (header : Header) (payload : List ℕ) →
        IsFrame channel header payload bytes.now →
        IsOkAnd result (λ f. (f.header ≡ header) × (f.payload.now ≡ payload)) }
    // The fault is the first one.
    ensures fault { IfErr result (IsFirstFault channel bytes.now) }
{
    if bytes.len() < 8 {
        return Err(FrameFault::Short { given: bytes.len() });
    }
    let (header, kept) = header_at(&bytes[..5]);
    let computed = header_crc(header.sync, header.startup, header.id, header.words);
    if kept != computed {
        return Err(FrameFault::HeaderCrc { kept, computed });
    }
    let end = 5 + 2 * usize::from(header.words);
    if bytes.len() != end + 3 {
        return Err(FrameFault::Length {
            stated: end + 3,
            given: bytes.len(),
        });
    }
    let trailer = trailer_at(&bytes[end..]);
    let whole = frame_crc(channel, &bytes[..end]);
    if trailer != whole {
        return Err(FrameFault::FrameCrc {
            kept: trailer,
            computed: whole,
        });
    }
    if header.id == 0 {
        return Err(FrameFault::ZeroId);
    }
    if header.startup && !header.sync {
        return Err(FrameFault::StartupNotSync);
    }
    Ok(Frame {
        header,
        payload: payload_in(bytes, end),
        header_crc: kept,
        frame_crc: trailer,
    })
}
