ghost use Rattle.std.specs.Prelude.{◌≡◌, ℕ, ◌+◌, ◌*◌, ◌≤◌, ◌↔◌, ◌++◌, length, take, drop, IsOk, IfOk, IfErr, OnErr, MatchOption};
ghost use Rattle.fr_frame.specs.Reading.{payload_in};
ghost use Rattle.fr_frame.specs.Refusal.{IsAccepted, IsFirstRefusal, IsEncoded};

use crate::fault::EncodeFault;
use crate::header::{Header, header_as_bytes, trailer_as_bytes};
use fr_base::Channel;
use fr_crc::{frame_crc, header_crc};

// The first reason not to write this header with so many bytes of payload into so many bytes.
fn refusal(header: &Header, given: usize, room: usize) -> Option<EncodeFault>
    ensures { MatchOption result (IsAccepted header.now given room)
        (IsFirstRefusal header.now given room) }
{
    let Header {
        sync,
        startup,
        id,
        words,
        cycle,
        ..
    } = *header;
    if id == 0 || id > 2047 {
        return Some(EncodeFault::BadId);
    }
    if cycle > 63 {
        return Some(EncodeFault::BadCycle);
    }
    if words > 127 || given != 2 * usize::from(words) {
        return Some(EncodeFault::BadPayload { given, words });
    }
    if startup && !sync {
        return Some(EncodeFault::StartupNotSync);
    }
    if room < 8 + given {
        return Some(EncodeFault::Room {
            needed: 8 + given,
            given: room,
        });
    }
    None
}

// Writes the piece over the bytes from `at` on.
fn put_at(out: &mut [u8], at: usize, piece: &[u8])
    requires { at + length piece.now ≤ length out.old }
    ensures written { take (at + length piece.now) out.new ≡ take at out.old ++ piece.now }
    ensures others { (n : ℕ) → at + length piece.now ≤ n → drop n out.new ≡ drop n out.old }
{
    out[at..at + piece.len()].copy_from_slice(piece);
}

// Writes a header that nothing stands against before its payload, and the frame CRC behind it, and answers how many
// bytes the frame has.
fn close(channel: Channel, header: &Header, out: &mut [u8]) -> usize
    requires { IsAccepted header.now (2 * header.now.words) (length out.old) }
    ensures { IsEncoded channel header.now (payload_in header.now out.old) out.old out.new result }
{
    let crc = header_crc(header.sync, header.startup, header.id, header.words);
    put_at(out, 0, &header_as_bytes(header, crc));
    let end = 5 + 2 * usize::from(header.words);
    let back = trailer_as_bytes(frame_crc(channel, &out[..end]));
    put_at(out, end, &back);
    end + 3
}

// Writes a frame that nothing stands against, and answers how many bytes it has.
fn write(channel: Channel, header: &Header, payload: &[u8], out: &mut [u8]) -> usize
    requires { IsAccepted header.now (length payload.now) (length out.old) }
    ensures { IsEncoded channel header.now payload.now out.old out.new result }
{
    put_at(out, 5, payload);
    close(channel, header, out)
}

/// Writes the frame of this header and payload on this channel to the start of `out`, and answers how
/// many bytes that are, 8 more than the payload has (sections 4.2 to 4.5 of the standard). The payload
/// has two bytes for each word that the header states.
pub fn encode(
    channel: Channel,
    header: &Header,
    payload: &[u8],
    out: &mut [u8],
) -> Result<usize, EncodeFault>
    // A frame is written exactly where nothing stands against it.
    ensures accepted { IsOk result ↔ IsAccepted header.now (length payload.now) (length out.old) }
    // The first bytes are the frame, and the rest is left.
    ensures written { IfOk result (IsEncoded channel header.now payload.now out.old out.new) }
    ensures unchanged { OnErr result (out.new ≡ out.old) }
    // The fault is the first one.
    ensures fault { IfErr result (IsFirstRefusal header.now (length payload.now) (length out.old)) }
{
    match refusal(header, payload.len(), out.len()) {
        Some(fault) => Err(fault),
        None => Ok(write(channel, header, payload, out)),
    }
}

/// Makes a frame of a payload that stands in `out` already, from its sixth byte on, two bytes for each word that the
/// header states: writes the header before it and the frame CRC for this channel behind it, and answers how many bytes
/// the frame has, 8 more than its payload (sections 4.2 to 4.5 of the standard).
pub fn seal(channel: Channel, header: &Header, out: &mut [u8]) -> Result<usize, EncodeFault>
    // A frame is made exactly where nothing stands against it.
    ensures accepted { IsOk result ↔ IsAccepted header.now (2 * header.now.words) (length out.old) }
    // The first bytes are the frame of what stood there as its payload, and the rest is left.
    ensures written { IfOk result
        (IsEncoded channel header.now (payload_in header.now out.old) out.old out.new) }
    ensures unchanged { OnErr result (out.new ≡ out.old) }
    // The fault is the first one.
    ensures fault { IfErr result (IsFirstRefusal header.now (2 * header.now.words) (length out.old)) }
{
    match refusal(header, 2 * usize::from(header.words), out.len()) {
        Some(first) => Err(first),
        None => Ok(close(channel, header, out)),
    }
}
