ghost use Rattle.std.specs.Prelude.{◌≡◌, ℕ, ◌+◌, ◌*◌, ◌≤◌, [], ◌++◌, ◌⊎◌, Some, None, IfSome, length, take, drop};
ghost use Rattle.fr_frame.specs.Frame.{IsFrameWith};
ghost use Rattle.fr_capture.specs.Rest.{fault_in, wanted};
ghost use Rattle.fr_capture.specs.View.{HasFault, IsChecked, IsFaultOfWhole, IsOpen};

use crate::fault::{CaptureFault, capture_fault_of};
use crate::kept::Kept;
use fr_base::Channel;
use fr_frame::{Frame, Header, a_fault_is_no_frame, decode, front_of};

/// The header of a whole frame, and both its CRCs.
#[derive(Clone, Copy, Debug, PartialEq, Eq)]
pub struct Checks {
    /// The header.
    pub header: Header,
    /// The header CRC, of 11 bits.
    pub header_crc: u16,
    /// The frame CRC, of 24 bits.
    pub frame_crc: u32,
}

// How many bytes are to be there before more can be said than of those that are there.
pub(crate) fn wanted(kept: &[u8]) -> usize
    ensures value { result ≡ wanted kept.now }
    ensures least { 5 ≤ result }
    ensures most { result ≤ 262 }
{
    if kept.len() < 5 {
        return 5;
    }
    let front = front_of(kept);
    if front.kept == front.computed {
        8 + 2 * usize::from(front.header.words)
    } else {
        5
    }
}

// Takes what is wanted of a piece, as far as it is there, and answers how many bytes that are.
fn fill_once(kept: &mut Kept, piece: &[u8]) -> usize
    requires { length kept.old ≤ wanted kept.old }
    ensures kept { kept.new ≡ kept.old ++ take result piece.now }
    ensures within { result ≤ length piece.now }
    ensures short { length kept.new ≤ wanted kept.old }
    ensures enough { (result ≡ length piece.now) ⊎ (length kept.new ≡ wanted kept.old) }
{
    let missing = missing(kept.as_slice());
    let count = missing.min(piece.len());
    kept.append(&piece[..count]);
    count
}

// How many bytes are wanted beside those that are there.
fn missing(kept: &[u8]) -> usize
    requires { length kept.now ≤ wanted kept.now }
    ensures value { length kept.now + result ≡ wanted kept.now }
    ensures most { length kept.now + result ≤ 262 }
{
    wanted(kept) - kept.len()
}

// Takes bytes of a piece until a frame is whole, a fault is shown, or the piece ends, and answers how many.
pub(crate) fn fill(kept: &mut Kept, piece: &[u8]) -> usize
    requires { length kept.old ≤ wanted kept.old }
    ensures kept { kept.new ≡ kept.old ++ take result piece.now }
    ensures within { result ≤ length piece.now }
    ensures short { length kept.new ≤ wanted kept.new }
    ensures enough { (result ≡ length piece.now) ⊎ (length kept.new ≡ wanted kept.new) }
{
    if kept.as_slice().is_empty() && piece.len() >= 5 {
        return fill_anew(kept, piece);
    }
    let first = fill_once(kept, piece);
    let second = fill_once(kept, &piece[first..]);
    first + second
}

// The same, where nothing is there yet and the piece has a header: that is read where it lies.
fn fill_anew(kept: &mut Kept, piece: &[u8]) -> usize
    requires none { kept.old ≡ [] }
    requires header { 5 ≤ length piece.now }
    ensures kept { kept.new ≡ kept.old ++ take result piece.now }
    ensures within { result ≤ length piece.now }
    ensures short { length kept.new ≤ wanted kept.new }
    ensures enough { (result ≡ length piece.now) ⊎ (length kept.new ≡ wanted kept.new) }
{
    let count = begun(piece);
    kept.append(&piece[..count]);
    count
}

// How many bytes of a piece with a header are taken where nothing is there yet.
fn begun(piece: &[u8]) -> usize
    requires { 5 ≤ length piece.now }
    ensures within { result ≤ length piece.now }
    ensures least { 5 ≤ result }
    ensures most { result ≤ wanted piece.now }
    ensures room { result ≤ 262 }
    ensures enough { (result ≡ length piece.now) ⊎ (result ≡ wanted piece.now) }
{
    wanted(piece).min(piece.len())
}

// The frame that the bytes are, all of them, if they are one.
pub(crate) fn whole_in(channel: Channel, kept: &[u8]) -> Option<Checks>
    ensures found { IfSome result (λ checks. IsChecked channel checks kept.now) }
    ensures none { result ≡ None → HasFault channel kept.now }
{
    match decode(channel, kept) {
        Ok(frame) => Some(Checks {
            header: frame.header,
            header_crc: frame.header_crc,
            frame_crc: frame.frame_crc,
        }),
        Err(_) => None,
    }
}

// The frame that the bytes are.
pub(crate) fn frame_in<'a>(channel: Channel, checks: &Checks, kept: &'a [u8]) -> Frame<'a>
    requires { IsChecked channel checks.now kept.now }
    ensures { IsFrameWith channel result.header result.payload.now result.header_crc result.frame_crc kept.now }
{
    let Checks {
        header,
        header_crc,
        frame_crc,
    } = *checks;
    Frame {
        header,
        payload: payload_at(kept, usize::from(header.words)),
        header_crc,
        frame_crc,
    }
}

// The payload behind a header, of so many words.
fn payload_at(kept: &[u8], words: usize) -> &[u8]
    requires { 5 + 2 * words ≤ length kept.now }
    ensures { result.now ≡ take (2 * words) (drop 5 kept.now) }
{
    &kept[5..5 + 2 * words]
}

// The fault of bytes that no frame begins, and of which no more are there than were wanted.
pub(crate) fn fault_of(channel: Channel, kept: &[u8]) -> CaptureFault
    requires { IsOpen channel kept.now }
    ensures { fault_in channel kept.now ≡ Some result }
{
    if kept.len() < 5 {
        return CaptureFault::Cut {
            needed: 8,
            given: kept.len(),
        };
    }
    let front = front_of(kept);
    if front.kept != front.computed {
        return CaptureFault::HeaderCrc {
            kept: front.kept,
            computed: front.computed,
        };
    }
    let needed = 8 + 2 * usize::from(front.header.words);
    if kept.len() < needed {
        return CaptureFault::Cut {
            needed,
            given: kept.len(),
        };
    }
    fault_of_whole(channel, kept)
}

// The fault of bytes of a frame's length that are none.
fn fault_of_whole(channel: Channel, kept: &[u8]) -> CaptureFault
    requires { HasFault channel kept.now }
    ensures { IsFaultOfWhole channel kept.now result }
{
    a_fault_is_no_frame();
    match decode(channel, kept) {
        Ok(_) => unreachable!(),
        Err(fault) => capture_fault_of(fault),
    }
}
