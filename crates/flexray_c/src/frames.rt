ghost use Rattle.std.specs.Prelude.{◌≡◌, ◌⊎◌};
ghost use Rattle.flexray_c.specs.Frames.{DecodeEnds, EncodeEnds, IsDecoded, IsFaulted, IsNext, NextEnds, channel_numbered, expected, decode_number, encode_number, flag_given, frame_told, header_given};

use fr_base::Channel;
use fr_frame::{EncodeFault, FrameFault, Header, decode, encode, front_of};

/// A frame without its payload. Indicators are told as 0 or 1; where they are given, every number but 0 is set.
#[derive(Clone, Copy)]
#[repr(C)]
pub struct Frame {
    /// The frame CRC, of 24 bits.
    pub frame_crc: u32,
    /// The header CRC, of 11 bits.
    pub header_crc: u16,
    /// The frame ID.
    pub id: u16,
    /// The payload length in two-byte words.
    pub words: u8,
    /// The cycle count.
    pub cycle: u8,
    /// The reserved bit.
    pub reserved: u8,
    /// The payload preamble indicator.
    pub preamble: u8,
    /// The null frame indicator: set where the payload is valid.
    pub null_bit: u8,
    /// The sync frame indicator.
    pub sync: u8,
    /// The startup frame indicator.
    pub startup: u8,
}

// What is answered of a channel that is none.
const NO_CHANNEL: u32 = 7;

/// Reads the frame that the bytes are on the channel of this number, 0 for A and 1 for B: 0, and the frame without its
/// payload; or the number of the first fault, 1 to 6, or 7 where there is no such channel, and then the frame stays as it was.
#[unsafe(no_mangle)]
pub extern "C" fn flexray_frame_decode(channel: u32, bytes: &[u8], frame: &mut Frame) -> u32
    ensures { DecodeEnds channel bytes.now frame.old frame.new result }
{
    match channel_of(channel) {
        Some(channel) => read(channel, bytes, frame),
        None => NO_CHANNEL,
    }
}

/// Reads the frame that begins the bytes on the channel of this number, whatever stands behind it: 0, the frame without its
/// payload, and the number of its bytes. Where the bytes end before it does, 1, and how many are to be there before more can
/// be said. Else the number of the first fault, 2, 4, 5 or 6, or 7 where there is no such channel, and `count` is 0.
#[unsafe(no_mangle)]
pub extern "C" fn flexray_frame_next(
    channel: u32,
    bytes: &[u8],
    frame: &mut Frame,
    count: &mut usize,
) -> u32
    ensures { NextEnds channel bytes.now frame.old frame.new count.new result }
{
    *count = 0;
    match channel_of(channel) {
        Some(channel) => read_next(channel, bytes, frame, count),
        None => NO_CHANNEL,
    }
}

/// Writes the frame of this header and payload on the channel of this number to the front of `out`: 0, and the number of its bytes;
/// or the number of the first fault, 6 or 8 to 11, or 7 where there is no such channel, and then `out` stays as it was. Where
/// only the room is too small, `length` has the number of bytes that are needed, and with every other fault 0.
#[unsafe(no_mangle)]
pub extern "C" fn flexray_frame_encode(
    channel: u32,
    frame: &Frame,
    payload: &[u8],
    out: &mut [u8],
    length: &mut usize,
) -> u32
    ensures { EncodeEnds channel frame.now payload.now out.old out.new length.new result }
{
    *length = 0;
    let Some(channel) = channel_of(channel) else {
        return NO_CHANNEL;
    };
    match encode(channel, &given(frame), payload, out) {
        Ok(count) => {
            *length = count;
            0
        }
        Err(fault) => {
            if let EncodeFault::Room { needed, given: _ } = fault {
                *length = needed;
            }
            refusal_number(fault)
        }
    }
}

// Reads the frame that the bytes are, all of them.
fn read(channel: Channel, bytes: &[u8], frame: &mut Frame) -> u32
    ensures { IsDecoded channel bytes.now frame.new result
        ⊎ IsFaulted channel bytes.now frame.old frame.new result }
{
    match decode(channel, bytes) {
        Ok(found) => {
            *frame = told(&found.header, found.header_crc, found.frame_crc);
            0
        }
        Err(fault) => number_of(fault),
    }
}

// Reads the frame that begins the bytes, where all of it is there.
fn read_next(channel: Channel, bytes: &[u8], frame: &mut Frame, count: &mut usize) -> u32
    requires { count.old ≡ 0 }
    ensures { IsNext channel bytes.now frame.old frame.new count.new result }
{
    let whole = expected_in(bytes);
    if bytes.len() < whole {
        *count = whole;
        return 1;
    }
    let ended = read(channel, &bytes[..whole], frame);
    if ended == 0 {
        *count = whole;
    }
    ended
}

// How many bytes are to be there before more can be said of the frame that begins these.
fn expected_in(bytes: &[u8]) -> usize
    ensures { result ≡ expected bytes.now }
{
    if bytes.len() < 8 {
        return 8;
    }
    let front = front_of(bytes);
    if front.kept == front.computed {
        8 + 2 * usize::from(front.header.words)
    } else {
        8
    }
}

// The channel of a number.
fn channel_of(number: u32) -> Option<Channel>
    ensures { result ≡ channel_numbered number }
{
    match number {
        0 => Some(Channel::A),
        1 => Some(Channel::B),
        _ => None,
    }
}

// A header and both CRCs as they are told.
fn told(header: &Header, header_crc: u16, frame_crc: u32) -> Frame
    ensures { result ≡ frame_told header.now header_crc frame_crc }
{
    Frame {
        frame_crc,
        header_crc,
        id: header.id,
        words: header.words,
        cycle: header.cycle,
        reserved: u8::from(header.reserved),
        preamble: u8::from(header.preamble),
        null_bit: u8::from(header.null_bit),
        sync: u8::from(header.sync),
        startup: u8::from(header.startup),
    }
}

// The header that is given.
fn given(frame: &Frame) -> Header
    ensures { result ≡ header_given frame.now }
{
    Header {
        reserved: frame.reserved != 0,
        preamble: frame.preamble != 0,
        null_bit: frame.null_bit != 0,
        sync: frame.sync != 0,
        startup: frame.startup != 0,
        id: frame.id,
        words: frame.words,
        cycle: frame.cycle,
    }
}

// The number of a fault.
fn number_of(fault: FrameFault) -> u32
    ensures { result ≡ decode_number fault }
{
    match fault {
        FrameFault::Short { given: _ } => 1,
        FrameFault::HeaderCrc {
            kept: _,
            computed: _,
        } => 2,
        FrameFault::Length {
            stated: _,
            given: _,
        } => 3,
        FrameFault::FrameCrc {
            kept: _,
            computed: _,
        } => 4,
        FrameFault::ZeroId => 5,
        FrameFault::StartupNotSync => 6,
    }
}

// The number of a refusal.
fn refusal_number(fault: EncodeFault) -> u32
    ensures { result ≡ encode_number fault }
{
    match fault {
        EncodeFault::StartupNotSync => 6,
        EncodeFault::BadId => 8,
        EncodeFault::BadCycle => 9,
        EncodeFault::BadPayload { given: _, words: _ } => 10,
        EncodeFault::Room {
            needed: _,
            given: _,
        } => 11,
    }
}
