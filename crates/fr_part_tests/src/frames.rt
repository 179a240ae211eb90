// Frames are decoded and encoded.
ghost use Rattle.std.specs.Prelude.{IsTrue};

use fr_base::Channel;
use fr_frame::{EncodeFault, Frame, FrameFault, Front, Header, decode, encode, front_of};

const HEADER: Header = Header {
    reserved: false,
    preamble: false,
    null_bit: true,
    sync: false,
    startup: false,
    id: 2047,
    words: 127,
    cycle: 63,
};

// Bytes on a channel, and their first fault.
const FAULTS: &[(Channel, &[u8], FrameFault)] = &[
    (
        Channel::B,
        b"\x18\x01\x00\x6F\x00\x9A\xE5\x25",
        FrameFault::FrameCrc {
            kept: 0x9AE525,
            computed: 0x716B40,
        },
    ),
    (
        Channel::A,
        b"\x18\x01\x00\x6F\x00\x9A\xE5",
        FrameFault::Short { given: 7 },
    ),
    (Channel::A, b"", FrameFault::Short { given: 0 }),
    (
        Channel::A,
        b"\x18\x01\x02\x6F\x00\x9A\xE5\x25",
        FrameFault::HeaderCrc {
            kept: 0x1BC,
            computed: 0x239,
        },
    ),
    (
        Channel::A,
        b"\x18\x01\x02\x8E\x40\x00\x00\x00",
        FrameFault::Length {
            stated: 10,
            given: 8,
        },
    ),
    (
        Channel::A,
        b"\x00\x00\x01\xDA\x80\x5F\xA2\x6B",
        FrameFault::ZeroId,
    ),
    (
        Channel::A,
        b"\x08\x01\x01\x1F\x80\xF6\xC4\x62",
        FrameFault::StartupNotSync,
    ),
];

// Whether a frame of one word is read.
fn is_read() -> bool {
    let bytes = [0x20, 0x05, 0x02, 0xB3, 0x89, 0x12, 0x34, 0x75, 0x12, 0x6B];
    let header = Header {
        id: 5,
        words: 1,
        cycle: 9,
        ..HEADER
    };
    let read = Frame {
        header,
        payload: &bytes[5..7],
        header_crc: 0x2CE,
        frame_crc: 0x75126B,
    };
    decode(Channel::A, &bytes) == Ok(read)
}

#[test]
fn rows_are_read_and_faults_are_the_first(rt: HostRuntime) {
    for (channel, bytes, fault) in FAULTS {
        assert!(rt; decode(*channel, bytes).err() == Some(*fault));
    }
    assert!(rt; is_read());
}

const SYNC: Header = Header {
    reserved: false,
    preamble: false,
    null_bit: false,
    sync: true,
    startup: true,
    id: 1,
    words: 0,
    cycle: 0,
};

const ONE_WORD: Header = Header { words: 1, ..SYNC };

// Five bytes, and more behind them, and what they say: a header with the CRC that it keeps and the one that is computed of it.
const FRONTS: &[(&[u8], Front)] = &[
    (
        b"\x18\x01\x00\x6F\x00",
        Front {
            header: SYNC,
            kept: 0x1BC,
            computed: 0x1BC,
        },
    ),
    (
        b"\x18\x01\x02\x6F\x00\x9A\xE5",
        Front {
            header: ONE_WORD,
            kept: 0x1BC,
            computed: 0x239,
        },
    ),
    (
        b"\x27\xFF\xFE\x4D\x7F",
        Front {
            header: HEADER,
            kept: 0x135,
            computed: 0x135,
        },
    ),
];

fn is_front(bytes: &[u8], front: &Front) -> bool {
    bytes.len() >= 5 && front_of(bytes) == *front
}

#[test]
fn the_front_of_a_frame_is_read(rt: HostRuntime) {
    for (bytes, front) in FRONTS {
        assert!(rt; is_front(bytes, front));
    }
}

// What is written is read back: proved for every frame, and run for one.
fn is_read_back(channel: Channel, header: &Header, payload: &[u8], out: &mut [u8]) -> bool
    ensures { IsTrue result }
{
    match encode(channel, header, payload, out) {
        Ok(count) => match decode(channel, &out[..count]) {
            Ok(frame) => frame.header == *header && frame.payload == payload,
            Err(_) => false,
        },
        Err(_) => true,
    }
}

// Whether a frame that is a byte longer than the room is refused, and nothing is written.
fn is_too_long() -> bool {
    let mut narrow = [7; 261];
    let refused = encode(Channel::A, &HEADER, &[0; 254], &mut narrow);
    let fault = EncodeFault::Room {
        needed: 262,
        given: 261,
    };
    refused == Err(fault) && narrow == [7; 261]
}

// Whether the longest frame is written, and read back, on channel A.
fn is_written() -> bool {
    let payload = [0; 254];
    let mut out = [7; 262];
    if encode(Channel::A, &HEADER, &payload, &mut out) != Ok(262) {
        return false;
    }
    if !out.starts_with(&[0x27, 0xFF, 0xFE, 0x4D, 0x7F]) {
        return false;
    }
    match decode(Channel::A, &out) {
        Ok(frame) => frame.header == HEADER && frame.payload == payload.as_slice(),
        Err(_) => false,
    }
}

#[test]
fn the_longest_frame_is_written_and_read_back(rt: HostRuntime) {
    assert!(rt; is_too_long());
    assert!(rt; is_written());
    assert!(rt; is_read_back(Channel::B, &HEADER, &[0; 254], &mut [7; 262]));
}
