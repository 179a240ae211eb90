// A capture is fed pieces, and tells the frames and the fault.
use fr_base::Channel;
use fr_capture::{Capture, CaptureFault};
use fr_frame::{Header, encode};

// A sync frame, a frame of one word, and three bytes.
const TWO: [u8; 21] = [
    0x18, 0x01, 0x00, 0x6F, 0x00, 0x9A, 0xE5, 0x25, 0x20, 0x05, 0x02, 0xB3, 0x89, 0x12, 0x34, 0x75,
    0x12, 0x6B, 0x18, 0x01, 0x00,
];

// How many bytes of a piece are used, and the place of a frame that was completed.
type Part = (usize, Option<u64>);

// How a capture ends.
type End = Result<u64, (u64, CaptureFault)>;

// Two pieces, what becomes of each, and the end.
const FED: &[(&[u8], &[u8], (Part, Part, End))] = &[
    // A piece ends with its first frame.
    (
        b"\x18\x01\x00\x6F\x00\x9A\xE5\x25\x20\x05\x02\xB3\x89\x12\x34\x75\x12\x6B\x18\x01\x00",
        b"\x20\x05\x02\xB3\x89\x12\x34\x75\x12\x6B\x18\x01\x00",
        ((8, Some(0)), (10, Some(8)), Ok(18)),
    ),
    // A wrong header is shown by five bytes.
    (
        b"\x18\x01\x02\x6F\x00\x18\x01",
        b"\x18\x01\x02\x6F\x00\x18\x01",
        ((5, None), (0, None), WRONG_HEADER),
    ),
    // A frame of four words, which are a frame: it is none.
    (
        b"\x20\x07\x09\xCC\x03\x18\x01\x00\x6F\x00\x9A\xE5\x25\x1A\xBD\x91",
        b"",
        ((16, Some(0)), (0, None), Ok(16)),
    ),
    // Bytes in which no frame begins, though one stands further on: a wrong frame CRC behind a payload that is a
    // frame, a wrong header CRC before it, a frame of no ID, and a startup frame that is no sync frame, with a frame
    // behind them. No frame is looked for behind a fault.
    (
        b"\x20\x07\x09\xCC\x02\x18\x01\x00\x6F\x00\x9A\xE5\x25\x1A\xBD\x91",
        b"\x18\x01\x00\x6F\x00\x9A\xE5\x25",
        ((16, None), (0, None), WRONG_FRAME),
    ),
    (
        b"\x20\x07\x0B\xCC\x03\x18\x01\x00\x6F\x00\x9A\xE5\x25\x1A\xBD\x91",
        b"\x18\x01\x00\x6F\x00\x9A\xE5\x25",
        ((5, None), (0, None), OTHER_HEADER),
    ),
    (
        b"\x00\x00\x01\xDA\x80\x5F\xA2\x6B\x18\x01\x00\x6F\x00\x9A\xE5\x25",
        b"\x18\x01\x00\x6F\x00\x9A\xE5\x25",
        ((8, None), (0, None), Err((0, CaptureFault::ZeroId))),
    ),
    (
        b"\x08\x01\x01\x1F\x80\xF6\xC4\x62\x18\x01\x00\x6F\x00\x9A\xE5\x25",
        b"\x18\x01\x00\x6F\x00\x9A\xE5\x25",
        ((8, None), (0, None), Err((0, CaptureFault::StartupNotSync))),
    ),
];

const WRONG_HEADER: End = Err((
    0,
    CaptureFault::HeaderCrc {
        kept: 444,
        computed: 569,
    },
));

const OTHER_HEADER: End = Err((
    0,
    CaptureFault::HeaderCrc {
        kept: 1840,
        computed: 1205,
    },
));

const WRONG_FRAME: End = Err((
    0,
    CaptureFault::FrameCrc {
        kept: 1_752_465,
        computed: 7_075_418,
    },
));

fn fed(first: &[u8], second: &[u8]) -> Option<(Part, Part, End)> {
    if first.len() > 100 || second.len() > 100 {
        return None;
    }
    let mut capture = Capture::new(Channel::A);
    let (one, other) = (capture.feed(first), capture.feed(second));
    Some(((one.used, one.at), (other.used, other.at), capture.finish()))
}

// The place, the ID and the frame CRC of both frames.
const FRAMES: &[(u64, u16, u32)] = &[(0, 1, 0x9AE525), (8, 5, 0x75126B)];

// How many of the two frames are told, in this order, of bytes that are fed one at a time, and the end; no such number
// where another frame is told.
fn fed_by_bytes(bytes: &[u8]) -> (usize, End) {
    let mut capture = Capture::new(Channel::A);
    let mut told = 0usize;
    for done in 0..bytes.len() {
        let fed = capture.feed(&bytes[done..done + 1]);
        if let Some(place) = fed.at {
            let frame = capture.frame();
            let is_next = FRAMES.get(told) == Some(&(place, frame.header.id, frame.frame_crc));
            told = if is_next {
                told.saturating_add(1)
            } else {
                usize::MAX
            };
        }
    }
    (told, capture.finish())
}

fn cut(place: usize, needed: usize, end: usize) -> End {
    let given = end.saturating_sub(place);
    Err((place as u64, CaptureFault::Cut { needed, given }))
}

// How the two frames end where so many of their bytes are there.
fn end_of(end: usize) -> End {
    match end {
        0 | 8 | 18 => Ok(end as u64),
        1..=7 => cut(0, 8, end),
        9..=12 => cut(8, 8, end),
        13..=17 => cut(8, 10, end),
        _ => cut(18, 8, end),
    }
}

// Whether a capture takes a frame of so many words whole, at place 0.
fn is_taken(channel: Channel, words: u8) -> bool {
    let header = Header {
        reserved: false,
        preamble: false,
        null_bit: true,
        sync: false,
        startup: false,
        id: 2047,
        words,
        cycle: 63,
    };
    let payload = [0xA5; 254];
    let mut bytes = [0; 262];
    match encode(
        channel,
        &header,
        &payload[..2 * usize::from(words.min(127))],
        &mut bytes,
    ) {
        Ok(count) => {
            let fed = Capture::new(channel).feed(&bytes[..count]);
            fed.used == count && fed.at == Some(0)
        }
        Err(_) => false,
    }
}

#[test]
fn frames_are_told_piece_by_piece(rt: HostRuntime) {
    for (first, second, wanted) in FED {
        assert!(rt; fed(first, second) == Some(*wanted));
    }
}

// How a capture ends that is fed the first bytes of the two frames in two pieces.
fn end_in_pieces(end: usize) -> End {
    let mut capture = Capture::new(Channel::A);
    let bytes = &TWO[..end.min(21)];
    let used = capture.feed(bytes).used;
    capture.feed(&bytes[used..]);
    capture.finish()
}

#[test]
fn each_cut_is_told(rt: HostRuntime) {
    for end in 0..=21 {
        if end <= 18 {
            assert!(rt; end_in_pieces(end) == end_of(end));
        }
        let frames = usize::from(end >= 8) + usize::from(end >= 18);
        assert!(rt; fed_by_bytes(&TWO[..end]) == (frames, end_of(end)));
    }
}

// The bytes before the frame CRC are 5, 7, 9, 11, 13 and 259: one by one, and with a part of eight or more.
#[test]
fn frames_of_all_lengths_are_taken(rt: HostRuntime) {
    for words in [0, 1, 2, 3, 4, 127] {
        for channel in [Channel::A, Channel::B] {
            assert!(rt; is_taken(channel, words));
        }
    }
}
