ghost use Rattle.std.specs.Prelude.{◌≡◌, ◌≤◌, ◌+◌, ◌*◌, length};
ghost use Rattle.fr_text.specs.Pieces.{Spells};
ghost use Rattle.fr_answer.specs.FrameText.{digit, frame_line, payload_text};

use fr_base::Channel;
use fr_frame::Frame;
use fr_text::Piece::{Bytes, Hex, Natural, Word};
use fr_text::{Line, Piece, line_of};

// The line of a frame on a channel.
pub(crate) fn frame_line(channel: Channel, frame: &Frame<'_>) -> Line
    requires { length frame.now.payload.now ≤ 254 }
    ensures { result ≡
        frame_line channel frame.now.header frame.now.payload.now frame.now.header_crc frame.now.frame_crc }
{
    let header = &frame.header;
    line_of(&[
        Word(b"frame "),
        Word(channel.letter()),
        Word(b" id "),
        Natural(u64::from(header.id)),
        Word(b" words "),
        Natural(u64::from(header.words)),
        Word(b" cycle "),
        Natural(u64::from(header.cycle)),
        Word(b" reserved "),
        digit(header.reserved),
        Word(b" preamble "),
        digit(header.preamble),
        Word(b" null "),
        digit(header.null_bit),
        Word(b" sync "),
        digit(header.sync),
        Word(b" startup "),
        digit(header.startup),
        Word(b" header "),
        Hex(u32::from(frame.header_crc), 3),
        Word(b" crc "),
        Hex(frame.frame_crc, 6),
        Word(b" payload "),
        payload(frame.payload),
    ])
}

fn digit(indicator: bool) -> Piece<'static>
    ensures { Spells result (digit indicator) 1 }
{
    Word(if indicator { b"1" } else { b"0" })
}

fn payload(bytes: &[u8]) -> Piece<'_>
    ensures { Spells result (payload_text bytes.now) (1 + 2 * length bytes.now) }
{
    if bytes.is_empty() {
        Word(b"-")
    } else {
        Bytes(bytes)
    }
}
