ghost use Rattle.std.specs.Prelude.{◌≡◌};
ghost use Rattle.fr_text.specs.Lines.{joined_lines};
ghost use Rattle.fr_capture.specs.declared.fault.CaptureFault.TheVariants.{FrameCrc};
ghost use Rattle.fr_capture.specs.CaptureText.{closing_text, fault_line, line_at, frames_line};

use crate::CaptureFault;
use crate::line_end::LineEnd;
use fr_frame::Frame;
use fr_text::Piece::{Hex, Natural, Word};
use fr_text::{Line, line_of};

// The line of a frame at a place. Its end is written first.
pub(crate) fn frame_line(place: u64, frame: &Frame<'_>) -> LineEnd
    ensures { result ≡ line_at place frame.now.header frame.now.frame_crc }
{
    let mut line = LineEnd::new();
    line.word(b"\n");
    line.hex(frame.frame_crc, 6);
    line.word(b" crc ");
    line.natural(u64::from(frame.header.cycle));
    line.word(b" cycle ");
    line.natural(u64::from(frame.header.words));
    line.word(b" words ");
    line.natural(u64::from(frame.header.id));
    line.word(b" id ");
    line.natural(place);
    line.word(b"at ");
    line
}

// How many frames and bytes there are, and how the recording ends.
pub(crate) fn end_lines(count: u64, end: Result<u64, (u64, CaptureFault)>) -> [Option<Line>; 2]
    ensures { joined_lines result ≡ closing_text count end }
{
    match end {
        Ok(bytes) => [
            Some(frames_line(count, bytes)),
            Some(line_of(&[Word(b"fault none")])),
        ],
        Err((place, fault)) => [
            Some(frames_line(count, place)),
            Some(fault_line(place, fault)),
        ],
    }
}

fn frames_line(count: u64, bytes: u64) -> Line
    ensures { result ≡ frames_line count bytes }
{
    line_of(&[
        Word(b"frames "),
        Natural(count),
        Word(b" bytes "),
        Natural(bytes),
    ])
}

fn fault_line(place: u64, fault: CaptureFault) -> Line
    ensures { result ≡ fault_line place fault }
{
    match fault {
        CaptureFault::Cut { needed, given } => line_of(&[
            Word(b"fault "),
            Natural(place),
            Word(b" cut needed "),
            Natural(needed as u64),
            Word(b" given "),
            Natural(given as u64),
        ]),
        CaptureFault::HeaderCrc { kept, computed } => line_of(&[
            Word(b"fault "),
            Natural(place),
            Word(b" header crc kept "),
            Hex(u32::from(kept), 3),
            Word(b" computed "),
            Hex(u32::from(computed), 3),
        ]),
        CaptureFault::FrameCrc { kept, computed } => frame_crc_line(place, kept, computed),
        CaptureFault::ZeroId => line_of(&[Word(b"fault "), Natural(place), Word(b" zero id")]),
        CaptureFault::StartupNotSync => line_of(&[
            Word(b"fault "),
            Natural(place),
            Word(b" startup without sync"),
        ]),
    }
}

fn frame_crc_line(place: u64, kept: u32, computed: u32) -> Line
    ensures { result ≡ fault_line place (FrameCrc kept computed) }
{
    line_of(&[
        Word(b"fault "),
        Natural(place),
        Word(b" frame crc kept "),
        Hex(kept, 6),
        Word(b" computed "),
        Hex(computed, 6),
    ])
}
