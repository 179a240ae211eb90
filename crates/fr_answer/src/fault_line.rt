ghost use Rattle.std.specs.Prelude.{◌≡◌, codes};
ghost use Rattle.fr_text.specs.Pieces.{line};
ghost use Rattle.fr_text.specs.Told.{refusal};
ghost use Rattle.fr_frame.specs.declared.fault.FrameFault.TheVariants.{FrameCrc};
ghost use Rattle.fr_answer.specs.FrameText.{fault_text};

use fr_frame::FrameFault;
use fr_text::Piece::{Hex, Natural, Word};
use fr_text::{Line, Status, Told, line_of};

// What is told of bytes that are no frame, by their first fault.
pub(crate) fn no_frame(fault: FrameFault) -> Told
    ensures { result ≡ refusal (fault_text (codes "frame: ") fault) }
{
    Told {
        status: Status::No,
        line: fault_line(fault),
    }
}

fn fault_line(fault: FrameFault) -> Line
    ensures { result ≡ line (fault_text (codes "frame: ") fault) }
{
    match fault {
        FrameFault::Short { given } => { line_of(&[Word(b"frame: short "), Natural(given as u64)]) }
        FrameFault::HeaderCrc { kept, computed } => line_of(&[
            Word(b"frame: header crc kept "),
            Hex(u32::from(kept), 3),
            Word(b" computed "),
            Hex(u32::from(computed), 3),
        ]),
        FrameFault::Length { stated, given } => line_of(&[
            Word(b"frame: length stated "),
            Natural(stated as u64),
            Word(b" given "),
            Natural(given as u64),
        ]),
        FrameFault::FrameCrc { kept, computed } => frame_crc_line(kept, computed),
        FrameFault::ZeroId => line_of(&[Word(b"frame: zero id")]),
        FrameFault::StartupNotSync => line_of(&[Word(b"frame: startup without sync")]),
    }
}

fn frame_crc_line(kept: u32, computed: u32) -> Line
    ensures { result ≡ line (fault_text (codes "frame: ") (FrameCrc kept computed)) }
{
    line_of(&[
        Word(b"frame: frame crc kept "),
        Hex(kept, 6),
        Word(b" computed "),
        Hex(computed, 6),
    ])
}
