ghost use Rattle.std.specs.Prelude.{◌≡◌, ◌≤◌, length};
ghost use Rattle.fr_base.specs.Device.{Puts};
ghost use Rattle.fr_program.specs.Around.{around_of};
ghost use Rattle.fr_program.specs.Command.{CommandEnds};
ghost use Rattle.fr_program.specs.Failure.{EndingWritesNothing};
ghost use Rattle.fr_answer.specs.FrameAnswer.{frame_command};
ghost use Rattle.fr_answer.specs.FrameText.{frame_line};

use crate::fault_line::no_frame;
use crate::frame_line::frame_line;
use fr_base::{Channel, PutFault, Shelf, Sink};
use fr_frame::{Frame, decode};
use fr_program::Failure;
use fr_text::{loaded, put_line};
use std::alloc::Global;

/// Decodes the bytes of the file as a frame on the channel, and writes its line in one put. It loads the file
/// once. A failure comes where the file can't be loaded, is no frame, or memory runs out (`Stopped`), or where the
/// sink counted a fault (`WriteFault`).
pub fn answer_frame<S: Shelf, O: Sink>(
    alloc: Global,
    channel: Channel,
    file: &str,
    shelf: &mut S,
    out: &mut O,
) -> Result<(), Failure>
    ensures ends { CommandEnds (frame_command channel file.now)
        (around_of (S.state shelf.old) (S.state shelf.new) (O.state out.old) (O.state out.new)) result }
    ensures unwritten { EndingWritesNothing result → out.new ≡ out.old }
{
    let bytes = loaded(alloc, b"frame", file, shelf)?;
    match decode(channel, &bytes) {
        Ok(frame) => match print(channel, &frame, out) {
            Ok(()) => Ok(()),
            Err(_) => Err(Failure::WriteFault),
        },
        Err(fault) => Err(Failure::Stopped(no_frame(fault))),
    }
}

fn print<O: Sink>(channel: Channel, frame: &Frame<'_>, out: &mut O) -> Result<(), PutFault>
    requires { length frame.now.payload.now ≤ 254 }
    ensures { Puts result (O.state out.old) (O.state out.new)
        (frame_line channel frame.now.header frame.now.payload.now frame.now.header_crc frame.now.frame_crc) }
{
    put_line(&frame_line(channel, frame), out)
}
