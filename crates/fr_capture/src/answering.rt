ghost use Rattle.std.specs.Prelude.{◌≡◌, ◌≤◌, length};
ghost use Rattle.fr_base.specs.Device.{Puts};
ghost use Rattle.fr_capture.specs.Frames.{AreFrames};
ghost use Rattle.fr_capture.specs.Walk.{frames_in};
ghost use Rattle.fr_program.specs.Around.{around_of};
ghost use Rattle.fr_program.specs.Command.{CommandEnds};
ghost use Rattle.fr_program.specs.Failure.{EndingWritesNothing};
ghost use Rattle.fr_capture.specs.CaptureAnswer.{capture_command};
ghost use Rattle.fr_capture.specs.CaptureText.{capture_text};

use crate::Capture;
use crate::feeding::put_frames;
use crate::lines::end_lines;
use fr_base::{Channel, MAX_FILE, PutFault, Shelf, Sink};
use fr_program::{Failure, Gathered};
use fr_text::{loaded, put_lines};
use std::alloc::Global;

/// Writes a line for each frame of the recording in the file, one after the other up to the first byte that no
/// frame explains, then how many frames and bytes these are, and then the reason. The lines of many frames are one
/// put. It loads the file once. A failure comes where the file can't be loaded or memory runs out (`Stopped`), or where the
/// sink counted a fault (`WriteFault`).
pub fn answer_capture<S: Shelf, O: Sink>(
    alloc: Global,
    channel: Channel,
    file: &str,
    shelf: &mut S,
    out: &mut O,
) -> Result<(), Failure>
    ensures ends { CommandEnds (capture_command channel file.now)
        (around_of (S.state shelf.old) (S.state shelf.new) (O.state out.old) (O.state out.new)) result }
    ensures unwritten { EndingWritesNothing result → out.new ≡ out.old }
{
    let bytes = loaded(alloc, b"capture", file, shelf)?;
    match print(alloc, channel, &bytes, out) {
        Ok(()) => Ok(()),
        Err(_) => Err(Failure::WriteFault),
    }
}

// Feeds the bytes to a capture, and writes what comes of it.
fn print<O: Sink>(
    alloc: Global,
    channel: Channel,
    bytes: &[u8],
    out: &mut O,
) -> Result<(), PutFault>
    requires { length bytes.now ≤ MAX_FILE }
    ensures puts { Puts result (O.state out.old) (O.state out.new) (capture_text channel bytes.now) }
    ensures frames { AreFrames channel bytes.now
        (frames_in channel bytes.now).frames (frames_in channel bytes.now).rest }
{
    let mut capture = Capture::new(channel);
    let mut waiting = Gathered::new(alloc);
    let count = put_frames(&mut capture, bytes, &mut waiting, out)?;
    waiting.put_all(out)?;
    put_lines(&end_lines(count, capture.finish()), out)
}
