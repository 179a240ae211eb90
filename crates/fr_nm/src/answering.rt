ghost use Rattle.std.specs.Prelude.{◌≡◌, ◌≤◌};
ghost use Rattle.fr_program.specs.Around.{around_of};
ghost use Rattle.fr_program.specs.Command.{CommandEnds};
ghost use Rattle.fr_program.specs.Failure.{EndingWritesNothing};
ghost use Rattle.fr_nm.specs.NmAnswer.{nm_command};

use crate::VectorsFile;
use fr_base::{Shelf, Sink};
use fr_program::Failure;
use fr_text::accepted;
use std::alloc::Global;

/// Writes a line for each cycle of the recording in the file that has a network management vector of so many bytes, 1
/// to 12, and then how many records count and how many do not. Puts have whole lines. It loads the file once. A failure
/// comes where the file can't be loaded, is not accepted, or memory runs out (`Stopped`), or where the sink counted a
/// fault (`WriteFault`).
pub fn answer_nm<S: Shelf, O: Sink>(
    alloc: Global,
    width: usize,
    file: &str,
    shelf: &mut S,
    out: &mut O,
) -> Result<(), Failure>
    requires from { 1 ≤ width }
    requires to { width ≤ 12 }
    ensures ends { CommandEnds (nm_command width file.now)
        (around_of (S.state shelf.old) (S.state shelf.new) (O.state out.old) (O.state out.new)) result }
    ensures unwritten { EndingWritesNothing result → out.new ≡ out.old }
{
    let vectors = accepted(alloc, &VectorsFile::of(width), file, shelf)?;
    vectors.write(out)?;
    Ok(())
}
