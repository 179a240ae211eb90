ghost use Rattle.std.specs.Prelude.{◌≡◌};
ghost use Rattle.fr_params.specs.UpgradeAnswer.{upgrade_command};
ghost use Rattle.fr_program.specs.Around.{around_of};
ghost use Rattle.fr_program.specs.Command.{CommandEnds};
ghost use Rattle.fr_program.specs.Failure.{EndingWritesNothing};

use crate::{ParamsFile, write};
use fr_base::{Shelf, Sink};
use fr_program::Failure;
use fr_text::accepted;
use std::alloc::Global;

/// Reads the parameters in the file, and writes them as a file of version 2, in puts of whole lines. The text is
/// accepted as a file, stands for the same parameters, and upgrading it gives the same text. It loads the file once.
/// A failure comes where the file can't be loaded, is not accepted, or memory runs out (`Stopped`), or where the sink
/// counted a fault (`WriteFault`).
pub fn answer_upgrade<S: Shelf, O: Sink>(
    alloc: Global,
    file: &str,
    shelf: &mut S,
    out: &mut O,
) -> Result<(), Failure>
    ensures ends { CommandEnds (upgrade_command file.now)
        (around_of (S.state shelf.old) (S.state shelf.new) (O.state out.old) (O.state out.new)) result }
    ensures unwritten { EndingWritesNothing result → out.new ≡ out.old }
{
    let params = accepted(alloc, &ParamsFile {}, file, shelf)?;
    write(&params, out)?;
    Ok(())
}
