ghost use Rattle.std.specs.Prelude.{◌≡◌};
ghost use Rattle.fr_program.specs.Around.{around_of};
ghost use Rattle.fr_program.specs.Command.{CommandEnds};
ghost use Rattle.fr_program.specs.Failure.{EndingWritesNothing};
ghost use Rattle.fr_cold.specs.ColdAnswer.{cold_command};

use crate::PowerFile;
use crate::command_laws::a_startup_has_one_leader;
use crate::files::ColdFiles;
use crate::printing::print;
use fr_base::{Shelf, Sink};
use fr_params::ParamsFile;
use fr_program::Failure;
use fr_text::accepted;
use std::alloc::Global;

/// Reads the two files, one after the other, and writes who leads the startup that they decide. Each file is loaded
/// once, the second only where the first is accepted. A failure comes where a file can't be loaded, is not
/// accepted, or memory runs out, and tells the first such file (`Stopped`); or where the sink counted a
/// fault (`WriteFault`).
pub fn answer_cold<S: Shelf, O: Sink>(
    alloc: Global,
    files: ColdFiles<'_>,
    shelf: &mut S,
    out: &mut O,
) -> Result<(), Failure>
    ensures ends { CommandEnds (cold_command files.entry.params.now files.entry.power.now)
        (around_of (S.state shelf.old) (S.state shelf.new) (O.state out.old) (O.state out.new)) result }
    ensures unwritten { EndingWritesNothing result → out.new ≡ out.old }
{
    a_startup_has_one_leader();
    let params = accepted(alloc, &ParamsFile {}, files.params, shelf)?;
    let power = accepted(alloc, &PowerFile { params: &params }, files.power, shelf)?;
    match print(&params, &power, out) {
        Ok(()) => Ok(()),
        Err(_) => Err(Failure::WriteFault),
    }
}
