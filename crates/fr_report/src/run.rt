ghost use Rattle.std.specs.Prelude.{◌≡◌};
ghost use Rattle.fr_program.specs.Around.{around_of};
ghost use Rattle.fr_program.specs.Command.{CommandEnds};
ghost use Rattle.fr_program.specs.Failure.{EndingWritesNothing};
ghost use Rattle.fr_report.specs.Files.{run_command};
ghost use Rattle.fr_report.specs.Names.{run_names_of};
ghost use Rattle.fr_report.specs.RunText.{IsRunText};

use crate::playing::play;
use crate::run_laws::a_run_is_lawful;
use crate::{RunFiles, RunWriter, answer_world, world_of};
use fr_base::{PutFault, Shelf, Sink};
use fr_program::Failure;
use fr_world::World;
use std::alloc::Global;

/// Reads the three files, one after the other, runs the cluster that they decide, and writes the report. Each file
/// is loaded once, and only where those before it are accepted. A failure comes where a file can't be loaded, is
/// not accepted, or memory runs out, and tells the first such file; where memory runs out for the run (`Stopped`);
/// or where the sink counted a fault (`WriteFault`).
pub fn answer_run<S: Shelf, O: Sink>(
    alloc: Global,
    files: RunFiles<'_>,
    shelf: &mut S,
    out: &mut O,
) -> Result<(), Failure>
    ensures ends { CommandEnds (run_command IsRunText (run_names_of files.entry))
        (around_of (S.state shelf.old) (S.state shelf.new) (O.state out.old) (O.state out.new)) result }
    ensures unwritten { EndingWritesNothing result → out.new ≡ out.old }
{
    a_run_is_lawful();
    answer_world(world_of(alloc, files, shelf), &ReportWriter {}, out)
}

/// Writes the report.
pub(crate) struct ReportWriter {}

impl RunWriter for ReportWriter {
    ghost use Rattle.fr_report.specs.RunText.{run_text};

    ghost text = { run_text };

    fn write<O: Sink>(&self, world: &mut World, out: &mut O) -> Result<(), PutFault> {
        play(world, out)
    }
}
