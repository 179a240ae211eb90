ghost use Rattle.std.specs.Prelude.{◌≡◌};
ghost use Rattle.fr_program.specs.Around.{around_of};
ghost use Rattle.fr_program.specs.Command.{CommandEnds};
ghost use Rattle.fr_program.specs.Failure.{EndingWritesNothing};
ghost use Rattle.fr_report.specs.Files.{run_command};
ghost use Rattle.fr_report.specs.Names.{run_names_of};
ghost use Rattle.fr_series.specs.SeriesAnswer.{IsSeriesText};

use crate::laws::a_series_is_lawful;
use crate::write_series;
use fr_base::{PutFault, Shelf, Sink};
use fr_program::Failure;
use fr_report::{RunFiles, RunWriter, answer_world, world_of};
use fr_world::World;
use std::alloc::Global;

/// Reads the three files, one after the other, runs the cluster that they decide, and writes the series of the run,
/// double cycle by double cycle. Each file is loaded once, and only where those before it are accepted. A failure
/// comes where a file can't be loaded, is not accepted, or memory runs out, and tells the first such file; where
/// memory runs out for the run (`Stopped`); or where the sink counted a fault (`WriteFault`).
pub fn answer_series<S: Shelf, O: Sink>(
    alloc: Global,
    files: RunFiles<'_>,
    shelf: &mut S,
    out: &mut O,
) -> Result<(), Failure>
    ensures ends { CommandEnds (run_command IsSeriesText (run_names_of files.entry))
        (around_of (S.state shelf.old) (S.state shelf.new) (O.state out.old) (O.state out.new)) result }
    ensures unwritten { EndingWritesNothing result → out.new ≡ out.old }
{
    a_series_is_lawful();
    answer_world(world_of(alloc, files, shelf), &SeriesWriter {}, out)
}

// Writes the series.
struct SeriesWriter {}

impl RunWriter for SeriesWriter {
    ghost use Rattle.fr_series.specs.SeriesText.{series_text};

    ghost text = { series_text };

    fn write<O: Sink>(&self, world: &mut World, out: &mut O) -> Result<(), PutFault> {
        write_series(world, out)
    }
}
