ghost use Rattle.std.specs.Prelude.{◌≡◌};
ghost use Rattle.fr_program.specs.Around.{around_of};
ghost use Rattle.fr_program.specs.Command.{CommandEnds};
ghost use Rattle.fr_program.specs.Failure.{EndingWritesNothing};
ghost use Rattle.fr_report.specs.Files.{run_command, run_files};
ghost use Rattle.fr_report.specs.Names.{run_names_of};
ghost use Rattle.fr_text.specs.Files.{IsDecided};
ghost use Rattle.fr_whole.specs.SharpReportAnswer.{IsSharpReportText, IsSharpRunText, sharp_report_command};

use crate::sharp_gathering::write_sharp_report;
use crate::sharp_report_laws::a_sharp_report_is_lawful;
use fr_base::{PutFault, Shelf, Sink};
use fr_program::Failure;
use fr_report::{RunFiles, RunWriter, answer_world, world_of};
use fr_sharp::{
    covered_files_keep_sharply, covered_files_keep_sharply_joined,
    joined_files_keep_through_losses, lossy_files_give_runs,
};
use fr_world::{World, files_decide_one_run};
use std::alloc::Global;

/// Reads the three files, one after the other, runs the cluster that they decide, and writes what the sharper bounds say
/// of the run, and behind it its report. Each file is loaded once, and only where those before it are accepted. A failure
/// comes where a file can't be loaded, is not accepted, or memory runs out, and tells the first such file; where memory
/// runs out for the run (`Stopped`); or where the sink counted a fault (`WriteFault`).
pub fn answer_sharp_report<S: Shelf, O: Sink>(
    alloc: Global,
    files: RunFiles<'_>,
    shelf: &mut S,
    out: &mut O,
) -> Result<(), Failure>
    ensures ends { CommandEnds (run_command IsSharpRunText (run_names_of files.entry))
        (around_of (S.state shelf.old) (S.state shelf.new) (O.state out.old) (O.state out.new)) result }
    ensures unwritten { EndingWritesNothing result → out.new ≡ out.old }
{
    a_sharp_report_is_lawful();
    answer_world(world_of(alloc, files, shelf), &SharpReportWriter {}, out)
}

// Writes what the sharper bounds say, and the report.
struct SharpReportWriter {}

impl RunWriter for SharpReportWriter {
    ghost use Rattle.fr_whole.specs.SharpReport.{sharp_report_text};

    ghost text = { sharp_report_text };

    fn write<O: Sink>(&self, world: &mut World, out: &mut O) -> Result<(), PutFault> {
        write_sharp_report(world, out)
    }
}

/// The report of a run by the sharper bounds; of the same run it says what a request for the
/// report alone says. Each file is loaded once, and only where those before it are accepted. A failure comes where a file
/// can't be loaded, is not accepted, or memory runs out (`Stopped`), or where the sink counted a fault (`WriteFault`).
pub fn answer_sharp_run<S: Shelf, O: Sink>(
    alloc: Global,
    files: RunFiles<'_>,
    shelf: &mut S,
    out: &mut O,
) -> Result<(), Failure>
    ensures ends { CommandEnds (sharp_report_command (run_names_of files.entry))
        (around_of (S.state shelf.old) (S.state shelf.new) (O.state out.old) (O.state out.new)) result }
    ensures unwritten { EndingWritesNothing result → out.new ≡ out.old }
{
    covered_files_keep_sharply();
    covered_files_keep_sharply_joined();
    lossy_files_give_runs();
    joined_files_keep_through_losses();
    answer_sharp_report(alloc, files, shelf, out)
}

/// A law: the bytes of the three files decide what is written. Two texts that the answer's clause allows for files of the
/// same bytes are the same.
pub fn files_decide_what_is_told_sharply()
    ensures { IsDecided (run_files IsSharpReportText) }
{
    fr_params::one_answer();
    fr_drift::one_answer();
    fr_script::one_answer();
    files_decide_one_run();
}
