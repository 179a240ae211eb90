ghost use Rattle.std.specs.Prelude.{◌≡◌};
ghost use Rattle.fr_program.specs.Around.{around_of};
ghost use Rattle.fr_program.specs.Command.{CommandEnds};
ghost use Rattle.fr_program.specs.Failure.{EndingWritesNothing};
ghost use Rattle.fr_report.specs.Names.{run_names_of};
ghost use Rattle.fr_answer.specs.RunAnswer.{kept_run_command};

use fr_base::{Shelf, Sink};
use fr_program::Failure;
use fr_report::{RunFiles, answer_run};
use fr_sharp::{
    covered_files_keep_sharply, covered_files_keep_sharply_joined,
    joined_files_keep_through_losses, lossy_files_give_runs,
};
use std::alloc::Global;

/// The report of a run, as `fr_report` answers it; of the same run it says what the sharper promise says, where the files
/// are sharply covered, or covered through losses, whoever joins. Each file is loaded once, and only where those before
/// it are accepted. A failure comes where a file can't be loaded, is not accepted, or memory runs out (`Stopped`), or where
/// the sink counted a fault (`WriteFault`).
pub fn answer_kept_run<S: Shelf, O: Sink>(
    alloc: Global,
    files: RunFiles<'_>,
    shelf: &mut S,
    out: &mut O,
) -> Result<(), Failure>
    ensures ends { CommandEnds (kept_run_command (run_names_of files.entry))
        (around_of (S.state shelf.old) (S.state shelf.new) (O.state out.old) (O.state out.new)) result }
    ensures unwritten { EndingWritesNothing result → out.new ≡ out.old }
{
    covered_files_keep_sharply();
    covered_files_keep_sharply_joined();
    lossy_files_give_runs();
    joined_files_keep_through_losses();
    answer_run(alloc, files, shelf, out)
}
