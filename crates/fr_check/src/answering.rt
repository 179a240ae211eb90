ghost use Rattle.std.specs.Prelude.{◌≡◌, ℕ, IfErr, IfOk, List, Ok};
ghost use Rattle.fr_program.specs.Around.{around_of};
ghost use Rattle.fr_program.specs.Command.{CommandEnds};
ghost use Rattle.fr_program.specs.Failure.{EndingWritesNothing};
ghost use Rattle.fr_text.specs.Told.{refusal};
ghost use Rattle.fr_trace.specs.Fits.{TraceFits};
ghost use Rattle.fr_verdict.specs.Answer.{IsJudgement};
ghost use Rattle.fr_verdict.specs.Precision.{KeepsItsPrecision};
ghost use Rattle.fr_check.specs.CheckAnswer.{IsUnlawfulSaid, check_command};

use crate::check;
use crate::files::CheckFiles;
use crate::printing::print;
use crate::unlawful_lines::unlawful_line;
use fr_base::{Shelf, Sink};
use fr_cluster::Params;
use fr_params::ParamsFile;
use fr_program::Failure;
use fr_text::{Status, Told, accepted};
use fr_trace::{Trace, TraceFile};
use fr_verdict::Verdict;
use std::alloc::Global;

/// Reads the two files, one after the other, and writes the verdict on the trace where it is that of a lawful and
/// covered run. Each file is loaded once, the second only where the first is accepted. A failure comes where a file
/// can't be loaded, is not accepted, or memory runs out, and tells the first such file; where a record breaks
/// a law or the trace is not covered, and tells the first such record or gap (`Stopped`); or where the sink counted a
/// fault (`WriteFault`).
pub fn answer_check<S: Shelf, O: Sink>(
    alloc: Global,
    files: CheckFiles<'_>,
    shelf: &mut S,
    out: &mut O,
) -> Result<(), Failure>
    ensures ends { CommandEnds (check_command files.entry.params.now files.entry.trace.now)
        (around_of (S.state shelf.old) (S.state shelf.new) (O.state out.old) (O.state out.new)) result }
    ensures unwritten { EndingWritesNothing result → out.new ≡ out.old }
{
    let params = accepted(alloc, &ParamsFile {}, files.params, shelf)?;
    let trace = accepted(alloc, &TraceFile { params: &params }, files.trace, shelf)?;
    let verdict = judged(&params, &trace)?;
    match print(&params, &trace, &verdict, out) {
        Ok(()) => Ok(()),
        Err(_) => Err(Failure::WriteFault),
    }
}

// The verdict on a trace, or what is told of its first record that breaks a law, or of its first gap.
fn judged(params: &Params, trace: &Trace) -> Result<Verdict, Told>
    requires fits { TraceFits params.now trace.now }
    ensures answer { IfOk result (λ verdict. IsJudgement params.now trace.now (Ok verdict)) }
    ensures precise { IfOk result (λ verdict. KeepsItsPrecision params.now trace.now verdict) }
    ensures refused { IfErr result
        (λ why. (said : List ℕ) × IsUnlawfulSaid params.now trace.now said × (why ≡ refusal said)) }
{
    match check(params, trace) {
        Ok(verdict) => Ok(verdict),
        Err(why) => Err(Told {
            status: Status::No,
            line: unlawful_line(&why),
        }),
    }
}
