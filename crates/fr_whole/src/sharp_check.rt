ghost use Rattle.std.specs.Prelude.{◌≡◌, ℕ, IfErr, IfOk, List};
ghost use Rattle.fr_base.specs.Device.{Puts};
ghost use Rattle.fr_program.specs.Around.{around_of};
ghost use Rattle.fr_program.specs.Command.{CommandEnds};
ghost use Rattle.fr_program.specs.Failure.{EndingWritesNothing};
ghost use Rattle.fr_text.specs.Pieces.{line};
ghost use Rattle.fr_text.specs.Told.{refusal};
ghost use Rattle.fr_trace.specs.Fits.{TraceFits};
ghost use Rattle.fr_verdict.specs.OtherGaps.{IsOtherwiseCovered};
ghost use Rattle.fr_verdict.specs.Sync.{first_synced_of};
ghost use Rattle.fr_whole.specs.SharpCheckAnswer.{joined_text, sharp_check_command, IsJoinFound, IsSharpCheckSaid, IsSharpCheckText};
ghost use Rattle.fr_whole.specs.SharpCheckText.{sharp_check_text};

use crate::sharp_check_laws::a_sharp_check_is_told;
use crate::sharp_check_lines::sharp_check_lines;
use crate::traced_figures::TracedFigures;
use fr_base::{NodeId, PutFault, Shelf, Sink};
use fr_check::{CheckFiles, check_otherwise, unlawful_line};
use fr_cluster::Params;
use fr_params::ParamsFile;
use fr_program::Failure;
use fr_text::Piece::{Natural, Word};
use fr_text::{Line, Status, Told, accepted, line_of, put_lines};
use fr_trace::{Trace, TraceFile};
use std::alloc::Global;

/// Reads the two files, one after the other, and writes what the sharper bounds say of the trace where no node joins it,
/// and where it is lawful and has no gap but of the older checks, which are not asked. Each file is loaded once, the
/// second only where the first is accepted. A failure comes where a file can't be loaded, is not accepted, or memory runs
/// out, and tells the first such file; where a record breaks a law, there is such a gap or a node joins, and tells the
/// first of them in this order (`Stopped`); or where the sink counted a fault (`WriteFault`).
pub fn answer_sharp_check<S: Shelf, O: Sink>(
    alloc: Global,
    files: CheckFiles<'_>,
    shelf: &mut S,
    out: &mut O,
) -> Result<(), Failure>
    ensures ends { CommandEnds (sharp_check_command files.entry.params.now files.entry.trace.now)
        (around_of (S.state shelf.old) (S.state shelf.new) (O.state out.old) (O.state out.new)) result }
    ensures unwritten { EndingWritesNothing result → out.new ≡ out.old }
{
    let params = accepted(alloc, &ParamsFile {}, files.params, shelf)?;
    let trace = accepted(alloc, &TraceFile { params: &params }, files.trace, shelf)?;
    let synced = judged(&params, &trace)?;
    match print_sharply(&params, &trace, synced, out) {
        Ok(()) => Ok(()),
        Err(_) => Err(Failure::WriteFault),
    }
}

// The first double cycle in sync of a trace that no node joins and that has no gap but of the older checks, or what is
// told of one that is none.
fn judged(params: &Params, trace: &Trace) -> Result<Option<u32>, Told>
    requires fits { TraceFits params.now trace.now }
    ensures told { IfOk result
        (λ synced. IsSharpCheckText params.now trace.now (sharp_check_text params.now trace.now)) }
    ensures synced { IfOk result (λ synced. synced ≡ first_synced_of params.now trace.now) }
    ensures refused { IfErr result
        (λ why. (said : List ℕ) × IsSharpCheckSaid params.now trace.now said × (why ≡ refusal said)) }
{
    match check_otherwise(params, trace) {
        Ok(synced) => joined_by_none(params, trace, synced),
        Err(why) => Err(Told {
            status: Status::No,
            line: unlawful_line(&why),
        }),
    }
}

fn joined_by_none(params: &Params, trace: &Trace, synced: Option<u32>) -> Result<Option<u32>, Told>
    requires fits { TraceFits params.now trace.now }
    requires covered { IsOtherwiseCovered params.now trace.now }
    requires synced { synced ≡ first_synced_of params.now trace.now }
    ensures told { IfOk result
        (λ synced. IsSharpCheckText params.now trace.now (sharp_check_text params.now trace.now)) }
    ensures synced { IfOk result (λ synced. synced ≡ first_synced_of params.now trace.now) }
    ensures refused { IfErr result
        (λ why. (said : List ℕ) × IsSharpCheckSaid params.now trace.now said × (why ≡ refusal said)) }
{
    a_sharp_check_is_told();
    let _nodes = &params.nodes;
    let _doubles = trace.doubles();
    match first_to_join(trace) {
        None => Ok(synced),
        Some(node) => Err(Told {
            status: Status::No,
            line: joined_line(node),
        }),
    }
}

// The first of the nodes that join.
fn first_to_join(trace: &Trace) -> Option<NodeId>
    ensures { IsJoinFound trace.now.joins result }
{
    match trace.joins().first() {
        None => None,
        Some(joining) => Some(joining.node),
    }
}

fn joined_line(node: NodeId) -> Line
    ensures { result ≡ line (joined_text node) }
{
    line_of(&[
        Word(b"trace: not covered join "),
        Natural(u64::from(node.0)),
    ])
}

// Writes what the sharper bounds say. Puts have whole lines.
fn print_sharply<O: Sink>(
    params: &Params,
    trace: &Trace,
    synced: Option<u32>,
    out: &mut O,
) -> Result<(), PutFault>
    requires fits { TraceFits params.now trace.now }
    requires synced { synced ≡ first_synced_of params.now trace.now }
    ensures { Puts result (O.state out.old) (O.state out.new) (sharp_check_text params.now trace.now) }
{
    let figures = TracedFigures::of(params, trace, synced);
    put_lines(&sharp_check_lines(params, &figures), out)
}
