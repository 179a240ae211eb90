ghost use Rattle.std.specs.Prelude.{◌≡◌, List, Some, IfOk};
ghost use Rattle.fr_text.specs.Kind.{Reads};
ghost use Rattle.fr_text.specs.Records.{FileRecord};
ghost use Rattle.fr_trace.specs.Draft.{AnswersFor, HoldsTrace, IsTraceDraft, IsWholeDraft};
ghost use Rattle.fr_trace.specs.Files.{is_whole, trace_file};
ghost use Rattle.fr_trace.specs.Fits.{TraceFits};
ghost use Rattle.fr_trace.specs.Reasons.{trace_reason_after};

use crate::draft::Draft;
use crate::fault::TraceFault;
use crate::order::ends_with;
use crate::rows::{is_heard, read_heard, read_row};
use crate::trace::Trace;
use fr_base::Reason;
use fr_cluster::Params;
use fr_text::{Record, RecordTable, RowFault, read_records};
use std::alloc::{AllocError, Global};

// The trace under construction, with the parameters against which the records are read.
#[derive(Drop)]
struct Reading<'a> {
    params: &'a Params,
    draft: Draft,
}

impl<'a> RecordTable for Reading<'a> {
    ghost reason = { λ reading. trace_reason_after reading.params.now };

    ghost holds = { λ reading records.
        HoldsTrace (trace_reason_after reading.params.now) reading.draft records };

    fn add(&mut self, row: &Record<'_>) -> Result<Option<Reason>, AllocError> {
        let params = self.params;
        if is_heard(row) {
            return match read_heard(row) {
                Err(why) => Ok(Some(why)),
                Ok(heard) => self.draft.take_heard(params, heard),
            };
        }
        match read_row(row) {
            Err(why) => Ok(Some(why)),
            Ok(said) => self.draft.take(params, said),
        }
    }
}

/// Reads a recorded trace of a cluster. It accepts exactly the files of which no record is refused and that have all
/// rows that must come up to the last cycle; the answer is what the file stands for. A node that joins the running
/// cluster has rows from the cycle on in which it may first take part, or none.
///
/// Its refusal is the first in this order: `Row`, the first record that is refused, by its number from 1, with the
/// least reason that holds; `Incomplete`, where the file ends before its last row, with how many records it has.
/// `NoMemory` comes where memory ran out.
pub fn read(alloc: Global, params: &Params, bytes: &[u8]) -> Result<Trace, TraceFault>
    ensures reads { Reads (trace_file params.now) bytes.now result }
    ensures fits { IfOk result (TraceFits params.now) }
{
    let _nodes = &params.nodes;
    let mut reading = Reading {
        params,
        draft: Draft::new(alloc),
    };
    match read_records(alloc, bytes, &mut reading) {
        Ok(()) => {}
        Err(RowFault::Row { number, reason }) => return Err(TraceFault::Row { number, reason }),
        Err(RowFault::NoMemory) => return Err(TraceFault::NoMemory),
    }
    let Reading { params: _, draft } = reading;
    trace_of(params, draft)
}

// The trace that the records stand for, where they are those of a whole one.
fn trace_of(params: &Params, draft: Draft) -> Result<Trace, TraceFault>
    requires { (records : List FileRecord) × IsTraceDraft params.now draft records }
    ensures { (records : List FileRecord) → IsTraceDraft params.now draft records →
        AnswersFor params.now records result }
{
    let _nodes = &params.nodes;
    let rows = draft.count;
    let Some(doubles) = draft.doubles else {
        return Err(TraceFault::Incomplete { rows });
    };
    if !is_whole(params, &draft, doubles) {
        return Err(TraceFault::Incomplete { rows });
    }
    whole_trace(params, draft, doubles)
}

// Whether the records are those of a whole trace: each node that must have a row in the last cycle has one.
fn is_whole(params: &Params, draft: &Draft, doubles: u32) -> bool
    requires { draft.now.doubles ≡ Some doubles }
    ensures { (records : List FileRecord) → IsTraceDraft params.now draft.now records →
        result ≡ is_whole params.now records }
{
    ends_with(params, &draft.so_far(), &draft.last)
}

// The trace of records that are those of a whole one.
fn whole_trace(params: &Params, draft: Draft, doubles: u32) -> Result<Trace, TraceFault>
    requires { (records : List FileRecord) × IsWholeDraft params.now draft doubles records }
    ensures { (records : List FileRecord) → IsWholeDraft params.now draft doubles records →
        AnswersFor params.now records result }
{
    let _nodes = &params.nodes;
    let mut draft = draft;
    match draft.fill(2 * doubles as usize) {
        Ok(()) => {}
        Err(_) => return Err(TraceFault::NoMemory),
    }
    Ok(draft.into_trace(doubles))
}
