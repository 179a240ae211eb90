ghost use Rattle.std.specs.Prelude.{IfOk};
ghost use Rattle.fr_text.specs.Kind.{Reads};
ghost use Rattle.fr_drift.specs.Reasons.{drift_reason_after};
ghost use Rattle.fr_drift.specs.Draft.{IsDriftDraft};
ghost use Rattle.fr_drift.specs.Files.{DriftFits, drift_file};

use crate::draft::Draft;
use crate::drift::Drift;
use crate::fault::DriftFault;
use crate::rows::{Row, read_row};
use csv::ByteRecord;
use fr_base::{Channel, Reason};
use fr_cluster::Params;
use fr_text::{RowFault, Table, read_all};
use std::alloc::{AllocError, Global};

// The tables under construction, with the parameters against which the records are read.
#[derive(Drop)]
struct Reading<'a> {
    params: &'a Params,
    draft: Draft,
}

impl<'a> Table for Reading<'a> {
    ghost reason = { λ reading. drift_reason_after reading.params.now };

    ghost holds = { λ reading records. IsDriftDraft reading.draft records };

    fn add(&mut self, row: &ByteRecord) -> Result<Option<Reason>, AllocError> {
        let params = self.params;
        match read_row(row) {
            Err(why) => Ok(Some(why)),
            Ok(Row::Doubles(count)) => Ok(self.draft.take_doubles(count)),
            Ok(Row::Start(start)) => self.draft.take_start(params, start),
            Ok(Row::Length(length)) => self.draft.take_length(params, length),
            Ok(Row::Delay(delay)) => self.draft.take_delay(params, delay),
        }
    }
}

/// Reads a drift file of a cluster. It accepts exactly the files of which no record is refused and that
/// say how many double cycles the run has; the answer is what the file stands for.
///
/// Its refusal is the first in this order: `Row`, the first record that is refused, by its number from 1,
/// with the least reason that holds; `MissingDoubles`, where no record says how many double cycles the run
/// has. `NoMemory` comes where memory ran out.
pub fn read(alloc: Global, params: &Params, bytes: &[u8]) -> Result<Drift, DriftFault>
    ensures reads { Reads (drift_file params.now) bytes.now result }
    ensures fits { IfOk result (DriftFits params.now) }
{
    let mut reading = Reading {
        params,
        draft: Draft::new(alloc),
    };
    match read_all(alloc, bytes, &mut reading) {
        Ok(()) => {}
        Err(RowFault::Row { number, reason }) => return Err(DriftFault::Row { number, reason }),
        Err(RowFault::NoMemory) => return Err(DriftFault::NoMemory),
    }
    let Reading { params: _, draft } = reading;
    match draft.doubles {
        Some(doubles) => Ok(draft.into_drift(params, doubles)),
        None => Err(DriftFault::MissingDoubles),
    }
}
