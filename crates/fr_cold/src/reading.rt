ghost use Rattle.std.specs.Prelude.{IfOk};
ghost use Rattle.fr_text.specs.Kind.{Reads};
ghost use Rattle.fr_cold.specs.Reasons.{power_reason_after};
ghost use Rattle.fr_cold.specs.Draft.{IsPowerDraft};
ghost use Rattle.fr_cold.specs.Files.{PowerFits, power_file};

use crate::draft::Draft;
use crate::fault::PowerFault;
use crate::power::Power;
use crate::rows::{Row, read_row};
use csv::ByteRecord;
use fr_base::Reason;
use fr_cluster::Params;
use fr_text::{RowFault, Table, read_all};
use std::alloc::{AllocError, Global};

// The tables under construction, with the parameters against which the records are read.
#[derive(Drop)]
struct Reading<'a> {
    params: &'a Params,
    draft: Draft,
}

impl<'a> Table for Reading<'a> {
    ghost reason = { λ reading. power_reason_after reading.params.now };

    ghost holds = { λ reading records. IsPowerDraft reading.draft records };

    fn add(&mut self, row: &ByteRecord) -> Result<Option<Reason>, AllocError> {
        let params = self.params;
        match read_row(row) {
            Err(why) => Ok(Some(why)),
            Ok(Row::Cycles(count)) => Ok(self.draft.take_cycles(count)),
            Ok(Row::Switched(switch)) => self.draft.take_switch(params, switch),
        }
    }
}

/// Reads a power file of a cluster. It accepts exactly the files of which no record is refused and that say
/// how many cycles the run has; the answer is what the file stands for.
///
/// Its refusal is the first in this order: `Row`, the first record that is refused, by its number from 1,
/// with the least reason that holds; `MissingCycles`, where no record says how many cycles the run has.
/// `NoMemory` comes where memory ran out.
pub fn read(alloc: Global, params: &Params, bytes: &[u8]) -> Result<Power, PowerFault>
    ensures reads { Reads (power_file params.now) bytes.now result }
    ensures fits { IfOk result (PowerFits params.now) }
{
    let mut reading = Reading {
        params,
        draft: Draft::new(alloc),
    };
    match read_all(alloc, bytes, &mut reading) {
        Ok(()) => {}
        Err(RowFault::Row { number, reason }) => return Err(PowerFault::Row { number, reason }),
        Err(RowFault::NoMemory) => return Err(PowerFault::NoMemory),
    }
    let Reading { params: _, draft } = reading;
    match draft.cycles {
        Some(cycles) => Ok(draft.into_power(cycles)),
        None => Err(PowerFault::MissingCycles),
    }
}
