ghost use Rattle.std.specs.Prelude.{◌≤◌};
ghost use Rattle.fr_nm.specs.Reasons.{vectors_reason_after};
ghost use Rattle.fr_nm.specs.Files.{HoldsEntries, TakesVectorsRow};

use crate::rows::{Row, read_row};
use crate::vectors::Vectors;
use csv::ByteRecord;
use fr_base::Reason;
use fr_text::Table;
use std::alloc::{AllocError, Global};

// The vectors of the records so far.
#[derive(Drop)]
pub(crate) struct Reading {
    pub(crate) alloc: Global,
    pub(crate) vectors: Vectors,
}

impl Table for Reading {
    ghost reason = { λ _. vectors_reason_after };

    ghost holds = { λ reading records. HoldsEntries reading.vectors records };

    fn add(&mut self, row: &ByteRecord) -> Result<Option<Reason>, AllocError> {
        match read_row(self.alloc, row)? {
            Err(why) => Ok(Some(why)),
            Ok(said) => take(&mut self.vectors, &said),
        }
    }
}

// Takes what a record says. A file has fewer records than the vectors take, but no clause of the reader says so: more
// would be answered as want of memory.
fn take(vectors: &mut Vectors, said: &Row) -> Result<Option<Reason>, AllocError>
    requires { said.now.cycle ≤ 199_999 }
    ensures { TakesVectorsRow vectors.old vectors.new said.now result }
{
    let Some(channel) = said.channel else {
        return Ok(Some(Reason::BadChannel));
    };
    let Some(bytes) = &said.bytes else {
        return Ok(Some(Reason::NotHex));
    };
    if vectors.is_full() {
        return Err(AllocError);
    }
    match vectors.add(said.cycle, channel, bytes.as_slice()) {
        Ok(_) => Ok(None),
        Err(_) => Err(AllocError),
    }
}
