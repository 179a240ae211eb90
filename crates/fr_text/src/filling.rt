ghost use Rattle.std.specs.Prelude.{◌≡◌, List, [], Option, IfErr, OnOk};
ghost use Rattle.fr_base.specs.declared.reason.Reason.{Reason as Why};
ghost use Rattle.fr_text.specs.Plain.{fields_of};
ghost use Rattle.fr_text.specs.Records.{FileRecord, records_of};
ghost use Rattle.fr_text.specs.Takes.{IsFilled, TakesRecord};
ghost use Rattle.fr_text.specs.Tells.{TellsRow};

use crate::record::Record;
use crate::stream::Stream;
use crate::table::RowFault;
use fr_base::Reason;
use std::alloc::{AllocError, Global};

/// A table of long files: as `Table`, of records that are not copied.
pub trait RecordTable {
    /// Why a record is refused after the records before it. What else that depends on, such as the
    /// parameters of the cluster, the table holds.
    ghost reason: { Self → List FileRecord → FileRecord → Option Why };

    /// What the table holds of the records that it took: a relation, since a table need not keep them.
    ghost holds: { Self → List FileRecord → Type 0 };

    /// Takes one more record, or answers why it is refused. `AllocError` where memory ran out.
    fn add(&mut self, row: &Record<'_>) -> Result<Option<Reason>, AllocError>
        ensures same { reason self.new ≡ reason self.old }
        ensures takes { TakesRecord holds (reason self.old) self.old self.new (fields_of row.now) result };
}

/// Fills such a table with the records of a file. `Row` names the first record that is refused and why. After an
/// error nothing is said of what the table holds.
pub fn read_records<T: RecordTable>(
    alloc: Global,
    bytes: &[u8],
    table: &mut T,
) -> Result<(), RowFault>
    requires { T.holds table.old [] }
    ensures filled { OnOk result (IsFilled T.holds T.reason table.old table.new bytes.now) }
    ensures refused { IfErr result (λ fault. TellsRow (T.reason table.old) (records_of bytes.now) fault) }
{
    let mut records = Stream::new(alloc, bytes);
    let mut row = Record::new(alloc);
    let mut number: u64 = 0;
    'rows: loop {
        let Ok(found) = records.next(&mut row) else {
            return Err(RowFault::NoMemory);
        };
        if !found {
            return Ok(());
        }
        number += 1;
        match table.add(&row) {
            Ok(None) => {}
            Ok(Some(reason)) => return Err(RowFault::Row { number, reason }),
            Err(_) => return Err(RowFault::NoMemory),
        }
    }
}
