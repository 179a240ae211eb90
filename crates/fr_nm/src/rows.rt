ghost use Rattle.std.specs.Prelude.{◌≡◌, ◌≤◌, IfOk};
ghost use Rattle.csv.specs.Records.{fields_of};
ghost use Rattle.fr_nm.specs.Rows.{hex_bytes_in, vector_fields, said_row, vectors_row_of};

use crate::fields::Fields;
use csv::ByteRecord;
use fr_base::{Channel, Reason};
use fr_text::{both, hex_digits, natural, reason_of};
use hex::FromHexError;
use std::alloc::{AllocError, Global};
use std::marker::Model;

/// The bytes that a record was seen with, as their list.
pub struct SeenBytes {
    bytes: Vec<u8>,
}

impl Model for SeenBytes {
    ghost use Rattle.std.specs.Prelude.{List, ℕ};

    ghost Value = { List ℕ };

    ghost view = { λ a. a.bytes.items };
}

// One call: a derived drop is opened in each function that drops a value, and proved there.
impl Drop for SeenBytes {
    fn drop(self) {
        let SeenBytes { bytes: _ } = self;
    }
}

impl SeenBytes {
    pub(crate) fn of(bytes: Vec<u8>) -> SeenBytes
        ensures { result ≡ bytes.items }
    {
        SeenBytes { bytes }
    }

    pub(crate) fn as_slice(&self) -> &[u8]
        ensures { result.now ≡ self.now }
    {
        self.bytes.as_slice()
    }
}

/// What a record of a recording says by itself.
#[derive(Drop)]
pub struct Row {
    pub cycle: u32,
    /// None where its field names none.
    pub channel: Option<Channel>,
    /// None where they are not hexadecimal.
    pub bytes: Option<SeenBytes>,
}

/// What a record says, or the least of the reasons that it shows by its number of fields and by its numbers: Shape,
/// NotNumber, OutOfRange. `AllocError` where memory ran out.
#[tactic(auto, unfolding(crate::specs::Rows::vectors_row_of))]
pub fn read_row(alloc: Global, row: &ByteRecord) -> Result<Result<Row, Reason>, AllocError>
    ensures said { IfOk result (λ said. said ≡ vectors_row_of (fields_of row.now)) }
    ensures proper { IfOk result (λ said. IfOk said (λ r. r.cycle ≤ 199_999)) }
{
    match Fields::of(row) {
        Some(fields) => read_fields(alloc, &fields),
        None => Ok(Err(Reason::Shape)),
    }
}

fn read_fields(alloc: Global, row: &Fields<'_>) -> Result<Result<Row, Reason>, AllocError>
    ensures said { IfOk result (λ said. said ≡ said_row (vector_fields row.now)) }
    ensures proper { IfOk result (λ said. IfOk said (λ r. r.cycle ≤ 199_999)) }
{
    match both(natural(row.cycle, 0, 199_999), hex_digits(row.bytes)) {
        Err(fault) => Ok(Err(reason_of(fault))),
        Ok((cycle, _)) => {
            let bytes = read_bytes(alloc, row.bytes)?;
            Ok(Ok(Row {
                cycle: cycle as u32,
                channel: Channel::spelt(row.channel),
                bytes,
            }))
        }
    }
}

// The bytes that a text writes; None where it is not hexadecimal. `AllocError` where memory ran out.
fn read_bytes(alloc: Global, text: &[u8]) -> Result<Option<SeenBytes>, AllocError>
    ensures { IfOk result (λ bytes. bytes ≡ hex_bytes_in text.now) }
{
    match hex::decode(alloc, text) {
        Ok(bytes) => Ok(Some(SeenBytes::of(bytes))),
        Err(FromHexError::OutOfMemory) => Err(AllocError),
        Err(_) => Ok(None),
    }
}
