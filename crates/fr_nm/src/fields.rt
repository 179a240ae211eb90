ghost use Rattle.std.specs.Prelude.{◌≡◌, ◌≢◌, length, IfSome, IsNone};
ghost use Rattle.csv.specs.Records.{fields_of};
ghost use Rattle.fr_nm.specs.Rows.{vector_fields};

use csv::ByteRecord;
use fr_text::field;

// The fields of a record that has three, by their columns.
#[derive(Clone, Copy)]
pub struct Fields<'r> {
    // The cycle in which the frame was seen.
    pub cycle: &'r [u8],
    // The channel of the frame.
    pub channel: &'r [u8],
    // The bytes of the frame.
    pub bytes: &'r [u8],
}

impl<'r> Fields<'r> {
    // Those of a record; None where it has not three.
    pub(crate) fn of(row: &'r ByteRecord) -> Option<Fields<'r>>
        ensures found { IfSome result (λ fields. fields_of row.now ≡ vector_fields fields) }
        ensures none { IsNone result → length (fields_of row.now) ≢ 3 }
    {
        if row.len() != 3 {
            return None;
        }
        Some(Fields {
            cycle: field(row, 0),
            channel: field(row, 1),
            bytes: field(row, 2),
        })
    }
}
