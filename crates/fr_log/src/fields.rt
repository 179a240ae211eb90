ghost use Rattle.std.specs.Prelude.{◌≡◌, ◌≢◌, length, IfSome, IsNone};
ghost use Rattle.fr_text.specs.Plain.{fields_of};
ghost use Rattle.fr_log.specs.Rows.{is_alone, log_fields};

use fr_text::Record;

// The fields of a record that has five, by their columns.
#[derive(Clone, Copy)]
pub struct Fields<'r> {
    // The kind of the record.
    pub kind: &'r [u8],
    // A number of the head, the number of a node, or the stamp of a frame.
    pub number: &'r [u8],
    // The channel of a delay or of a frame.
    pub channel: &'r [u8],
    // The least delay, or the bytes of a frame.
    pub low_or_bytes: &'r [u8],
    // The greatest delay.
    pub high: &'r [u8],
}

impl<'r> Fields<'r> {
    // Those of a record; None where it has not five.
    pub(crate) fn of(row: &'r Record<'_>) -> Option<Fields<'r>>
        ensures found { IfSome result (λ fields. fields_of row.now ≡ log_fields fields) }
        ensures none { IsNone result → length (fields_of row.now) ≢ 5 }
    {
        if row.len() != 5 {
            return None;
        }
        Some(Fields {
            kind: row.field(0),
            number: row.field(1),
            channel: row.field(2),
            low_or_bytes: row.field(3),
            high: row.field(4),
        })
    }

    // Whether the fields after the second one are empty.
    pub(crate) fn is_alone(&self) -> bool
        ensures { result ≡ is_alone (log_fields self.now) }
    {
        self.channel.is_empty() && self.low_or_bytes.is_empty() && self.high.is_empty()
    }
}
