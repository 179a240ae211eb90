ghost use Rattle.std.specs.Prelude.{◌≡◌, ◌≢◌, length, IfSome, IsNone};
ghost use Rattle.fr_text.specs.Plain.{fields_of};
ghost use Rattle.fr_trace.specs.Rows.{trace_fields};

use fr_text::Record;

// The fields of a record that has eight, by their columns.
#[derive(Clone, Copy)]
pub struct Fields<'r> {
    // The kind of the record.
    pub kind: &'r [u8],
    // A number of double cycles, a node that is arbitrary or joins, or else a cycle.
    pub number: &'r [u8],
    // A reference, the node of a cycle, or the receiver of a deviation.
    pub node: &'r [u8],
    // A double cycle, the start of a cycle, or the slot of a deviation.
    pub start_or_slot: &'r [u8],
    // The length of a microtick, or the channel of a deviation.
    pub length_or_channel: &'r [u8],
    // A rate term, or the value of a deviation.
    pub rate_or_value: &'r [u8],
    // An offset term.
    pub offset: &'r [u8],
    // The state of a node.
    pub state: &'r [u8],
}

impl<'r> Fields<'r> {
    // Those of a record; None where it has not eight.
    pub(crate) fn of(row: &'r Record<'_>) -> Option<Fields<'r>>
        ensures found { IfSome result (λ fields. fields_of row.now ≡ trace_fields fields) }
        ensures none { IsNone result → length (fields_of row.now) ≢ 8 }
    {
        if row.len() != 8 {
            return None;
        }
        Some(Fields {
            kind: row.field(0),
            number: row.field(1),
            node: row.field(2),
            start_or_slot: row.field(3),
            length_or_channel: row.field(4),
            rate_or_value: row.field(5),
            offset: row.field(6),
            state: row.field(7),
        })
    }
}
