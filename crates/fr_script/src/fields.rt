ghost use Rattle.std.specs.Prelude.{◌≡◌, ◌==◌, length, is_some, IfSome};
ghost use Rattle.fr_text.specs.Plain.{fields_of};
ghost use Rattle.fr_script.specs.Columns.{as_record};

use fr_text::Record;

// The seven fields of a record. A row of each kind has some of them, and leaves the others empty.
#[derive(Clone, Copy)]
pub(crate) struct Fields<'r> {
    // The word of the kind.
    pub(crate) kind: &'r [u8],
    // CYCLE of a deed, NODE of `arbitrary`, DOUBLE of `join`.
    pub(crate) first: &'r [u8],
    // SENDER of a deed, NODE of `join`.
    pub(crate) sender: &'r [u8],
    // RECEIVER of a deed, REFERENCE of `join`.
    pub(crate) receiver: &'r [u8],
    // CHANNEL of a deed.
    pub(crate) channel: &'r [u8],
    // SHIFT of `say`, BIT of `flip`.
    pub(crate) number: &'r [u8],
    // BYTES of `say`.
    pub(crate) bytes: &'r [u8],
}

impl<'r> Fields<'r> {
    // None where the record has not seven fields.
    pub(crate) fn of(row: &'r Record<'_>) -> Option<Fields<'r>>
        ensures seven { is_some result ≡ (length (fields_of row.now) == 7) }
        ensures listed { IfSome result (λ fields. fields_of row.now ≡ as_record fields) }
    {
        if row.len() != 7 {
            return None;
        }
        Some(Fields {
            kind: row.field(0),
            first: row.field(1),
            sender: row.field(2),
            receiver: row.field(3),
            channel: row.field(4),
            number: row.field(5),
            bytes: row.field(6),
        })
    }
}
