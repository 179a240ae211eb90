ghost use Rattle.std.specs.Prelude.{◌≡◌, ◌<◌, false, [], ◌∷◌, None, length, slice_index_or, IfOk, IfSome, OnErr};
ghost use Rattle.std.specs.Bool.{MatchBool};
ghost use Rattle.fr_text.specs.Plain.{IsCut, fields_of};

use crate::cutting::cut;
use crate::fields::field;
use crate::reader::Records;
use csv::ByteRecord;
use std::alloc::{AllocError, Global};
use std::marker::Model;

/// A record of a file, seen as the list of its fields, each of them the list of its bytes. The fields of a plain line are
/// not copied: they lie in the bytes of the file.
pub struct Record<'a> {
    // The fields of a plain line.
    fields: Vec<&'a [u8]>,
    // What `csv` read, where it did.
    other: Option<ByteRecord>,
}

impl<'a> Model for Record<'a> {
    ghost use Rattle.std.specs.Prelude.{ℕ, List};
    ghost use Rattle.fr_text.specs.Plain.{bytes_of, record_by};

    ghost Value = { List (List ℕ) };

    ghost view = { λ a. record_by a.other (bytes_of a.fields.items) };
}

// One call: a derived drop is opened in each function that drops a value, and proved there.
impl Drop for Record<'_> {
    fn drop(self) {
        let Record {
            fields: _,
            other: _,
        } = self;
    }
}

impl<'a> Record<'a> {
    pub(crate) fn new(alloc: Global) -> Record<'a>
        ensures { result ≡ [] }
    {
        Record {
            fields: Vec::new(alloc),
            other: None,
        }
    }

    /// How many fields it has.
    pub fn len(&self) -> usize
        ensures { result ≡ length (fields_of self.now) }
    {
        match &self.other {
            Some(row) => row.len(),
            None => self.fields.len(),
        }
    }

    /// The bytes of one of its fields, by its place from 0.
    pub fn field(&self, place: usize) -> &[u8]
        requires { place < length (fields_of self.now) }
        ensures { result.now ≡ slice_index_or (fields_of self.now) place [] }
    {
        match &self.other {
            Some(row) => field(row, place),
            None => self.fields[place],
        }
    }

    // Makes it the record of the first line of a text, and answers the rest of the text from the end of that line on.
    // None where `csv` is to read the line.
    pub(crate) fn cut(&mut self, text: &'a [u8]) -> Result<Option<&'a [u8]>, AllocError>
        ensures { IfOk result (λ cut. IfSome cut (λ rest. IsCut text.now (fields_of self.new) rest.now)) }
    {
        forget(&mut self.other);
        cut(text, &mut self.fields)
    }

    // Makes it the next record of those that `csv` reads; false where none is left.
    pub(crate) fn read(
        &mut self,
        alloc: Global,
        records: &mut Records<'_>,
    ) -> Result<bool, AllocError>
        ensures reads { IfOk result (λ found. MatchBool found
            (records.old ≡ fields_of self.new ∷ records.new)
            (records.old ≡ [])) }
        ensures ends { IfOk result (λ found. found ≡ false → records.new ≡ []) }
        ensures stops { OnErr result (records.new ≡ []) }
    {
        if let Some(row) = &mut self.other {
            return records.next(row);
        }
        let mut row = ByteRecord::new(alloc);
        let found = records.next(&mut row)?;
        self.other = Some(row);
        Ok(found)
    }
}

// Lets go of what `csv` read, mostly nothing.
fn forget(other: &mut Option<ByteRecord>)
    ensures { other.new ≡ None }
{
    if other.is_some() {
        *other = None;
    }
}
