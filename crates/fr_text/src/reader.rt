ghost use Rattle.std.specs.Prelude.{◌≡◌, false, [], ◌∷◌, IfOk, OnErr};
ghost use Rattle.std.specs.Bool.{MatchBool};
ghost use Rattle.csv.specs.Records.{fields_of};
ghost use Rattle.fr_text.specs.Records.{records_of};

use csv::{ByteRecord, Reader, ReaderBuilder};
use std::alloc::{AllocError, Global};
use std::marker::Model;

/// A reader of the records of a file, seen as the list of the records that are still to be read.
///
/// A record is what `csv` reads with no header row, with commas, without trimming and of any number of
/// fields; a byte order mark at the start of the file is taken off.
pub struct Records<'a> {
    reader: Reader<&'a [u8]>,
    done: bool,
}

impl<'a> Model for Records<'a> {
    ghost use Rattle.std.specs.Prelude.{◌≡◌, false, ℕ, List, Some};
    ghost use Rattle.csv.specs.Reading.{reader_state, source_of};
    ghost use Rattle.fr_text.specs.Reader.{IsReading, left_by};
    ghost use denote.Ref.{Bor};

    ghost Value = { List (List (List ℕ)) };

    ghost view = { λ a. left_by a.done (reader_state a.reader) (source_of (λ (s : Bor (List ℕ)). Some s.now) a.reader) };

    ghost invariant = { λ a. a.done ≡ false → IsReading (λ (s : Bor (List ℕ)). Some s.now) a.reader };
}

// One call: a derived drop is opened in each function that drops a value, and proved there.
impl Drop for Records<'_> {
    fn drop(self) {
        let Records { reader: _, done: _ } = self;
    }
}

impl<'a> Records<'a> {
    /// A reader of the records of `bytes`, none of them read.
    pub fn new(alloc: Global, bytes: &'a [u8]) -> Records<'a>
        ensures { result ≡ records_of bytes.now }
    {
        Records {
            reader: ReaderBuilder::new()
                .has_headers(false)
                .flexible(true)
                .from_reader(alloc, bytes),
            done: false,
        }
    }

    /// Puts the next record into `row`; false where none is left. After want of memory none is left.
    ///
    /// `csv` has further errors. That of a record's length and that of a text do not come here. That of
    /// the reader underneath cannot come over bytes in memory, but no clause of that crate says so: it
    /// would be answered as want of memory.
    pub fn next(&mut self, row: &mut ByteRecord) -> Result<bool, AllocError>
        ensures reads { IfOk result (λ found. MatchBool found
            (self.old ≡ fields_of row.new ∷ self.new)
            (self.old ≡ [])) }
        ensures ends { IfOk result (λ found. found ≡ false → self.new ≡ []) }
        ensures stops { OnErr result (self.new ≡ []) }
    {
        if self.done {
            return Ok(false);
        }
        let Ok(found) = self.reader.read_byte_record(row) else {
            self.done = true;
            return Err(AllocError);
        };
        if !found {
            self.done = true;
        }
        Ok(found)
    }
}
