ghost use Rattle.std.specs.Prelude.{◌≡◌, false, [], ◌∷◌, IfOk, OnErr};
ghost use Rattle.std.specs.Bool.{MatchBool};
ghost use Rattle.fr_text.specs.Plain.{fields_of};
ghost use Rattle.fr_text.specs.Records.{records_of};

use crate::cutting::{behind_feed, may_be_cut};
use crate::reader::Records;
use crate::record::Record;
use std::alloc::{AllocError, Global};
use std::marker::Model;

/// The records of a file that are still to be read, seen as their list. A plain line is cut at its commas where it lies;
/// from the first other line on `csv` reads.
pub struct Stream<'a> {
    alloc: Global,
    // The bytes that are left, from the end of the last line that was read on.
    rest: &'a [u8],
    // The reader of `csv`, where it has begun.
    other: Option<Records<'a>>,
}

impl<'a> Model for Stream<'a> {
    ghost use Rattle.std.specs.Prelude.{ℕ, List};
    ghost use Rattle.fr_text.specs.Plain.{records_left};

    ghost Value = { List (List (List ℕ)) };

    ghost view = { λ a. records_left a.other a.rest.now };
}

// One call: a derived drop is opened in each function that drops a value, and proved there.
impl Drop for Stream<'_> {
    fn drop(self) {
        let Stream {
            alloc: _,
            rest: _,
            other: _,
        } = self;
    }
}

impl<'a> Stream<'a> {
    /// The records of `bytes`, none of them read.
    pub fn new(alloc: Global, bytes: &'a [u8]) -> Stream<'a>
        ensures { result ≡ records_of bytes.now }
    {
        Stream {
            alloc,
            rest: bytes,
            other: None,
        }
    }

    /// Puts the next record into `row`; false where none is left. `AllocError` where memory ran out: then none is left.
    pub fn next(&mut self, row: &mut Record<'a>) -> Result<bool, AllocError>
        ensures reads { IfOk result (λ found. MatchBool found
            (self.old ≡ fields_of row.new ∷ self.new)
            (self.old ≡ [])) }
        ensures ends { IfOk result (λ found. found ≡ false → self.new ≡ []) }
        ensures stops { OnErr result (self.new ≡ []) }
    {
        if self.other.is_some() {
            return self.next_read(row);
        }
        let text = behind_feed(self.rest);
        if text.is_empty() {
            return Ok(false);
        }
        if !may_be_cut(text) {
            return self.next_read(row);
        }
        match row.cut(text) {
            Ok(Some(rest)) => {
                self.rest = rest;
                Ok(true)
            }
            Ok(None) => self.next_read(row),
            Err(fault) => {
                self.rest = &[];
                Err(fault)
            }
        }
    }

    // The same, by `csv`.
    #[cold]
    #[inline(never)]
    fn next_read(&mut self, row: &mut Record<'a>) -> Result<bool, AllocError>
        ensures reads { IfOk result (λ found. MatchBool found
            (self.old ≡ fields_of row.new ∷ self.new)
            (self.old ≡ [])) }
        ensures ends { IfOk result (λ found. found ≡ false → self.new ≡ []) }
        ensures stops { OnErr result (self.new ≡ []) }
    {
        if let Some(records) = &mut self.other {
            return row.read(self.alloc, records);
        }
        let mut records = Records::new(self.alloc, self.rest);
        let found = row.read(self.alloc, &mut records);
        self.other = Some(records);
        found
    }
}
