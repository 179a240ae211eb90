ghost use Rattle.std.specs.Prelude.{◌≡◌, ℕ, ◌≤◌, ◌++◌, ◌∷◌, [], Some, IfOk, IfSome, IsSome, IsTrue, ◌↔◌, length, vec_len, vec_capacity};
ghost use Rattle.fr_base.specs.Device.{AddsPuts};
ghost use Rattle.fr_program.specs.PutMarks.{lengths_of};

use std::alloc::{AllocError, Global};

// How many bytes the piece of a put has, and whether it was put whole.
#[derive(Clone, Copy)]
pub(crate) struct PutMark {
    length: usize,
    is_whole: bool,
}

// Puts, failed ones too: their pieces one after the other, and a mark of each. Its room is reserved when it is made.
pub(crate) struct PutLog {
    bytes: Vec<u8>,
    marks: Vec<PutMark>,
    room: usize,
    most: usize,
    ghost measured: { lengths_of marks.items ≡ length bytes.items },
    ghost bytes_reserved: { room ≤ vec_capacity bytes },
    ghost marks_reserved: { most ≤ vec_capacity marks },
    ghost bytes_within: { vec_len bytes ≤ room },
    ghost marks_within: { vec_len marks ≤ most },
}

// One call: a derived drop is opened in each function that drops a value, and proved there.
impl Drop for PutLog {
    fn drop(self) {
        let PutLog {
            bytes: _,
            marks: _,
            room: _,
            most: _,
        } = self;
    }
}

impl PutLog {
    ghost use Rattle.fr_program.specs.PutLog.{CanTell, Fits, LogHasRoom, puts_in, kept_puts};

    // No puts, with room for so many bytes and puts. `AllocError` where memory ran out.
    pub(crate) fn new(alloc: Global, room: usize, most: usize) -> Result<PutLog, AllocError>
        ensures none { IfOk result (λ log. puts_in log ≡ []) }
        ensures room { IfOk result (LogHasRoom room most) }
    {
        let bytes = Vec::with_capacity(alloc, room)?;
        let marks = Vec::with_capacity(alloc, most)?;
        Ok(PutLog {
            bytes,
            marks,
            room,
            most,
        })
    }

    // Whether there is room for a put of the piece.
    fn has_room(&self, piece: &[u8]) -> bool
        ensures { IsTrue result ↔ Fits self.now piece.now }
    {
        piece.len() <= self.room - self.bytes.len() && self.marks.len() < self.most
    }

    // These puts and one more, where there is room for it.
    fn with_put(self, piece: &[u8], is_whole: bool) -> Option<PutLog>
        ensures added { IfSome result (λ log.
            puts_in log ≡ puts_in self ++ record { piece = piece.now; is_whole = is_whole } ∷ []) }
        ensures kept { IsSome result ↔ Fits self piece.now }
        ensures room { IfSome result (LogHasRoom self.room self.most) }
    {
        if !self.has_room(piece) {
            return None;
        }
        let PutLog {
            mut bytes,
            mut marks,
            room,
            most,
        } = self;
        let length = piece.len();
        if bytes.extend_from_slice(piece).is_err() {
            return None;
        }
        if marks.push(PutMark { length, is_whole }).is_err() {
            return None;
        }
        Some(PutLog {
            bytes,
            marks,
            room,
            most,
        })
    }

    // The puts and one more, as long as there is room: from the first on that has none, no put is told.
    pub(crate) fn noted(log: Option<PutLog>, piece: &[u8], is_whole: bool) -> Option<PutLog>
        ensures added { AddsPuts (kept_puts log) (kept_puts result)
            (record { piece = piece.now; is_whole = is_whole } ∷ []) }
        ensures kept { (room most : ℕ) → IfSome log (LogHasRoom room most)
            → IsSome (kept_puts result) ↔ CanTell (kept_puts log) room most piece.now }
        ensures room { (room most : ℕ) → IfSome log (LogHasRoom room most) → IfSome result (LogHasRoom room most) }
    {
        match log {
            Some(log) => log.with_put(piece, is_whole),
            None => None,
        }
    }
}
