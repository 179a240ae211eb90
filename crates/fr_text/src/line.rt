ghost use Rattle.std.specs.Prelude.{◌≡◌, ℕ, ◌+◌, ◌<◌, List, [], length};
ghost use Rattle.fr_base.specs.Device.{IsEnded};
ghost use Rattle.fr_text.specs.Pieces.{fields_after, line, room_of_all, spelt};

use crate::draft::{Draft, LINE_ROOM};
use crate::piece::Piece;
use std::marker::Model;

/// A line: contracts see the list of its bytes, of which the last is a line feed. No call takes memory.
#[derive(Drop)]
pub struct Line {
    draft: Draft,
}

impl Model for Line {
    ghost Value = { List ℕ };

    ghost view = { λ line. line.draft };

    ghost invariant = { λ line. IsEnded line.draft };
}

impl Line {
    /// A line of nothing but its end.
    pub fn new() -> Line
        ensures { result ≡ line [] }
    {
        let mut draft = Draft::new();
        draft.byte(b'\n');
        Line { draft }
    }

    /// Makes the line that of some pieces, one after the other, whatever it was before.
    pub fn spell(&mut self, pieces: &[Piece<'_>])
        requires { room_of_all pieces.now < LINE_ROOM }
        ensures { self.new ≡ spelt pieces.now }
    {
        self.draft.spell(pieces);
    }

    /// Makes the line that of a record of a file: a word, and fields with a comma before each.
    pub fn spell_row(&mut self, word: &[u8], fields: &[Piece<'_>])
        requires { length word.now + room_of_all fields.now < LINE_ROOM }
        ensures { self.new ≡ line (fields_after word.now fields.now) }
    {
        self.draft.spell_row(word, fields);
    }

    /// The bytes of the line.
    pub fn bytes(&self) -> &[u8]
        ensures { result.now ≡ self.now }
    {
        self.draft.bytes()
    }

    // Its bytes, which end with a line feed.
    pub(crate) fn ended_bytes(&self) -> &[u8]
        ensures bytes { result.now ≡ self.now }
        ensures ended { IsEnded result.now }
    {
        self.draft.bytes()
    }
}
