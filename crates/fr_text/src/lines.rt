ghost use Rattle.std.specs.Prelude.{◌≡◌, ◌≤◌, ◌<◌, ◌+◌, length};
ghost use Rattle.fr_text.specs.Pieces.{fields_after, line, room_of_all, spelt, spelt_after};

use crate::draft::{Draft, LINE_ROOM};
use crate::line::Line;
use crate::piece::{Piece, append};

/// The line of some pieces, one after the other.
pub fn line_of(pieces: &[Piece<'_>]) -> Line
    requires { room_of_all pieces.now < LINE_ROOM }
    ensures { result ≡ spelt pieces.now }
{
    let mut line = Line::new();
    line.spell(pieces);
    line
}

/// The line of a record of a file: a word, and fields with a comma before each.
pub fn row_of(word: &[u8], fields: &[Piece<'_>]) -> Line
    requires { length word.now + room_of_all fields.now < LINE_ROOM }
    ensures { result ≡ line (fields_after word.now fields.now) }
{
    let mut line = Line::new();
    line.spell_row(word, fields);
    line
}

// Appends some pieces.
pub(crate) fn append_all(line: &mut Draft, pieces: &[Piece<'_>])
    requires { length line.old + room_of_all pieces.now ≤ LINE_ROOM }
    ensures bytes { line.new ≡ spelt_after line.old pieces.now }
    ensures short { length line.new ≤ length line.old + room_of_all pieces.now }
{
    if let Some((piece, rest)) = pieces.split_first() {
        append(line, piece);
        append_all(line, rest);
    }
}

// Appends some fields, with a comma before each.
pub(crate) fn append_fields(line: &mut Draft, fields: &[Piece<'_>])
    requires { length line.old + room_of_all fields.now ≤ LINE_ROOM }
    ensures bytes { line.new ≡ fields_after line.old fields.now }
    ensures short { length line.new ≤ length line.old + room_of_all fields.now }
{
    if let Some((field, rest)) = fields.split_first() {
        line.byte(b',');
        append(line, field);
        append_fields(line, rest);
    }
}
