ghost use Rattle.std.specs.Prelude.{◌≡◌, ◌≤◌, ◌+◌, ◌*◌, ◌++◌, length};
ghost use Rattle.std.specs.List.{flat_map};
ghost use Rattle.std.specs.Fmt.{decimal, signed_decimal};
ghost use Rattle.fr_text.specs.Numerals.{hexadecimal};
ghost use Rattle.fr_text.specs.Pieces.{spelling, room_of_piece};

use crate::draft::{Draft, LINE_ROOM};

/// A part of a line.
#[derive(Clone, Copy, Debug)]
pub enum Piece<'a> {
    /// The bytes as they are.
    Word(&'a [u8]),
    /// A number in decimal, without leading zeros.
    Natural(u64),
    /// A number in decimal, with a `-` before a negative one.
    Signed(i64),
    /// The last hexadecimal digits of a number, so many of them, upper case, with leading zeros.
    Hex(u32, u8),
    /// Each byte as two hexadecimal digits.
    Bytes(&'a [u8]),
}

// Appends a piece.
pub(crate) fn append(line: &mut Draft, piece: &Piece<'_>)
    requires { length line.old + room_of_piece piece.now ≤ LINE_ROOM }
    ensures bytes { line.new ≡ line.old ++ spelling piece.now }
    ensures short { length line.new ≤ length line.old + room_of_piece piece.now }
{
    match *piece {
        Piece::Word(word) => line.word(word),
        Piece::Natural(value) => append_natural(line, value),
        Piece::Signed(value) => append_signed(line, value),
        Piece::Hex(value, digits) => line.hex(value, digits),
        Piece::Bytes(bytes) => append_bytes(line, bytes),
    }
}

fn append_natural(line: &mut Draft, value: u64)
    requires { length line.old + 20 ≤ LINE_ROOM }
    ensures bytes { line.new ≡ line.old ++ decimal value }
    ensures short { length line.new ≤ length line.old + 20 }
{
    line.natural(value);
}

fn append_signed(line: &mut Draft, value: i64)
    requires { length line.old + 20 ≤ LINE_ROOM }
    ensures bytes { line.new ≡ line.old ++ signed_decimal value }
    ensures short { length line.new ≤ length line.old + 20 }
{
    line.signed(value);
}

fn append_bytes(line: &mut Draft, bytes: &[u8])
    requires { length line.old + 2 * length bytes.now ≤ LINE_ROOM }
    ensures bytes { line.new ≡ line.old ++ flat_map (hexadecimal 2) bytes.now }
    ensures short { length line.new ≤ length line.old + 2 * length bytes.now }
{
    for byte in bytes {
        line.hex(u32::from(*byte), 2);
    }
}
