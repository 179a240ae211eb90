ghost use Rattle.std.specs.Prelude.{◌≡◌, ℕ, ◌+◌, ◌/◌, ◌%◌, ◌<◌, ◌≤◌, List, [], ◌∷◌, ◌++◌, length, take};
ghost use Rattle.std.specs.Fmt.{decimal, signed_decimal};
ghost use Rattle.fr_text.specs.Numerals.{hexadecimal, digit_of};
ghost use Rattle.fr_text.specs.Pieces.{fields_after, line, room_of_all, spelt};

use crate::lines::{append_all, append_fields};
use crate::piece::Piece;
use std::marker::Model;

/// The greatest number of bytes of a line.
pub const LINE_ROOM: usize = 700;

/// What is spelt of a line, in a buffer of a fixed size: contracts see the list of its bytes. No call takes memory.
#[derive(Drop)]
pub struct Draft {
    buffer: [u8; LINE_ROOM],
    used: usize,
}

impl Model for Draft {
    ghost Value = { List ℕ };

    ghost view = { λ draft. take draft.used draft.buffer };

    ghost invariant = { λ draft. draft.used ≤ 700 };
}

impl Draft {
    /// Nothing.
    pub fn new() -> Draft
        ensures { result ≡ [] }
    {
        Draft {
            buffer: [0; LINE_ROOM],
            used: 0,
        }
    }

    // Makes it the line of some pieces, one after the other, whatever it was before.
    pub(crate) fn spell(&mut self, pieces: &[Piece<'_>])
        requires { room_of_all pieces.now < LINE_ROOM }
        ensures { self.new ≡ spelt pieces.now }
    {
        self.clear();
        append_all(self, pieces);
        self.byte(b'\n');
    }

    // Makes it the line of a record of a file: a word, and fields with a comma before each.
    pub(crate) fn spell_row(&mut self, word: &[u8], fields: &[Piece<'_>])
        requires { length word.now + room_of_all fields.now < LINE_ROOM }
        ensures { self.new ≡ line (fields_after word.now fields.now) }
    {
        self.spell_front(word, fields);
        self.byte(b'\n');
    }

    /// Makes it the front of such a line, without its end.
    pub fn spell_front(&mut self, word: &[u8], fields: &[Piece<'_>])
        requires { length word.now + room_of_all fields.now ≤ LINE_ROOM }
        ensures bytes { self.new ≡ fields_after word.now fields.now }
        ensures short { length self.new ≤ length word.now + room_of_all fields.now }
    {
        self.clear();
        self.word(word);
        append_fields(self, fields);
    }

    // Removes all bytes.
    fn clear(&mut self)
        ensures { self.new ≡ [] }
    {
        self.used = 0;
    }

    // Appends a byte.
    pub(crate) fn byte(&mut self, byte: u8)
        requires { length self.old < LINE_ROOM }
        ensures bytes { self.new ≡ self.old ++ byte ∷ [] }
        ensures long { length self.new ≡ length self.old + 1 }
    {
        self.buffer[self.used] = byte;
        self.used += 1;
    }

    // Appends the bytes of a word.
    pub(crate) fn word(&mut self, word: &[u8])
        requires { length self.old + length word.now ≤ LINE_ROOM }
        ensures bytes { self.new ≡ self.old ++ word.now }
        ensures long { length self.new ≡ length self.old + length word.now }
    {
        put_at(&mut self.buffer, self.used, word);
        self.used += word.len();
    }

    // Appends a number in decimal: no leading zeros, and a `-` before a negative one.
    pub(crate) fn signed(&mut self, value: i64)
        requires { length self.old + length (signed_decimal value) ≤ LINE_ROOM }
        ensures bytes { self.new ≡ self.old ++ signed_decimal value }
        ensures long { length self.new ≡ length self.old + length (signed_decimal value) }
    {
        if value < 0 {
            self.byte(b'-');
        }
        self.natural(value.unsigned_abs());
    }

    // Appends a number in decimal, without leading zeros.
    pub(crate) fn natural(&mut self, value: u64)
        requires { length self.old + length (decimal value) ≤ LINE_ROOM }
        ensures bytes { self.new ≡ self.old ++ decimal value }
        ensures long { length self.new ≡ length self.old + length (decimal value) }
    {
        if value >= 100 {
            self.natural(value / 100);
            self.two_digits((value % 100) as u8);
        } else if value >= 10 {
            self.two_digits(value as u8);
        } else {
            self.byte(b'0' + value as u8);
        }
    }

    // Appends the two digits of a number below 100.
    fn two_digits(&mut self, value: u8)
        requires below { value < 100 }
        requires room { length self.old + 2 ≤ LINE_ROOM }
        ensures bytes { self.new ≡ self.old ++ (48 + value / 10) ∷ (48 + value % 10) ∷ [] }
        ensures long { length self.new ≡ length self.old + 2 }
    {
        self.word(&[b'0' + value / 10, b'0' + value % 10]);
    }

    // Appends the last hexadecimal digits of a number, so many of them, upper case, with leading zeros.
    pub(crate) fn hex(&mut self, value: u32, digits: u8)
        requires { length self.old + digits ≤ LINE_ROOM }
        ensures bytes { self.new ≡ self.old ++ hexadecimal digits value }
        ensures long { length self.new ≡ length self.old + digits }
    {
        if digits > 0 {
            self.hex(value / 16, digits - 1);
            self.byte(hex_digit((value % 16) as u8));
        }
    }

    /// Its bytes.
    pub fn bytes(&self) -> &[u8]
        ensures { result.now ≡ self.now }
    {
        &self.buffer[..self.used]
    }
}

// Writes the piece over the bytes from this place on.
fn put_at(buffer: &mut [u8], at: usize, piece: &[u8])
    requires { at + length piece.now ≤ length buffer.old }
    ensures { take (at + length piece.now) buffer.new ≡ take at buffer.old ++ piece.now }
{
    buffer[at..at + piece.len()].copy_from_slice(piece);
}

fn hex_digit(digit: u8) -> u8
    requires { digit < 16 }
    ensures { result ≡ digit_of digit }
{
    if digit < 10 {
        b'0' + digit
    } else {
        b'A' + (digit - 10)
    }
}
