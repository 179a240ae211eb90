ghost use Rattle.std.specs.Prelude.{◌≡◌, ℕ, ◌+◌, ◌-◌, ◌<◌, ◌≤◌, List, [], ◌∷◌, ◌++◌, length, drop};
ghost use Rattle.std.specs.Fmt.{decimal};
ghost use Rattle.fr_text.specs.Numerals.{digit_of, hexadecimal};

use std::marker::Model;

// The greatest number of bytes of a line's end.
pub(crate) const END_ROOM: usize = 128;

// The end of a line, in a buffer of a fixed size: contracts see the list of its bytes. Words and numbers are put
// before it, since the digits of a number come from the last one on. No call takes memory.
#[derive(Drop)]
pub(crate) struct LineEnd {
    buffer: [u8; END_ROOM],
    start: usize,
}

impl Model for LineEnd {
    ghost Value = { List ℕ };

    ghost view = { λ end. drop end.start end.buffer };

    ghost invariant = { λ end. end.start ≤ 128 };
}

impl LineEnd {
    // No bytes.
    pub(crate) fn new() -> LineEnd
        ensures { result ≡ [] }
    {
        LineEnd {
            buffer: [0; END_ROOM],
            start: END_ROOM,
        }
    }

    // Puts the bytes of a word before it.
    pub(crate) fn word(&mut self, word: &[u8])
        requires { length word.now + length self.old ≤ END_ROOM }
        ensures bytes { self.new ≡ word.now ++ self.old }
        ensures long { length self.new ≡ length word.now + length self.old }
    {
        self.start -= word.len();
        put_at(&mut self.buffer, self.start, word);
    }

    // Puts a number in decimal before it, without leading zeros.
    pub(crate) fn natural(&mut self, value: u64)
        requires { 20 + length self.old ≤ END_ROOM }
        ensures bytes { self.new ≡ decimal value ++ self.old }
        ensures short { length self.new ≤ 20 + length self.old }
    {
        self.digits(value);
    }

    // The same, where its digits have room.
    fn digits(&mut self, value: u64)
        requires { length (decimal value) + length self.old ≤ END_ROOM }
        ensures { self.new ≡ decimal value ++ self.old }
    {
        self.byte(b'0' + (value % 10) as u8);
        if value >= 10 {
            self.digits(value / 10);
        }
    }

    // Puts the last hexadecimal digits of a number before it, so many of them, upper case, with leading zeros.
    pub(crate) fn hex(&mut self, value: u32, digits: u8)
        requires { digits + length self.old ≤ END_ROOM }
        ensures bytes { self.new ≡ hexadecimal digits value ++ self.old }
        ensures long { length self.new ≡ digits + length self.old }
    {
        if digits > 0 {
            self.byte(hex_digit((value % 16) as u8));
            self.hex(value / 16, digits - 1);
        }
    }

    // Puts a byte before it.
    fn byte(&mut self, byte: u8)
        requires { length self.old < END_ROOM }
        ensures bytes { self.new ≡ byte ∷ self.old }
        ensures long { length self.new ≡ length self.old + 1 }
    {
        self.start -= 1;
        self.buffer[self.start] = byte;
    }

    // Its bytes.
    pub(crate) fn bytes(&self) -> &[u8]
        ensures { result.now ≡ self.now }
    {
        &self.buffer[self.start..]
    }
}

// Writes the piece over the bytes from this place on.
fn put_at(buffer: &mut [u8], at: usize, piece: &[u8])
    requires { at + length piece.now ≤ length buffer.old }
    ensures { drop at buffer.new ≡ piece.now ++ drop (at + length piece.now) buffer.old }
{
    buffer[at..at + piece.len()].copy_from_slice(piece);
}

fn hex_digit(digit: u8) -> u8
    requires { digit < 16 }
    ensures { result ≡ digit_of digit }
{
    if digit < 10 {
        b'0' + digit
    } else {
        b'A' + (digit - 10)
    }
}
