ghost use Rattle.std.specs.Prelude.{◌≡◌, ℕ, ◌+◌, ◌<◌, ◌≤◌, List, [], ◌∷◌, ◌++◌, length, drop};
ghost use Rattle.std.specs.Fmt.{decimal, signed_decimal};

use std::marker::Model;

// The greatest number of bytes of the line of a deviation.
const DEV_ROOM: usize = 128;

// The line of a deviation, which is spelt from its end on, since the digits of a number come from the last one on:
// contracts see the list of the bytes that are there. There are the most of these lines. No call takes memory.
#[derive(Drop)]
pub(crate) struct DevLine {
    buffer: [u8; DEV_ROOM],
    start: usize,
}

impl Model for DevLine {
    ghost Value = { List ℕ };

    ghost view = { λ line. drop line.start line.buffer };

    ghost invariant = { λ line. line.start ≤ 128 };
}

impl DevLine {
    // No bytes.
    pub(crate) fn new() -> DevLine
        ensures { result ≡ [] }
    {
        DevLine {
            buffer: [0; DEV_ROOM],
            start: DEV_ROOM,
        }
    }

    // Removes all bytes.
    pub(crate) fn clear(&mut self)
        ensures { self.new ≡ [] }
    {
        self.start = DEV_ROOM;
    }

    // Puts the bytes of a word before those that are there.
    pub(crate) fn word(&mut self, word: &[u8])
        requires { length word.now + length self.old ≤ DEV_ROOM }
        ensures bytes { self.new ≡ word.now ++ self.old }
        ensures long { length self.new ≡ length word.now + length self.old }
    {
        self.start -= word.len();
        self.buffer[self.start..self.start + word.len()].copy_from_slice(word);
    }

    // Puts a number in decimal before them: no leading zeros, and a `-` before a negative one.
    pub(crate) fn signed(&mut self, value: i64)
        requires { 21 + length self.old ≤ DEV_ROOM }
        ensures bytes { self.new ≡ signed_decimal value ++ self.old }
        ensures short { length self.new ≤ 21 + length self.old }
    {
        self.digits(value.unsigned_abs());
        if value < 0 {
            self.byte(b'-');
        }
    }

    // Puts the digits of a number before them, without leading zeros.
    fn digits(&mut self, value: u64)
        requires { length (decimal value) + length self.old ≤ DEV_ROOM }
        ensures { self.new ≡ decimal value ++ self.old }
    {
        self.byte(b'0' + (value % 10) as u8);
        if value >= 10 {
            self.digits(value / 10);
        }
    }

    // Puts a byte before them.
    pub(crate) fn byte(&mut self, byte: u8)
        requires { length self.old < DEV_ROOM }
        ensures bytes { self.new ≡ byte ∷ self.old }
        ensures long { length self.new ≡ length self.old + 1 }
    {
        self.start -= 1;
        self.buffer[self.start] = byte;
    }

    // The bytes that are there.
    pub(crate) fn bytes(&self) -> &[u8]
        ensures { result.now ≡ self.now }
    {
        &self.buffer[self.start..]
    }
}
