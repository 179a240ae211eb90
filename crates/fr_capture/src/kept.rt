ghost use Rattle.std.specs.Prelude.{◌≡◌, ℕ, ◌+◌, ◌≤◌, List, [], ◌++◌, length, take};

use std::marker::Model;

/// The greatest number of bytes of a frame.
pub(crate) const FRAME_ROOM: usize = 262;

// Bytes that are kept, at most as many as a frame has: contracts see their list. No call takes memory.
#[derive(Debug, Drop)]
pub(crate) struct Kept {
    buffer: [u8; FRAME_ROOM],
    used: usize,
}

impl Model for Kept {
    ghost Value = { List ℕ };

    ghost view = { λ kept. take kept.used kept.buffer };

    ghost invariant = { λ kept. kept.used ≤ 262 };
}

impl Kept {
    // No bytes.
    pub(crate) fn new() -> Kept
        ensures { result ≡ [] }
    {
        Kept {
            buffer: [0; FRAME_ROOM],
            used: 0,
        }
    }

    // Drops all bytes.
    pub(crate) fn clear(&mut self)
        ensures { self.new ≡ [] }
    {
        self.used = 0;
    }

    // Appends bytes.
    pub(crate) fn append(&mut self, piece: &[u8])
        requires { length self.old + length piece.now ≤ FRAME_ROOM }
        ensures { self.new ≡ self.old ++ piece.now }
    {
        put_at(&mut self.buffer, self.used, piece);
        self.used += piece.len();
    }

    // The bytes as a slice.
    pub(crate) fn as_slice(&self) -> &[u8]
        ensures bytes { result.now ≡ self.now }
        ensures few { length result.now ≤ FRAME_ROOM }
    {
        &self.buffer[..self.used]
    }
}

// Writes the piece over the bytes from this place on.
fn put_at(buffer: &mut [u8], at: usize, piece: &[u8])
    requires { at + length piece.now ≤ length buffer.old }
    ensures { take (at + length piece.now) buffer.new ≡ take at buffer.old ++ piece.now }
{
    buffer[at..at + piece.len()].copy_from_slice(piece);
}
