ghost use Rattle.std.specs.Prelude.{◌≡◌, ℕ, ◌+◌, ◌<◌, ◌≤◌, List, [], ◌∷◌, ◌++◌, length, take};
ghost use Rattle.std.specs.Fmt.{decimal};

use std::marker::Model;

/// The digits of a number of 128 bits in decimal, without leading zeros: contracts see the list of their bytes. No call
/// takes memory.
#[derive(Drop)]
pub struct Digits {
    buffer: [u8; 40],
    used: usize,
}

impl Model for Digits {
    ghost Value = { List ℕ };

    ghost view = { λ digits. take digits.used digits.buffer };

    ghost invariant = { λ digits. digits.used ≤ 40 };
}

impl Digits {
    /// Those of a number.
    pub fn of(value: u128) -> Digits
        ensures { result ≡ decimal value }
    {
        let mut digits = Digits::none();
        digits.append(value);
        digits
    }

    fn none() -> Digits
        ensures { result ≡ [] }
    {
        Digits {
            buffer: [0; 40],
            used: 0,
        }
    }

    // Appends those of a number.
    fn append(&mut self, value: u128)
        requires { length self.old + length (decimal value) ≤ 40 }
        ensures bytes { self.new ≡ self.old ++ decimal value }
        ensures long { length self.new ≡ length self.old + length (decimal value) }
    {
        if value >= 10 {
            self.append(value / 10);
            self.digit((value % 10) as u8);
        } else {
            self.digit(value as u8);
        }
    }

    // Appends one of them.
    fn digit(&mut self, value: u8)
        requires below { value < 10 }
        requires room { length self.old < 40 }
        ensures bytes { self.new ≡ self.old ++ (48 + value) ∷ [] }
        ensures long { length self.new ≡ length self.old + 1 }
    {
        self.buffer[self.used] = b'0' + value;
        self.used += 1;
    }

    /// Their bytes, 39 at most.
    pub fn bytes(&self) -> &[u8]
        ensures bytes { result.now ≡ self.now }
        ensures short { length result.now ≤ 40 }
    {
        &self.buffer[..self.used]
    }
}
