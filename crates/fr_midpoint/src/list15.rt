ghost use Rattle.std.specs.Prelude.{◌≡◌, ◌<◌, ◌≤◌, pos, [], ◌∷◌, ◌++◌, length};
ghost use Rattle.fr_base.specs.Within.{IsWithin};
ghost use Rattle.fr_midpoint.specs.Midpoint.{most_value};

use std::marker::Model;

/// At most 15 values in microticks, each within 2,000,000 of 0, in a fixed place.
#[derive(Debug, Drop)]
pub struct List15 {
    pub(crate) values: [i32; 15],
    pub(crate) len: usize,
}

impl Model for List15 {
    ghost use Rattle.std.specs.Prelude.{◌≤◌, ℤ, pos, List, take, All};
    ghost use Rattle.fr_base.specs.Within.{IsWithin};
    ghost use Rattle.fr_midpoint.specs.Midpoint.{most_value};

    ghost Value = { List ℤ };

    ghost view = { λ list. take list.len list.values };

    ghost invariant = { λ list. (list.len ≤ 15) × All (IsWithin (pos most_value)) (take list.len list.values) };
}

impl List15 {
    /// A list with no values.
    pub fn new() -> List15
        ensures { result ≡ [] }
    {
        List15 {
            values: [0; 15],
            len: 0,
        }
    }

    /// Appends a value.
    pub fn push(&mut self, value: i32)
        requires room { length self.old < 15 }
        requires within { IsWithin (pos most_value) value }
        ensures { self.new ≡ self.old ++ value ∷ [] }
    {
        self.values[self.len] = value;
        self.len += 1;
    }

    /// How many values the list has, at most 15.
    pub fn len(&self) -> usize
        ensures count { result ≡ length self.now }
        ensures most { result ≤ 15 }
    {
        self.len
    }
}
