ghost use Rattle.std.specs.Prelude.{◌≡◌, ◌≤◌, length};
ghost use Rattle.fr_observe.specs.Faults.{term_word};

/// A correction term.
#[derive(Clone, Copy, Debug, PartialEq, Eq)]
pub enum Term {
    Offset,
    Rate,
}

impl Term {
    /// Its word in records.
    pub fn word(self) -> &'static [u8]
        ensures text { result.now ≡ term_word self }
        ensures short { length result.now ≤ 6 }
    {
        match self {
            Term::Offset => b"offset",
            Term::Rate => b"rate",
        }
    }
}
