ghost use Rattle.std.specs.Prelude.{◌≡◌};

/// The state of a node's protocol operation control (chapter 2 of the standard): an active node sends,
/// receives and corrects its clock, a passive one receives and corrects, a halted one neither sends nor
/// receives.
#[derive(Clone, Copy, Debug, PartialEq, Eq)]
pub enum State {
    Active,
    Passive,
    Halt,
}

impl State {
    ghost use Rattle.fr_base.specs.States.{is_active, is_halted, state_text};

    /// Whether a node in it sends.
    pub fn is_active(self) -> bool
        ensures { result ≡ is_active self }
    {
        matches!(self, State::Active)
    }

    /// Whether a node in it neither sends nor receives.
    pub fn is_halted(self) -> bool
        ensures { result ≡ is_halted self }
    {
        matches!(self, State::Halt)
    }

    /// Its name.
    pub fn word(self) -> &'static [u8]
        ensures { result.now ≡ state_text self }
    {
        match self {
            State::Active => b"active",
            State::Passive => b"passive",
            State::Halt => b"halt",
        }
    }
}

/// How the computation of a correction term ended.
#[derive(Clone, Copy, Debug, PartialEq, Eq)]
pub enum Outcome {
    /// The term lies within its limit.
    Within,
    /// No value was there to compute it from.
    Missing,
    /// It lay outside its limit and was cut.
    Exceeded,
}

impl Outcome {
    ghost use Rattle.fr_base.specs.States.{cut_of};

    /// One for a term that was cut, else 0.
    pub fn cut(self) -> u8
        ensures { result ≡ cut_of self }
    {
        match self {
            Outcome::Exceeded => 1,
            Outcome::Within | Outcome::Missing => 0,
        }
    }
}
