ghost use Rattle.std.specs.Prelude.{◌≡◌, ◌∷◌, []};
ghost use Rattle.fr_findings.specs.Counting.{AreFewCycles, counted, most_counted};

use fr_observe::Says;

/// How many cycles say what.
#[derive(Clone, Copy, Debug, PartialEq, Eq)]
pub struct Counts {
    pub within: u64,
    pub over: u64,
    pub neither: u64,
}

impl Counts {
    // None.
    pub(crate) fn new() -> Counts
        ensures { result ≡ record { within = 0; over = 0; neither = 0 } }
    {
        Counts {
            within: 0,
            over: 0,
            neither: 0,
        }
    }

    // One more.
    pub(crate) fn add(&mut self, says: Says)
        requires { AreFewCycles most_counted self.old }
        ensures { self.new ≡ counted self.old (says ∷ []) }
    {
        match says {
            Says::Over => self.over += 1,
            Says::Within => self.within += 1,
            Says::Open => self.neither += 1,
        }
    }
}
