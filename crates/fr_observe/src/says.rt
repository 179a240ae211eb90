ghost use Rattle.std.specs.Prelude.{◌≡◌, ◌≤◌, length};
ghost use Rattle.fr_observe.specs.Observing.{says_of, says_text, says_up_to};

/// What the limits of a cycle's skew say of it.
#[derive(Clone, Copy, Debug, PartialEq, Eq)]
pub enum Says {
    /// It is above the precision.
    Over,
    /// It is within the precision.
    Within,
    /// Neither.
    Open,
}

impl Says {
    /// What limits say, in ticks, of which the upper one may be missing.
    pub fn of(precision: i64, low: i64, high: Option<i64>) -> Says
        ensures { result ≡ says_of precision low high }
    {
        if precision < low {
            Says::Over
        } else {
            Says::to(precision, high)
        }
    }

    fn to(precision: i64, high: Option<i64>) -> Says
        ensures { result ≡ says_up_to precision high }
    {
        match high {
            None => Says::Open,
            Some(high) => {
                if high <= precision {
                    Says::Within
                } else {
                    Says::Open
                }
            }
        }
    }

    // Its word.
    pub(crate) fn word(self) -> &'static [u8]
        ensures text { result.now ≡ says_text self }
        ensures short { length result.now ≤ 6 }
    {
        match self {
            Says::Over => b"over",
            Says::Within => b"within",
            Says::Open => b"open",
        }
    }
}
