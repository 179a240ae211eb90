ghost use Rattle.std.specs.Prelude.{◌≡◌};
ghost use Rattle.fr_precision.specs.Among.{both};

use fr_bound::Heard;

/// What is heard in a double cycle: of offset values, which take the frames of its odd cycle, and of rate values, which take
/// those of both its cycles (section 8.5).
#[derive(Clone, Copy, Debug, PartialEq, Eq)]
pub struct Kinds {
    /// What is heard of offset values: by that the next starts come together.
    pub offsets: Heard,
    /// What is heard of rate values: by that the next even lengths come together.
    pub rates: Heard,
}

impl Kinds {
    /// The same of both kinds of values.
    pub fn both(kind: Heard) -> Kinds
        ensures { result ≡ both kind }
    {
        Kinds {
            offsets: kind,
            rates: kind,
        }
    }
}
