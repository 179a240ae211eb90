ghost use Rattle.std.specs.Prelude.{◌≡◌, ◌≤◌};
ghost use Rattle.fr_base.specs.States.{cut_of};

use fr_base::Outcome;

// How many terms an outcome says to be cut.
pub(crate) fn cut_count(outcome: Outcome) -> u8
    ensures value { result ≡ cut_of outcome }
    ensures most { result ≤ 1 }
{
    match outcome {
        Outcome::Within | Outcome::Missing => 0,
        Outcome::Exceeded => 1,
    }
}
