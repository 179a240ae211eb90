ghost use Rattle.std.specs.Prelude.{◌≡◌};
ghost use Rattle.fr_judging.specs.Knowing.{judged_met};

use crate::obstacle::Obstacle;
use fr_bound::{Heard, Known};

/// How a double cycle of a log stands.
#[derive(Clone, Copy, Debug, PartialEq, Eq)]
pub struct Standing {
    /// What its nodes hear of each other, where that is told by the counts of sync nodes.
    pub heard: Option<Heard>,
    /// What is known of it from the double cycle before, where that was judged, and by what the log states, in ticks.
    pub known: Option<Known>,
    /// That, met with what is seen of it.
    pub met: Option<Known>,
    /// Whether it is judged by this.
    pub is_judged: bool,
    /// What keeps it from being judged; none where it is.
    pub obstacle: Option<Obstacle>,
}

// The numbers that it is judged by.
pub(crate) fn judged_met(standing: &Standing) -> Option<Known>
    ensures { result ≡ judged_met standing.now }
{
    if standing.is_judged {
        standing.met
    } else {
        None
    }
}
