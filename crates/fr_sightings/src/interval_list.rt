ghost use Rattle.std.specs.Prelude.{◌≡◌, ◌<◌, [], ◌∷◌, ◌++◌, length};

use fr_course::Interval;
use std::marker::Model;

// At most 65 intervals, one of a receiver's own and one of each of 64 senders: contracts see their list.
#[derive(Drop)]
pub(crate) struct IntervalList {
    places: [Interval; 65],
    used: usize,
}

impl Model for IntervalList {
    ghost use Rattle.std.specs.Prelude.{◌≤◌, List, take};
    ghost use Rattle.fr_course.specs.declared.intervals.Interval.{Interval as Known};

    ghost Value = { List Known };

    ghost view = { λ list. take list.used list.places };

    ghost invariant = { λ list. list.used ≤ 65 };
}

impl IntervalList {
    // No intervals.
    pub(crate) fn new() -> IntervalList
        ensures { result ≡ [] }
    {
        IntervalList {
            places: [Interval { low: 0, high: 0 }; 65],
            used: 0,
        }
    }

    // Appends an interval.
    pub(crate) fn push(&mut self, interval: Interval)
        requires { length self.old < 65 }
        ensures { self.new ≡ self.old ++ interval ∷ [] }
    {
        self.places[self.used] = interval;
        self.used += 1;
    }

    // The intervals as a slice.
    pub(crate) fn as_slice(&self) -> &[Interval]
        ensures { result.now ≡ self.now }
    {
        &self.places[..self.used]
    }
}
