ghost use Rattle.std.specs.Prelude.{◌≡◌, All, None};
ghost use Rattle.fr_time.specs.Placed.{IsPlacedRow};
ghost use Rattle.fr_series.specs.Basis.{next_sharply, tallied, AreScales};
ghost use Rattle.fr_series.specs.Scale.{IsScale};

use crate::figures::{Figures, next_above, next_greatest, next_synced};
use crate::scale::Scale;
use crate::sharp_writing::are_in_sharp_sync;
use crate::writing::are_in_sync;
use fr_base::NodeRow;
use fr_bound::DoubleNumber;
use fr_skew::Peak;

/// What a sharper series tells at its end of the cycles of its run.
#[derive(Clone, Copy, Debug, PartialEq, Eq)]
pub struct Tally {
    /// The figures of a series.
    pub older: Figures,
    /// Those of sharp sync.
    pub sharp: SharpFigures,
}

impl Tally {
    /// The figures of no cycle.
    pub fn none() -> Tally
        ensures older { result.older ≡ record { synced = None; greatest = None; lost = None; above = None } }
        ensures sharp { result.sharp ≡ record { synced = None; greatest = None; above = None } }
    {
        Tally {
            older: Figures::none(),
            sharp: SharpFigures::none(),
        }
    }

    // Those after one more double cycle, by the rows of its two cycles and whether a node follows in it.
    pub(crate) fn followed(
        self,
        older: &Scale,
        sharp: &Scale,
        double: DoubleNumber,
        even: &[NodeRow],
        odd: &[NodeRow],
        following: bool,
    ) -> Tally
        requires scales { AreScales older.now sharp.now }
        requires even { All (IsPlacedRow older.now.grid) even.now }
        requires odd { All (IsPlacedRow older.now.grid) odd.now }
        ensures { result ≡ tallied older.now sharp.now double even.now odd.now following self }
    {
        let in_sync = are_in_sync(older, even, odd);
        let in_sharp = are_in_sharp_sync(sharp, even, odd);
        Tally {
            older: self
                .older
                .followed(older, double, even, odd, in_sync, following),
            sharp: self
                .sharp
                .followed(sharp, double, even, odd, in_sharp, following),
        }
    }
}

/// What is told of sharp sync.
#[derive(Clone, Copy, Debug, PartialEq, Eq)]
pub struct SharpFigures {
    /// The first double cycle in sharp sync in which no node follows, if there was one.
    pub synced: Option<u32>,
    /// The greatest skew since then, and its first place.
    pub greatest: Option<Peak>,
    /// The first skew above the sharper precision since then, if there was one.
    pub above: Option<Peak>,
}

impl SharpFigures {
    /// The figures of no cycle.
    pub fn none() -> SharpFigures
        ensures { result ≡ record { synced = None; greatest = None; above = None } }
    {
        SharpFigures {
            synced: None,
            greatest: None,
            above: None,
        }
    }

    /// The figures after one more double cycle, by whether it is in sharp sync and whether a node follows in it.
    pub fn followed(
        self,
        scale: &Scale,
        double: DoubleNumber,
        even: &[NodeRow],
        odd: &[NodeRow],
        in_sync: bool,
        following: bool,
    ) -> SharpFigures
        requires scale { IsScale scale.now }
        requires even { All (IsPlacedRow scale.now.grid) even.now }
        requires odd { All (IsPlacedRow scale.now.grid) odd.now }
        ensures { result ≡ next_sharply scale.now double even.now odd.now in_sync following self }
    {
        let synced = next_synced(double.0, in_sync && !following, self.synced);
        SharpFigures {
            synced,
            greatest: next_greatest(scale, double, even, odd, synced, self.greatest),
            above: next_above(scale, double, even, odd, synced, self.above),
        }
    }
}
