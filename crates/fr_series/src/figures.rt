ghost use Rattle.std.specs.Prelude.{◌≡◌, All, None};
ghost use Rattle.fr_time.specs.Placed.{IsPlacedRow};
ghost use Rattle.fr_series.specs.Scale.{IsScale, above_in, next_above, next_figures, next_greatest, next_lost, next_synced};

use crate::scale::Scale;
use fr_base::NodeRow;
use fr_bound::DoubleNumber;
use fr_skew::{Peak, swept};

/// What a series tells at its end.
#[derive(Clone, Copy, Debug, PartialEq, Eq)]
pub struct Figures {
    /// The first double cycle in sync in which no node follows, if there was one.
    pub synced: Option<u32>,
    /// The greatest skew since then, and its first place.
    pub greatest: Option<Peak>,
    /// From which double cycle on none is in sync, where the last is not.
    pub lost: Option<u32>,
    /// The first skew above the precision since that first one, if there was one.
    pub above: Option<Peak>,
}

impl Figures {
    /// The figures of no cycle.
    pub fn none() -> Figures
        ensures { result ≡ record { synced = None; greatest = None; lost = None; above = None } }
    {
        Figures {
            synced: None,
            greatest: None,
            lost: None,
            above: None,
        }
    }

    /// The figures after one more double cycle, by whether it is in sync and whether a node follows in it.
    pub fn followed(
        self,
        scale: &Scale,
        double: DoubleNumber,
        even: &[NodeRow],
        odd: &[NodeRow],
        in_sync: bool,
        following: bool,
    ) -> Figures
        requires scale { IsScale scale.now }
        requires even { All (IsPlacedRow scale.now.grid) even.now }
        requires odd { All (IsPlacedRow scale.now.grid) odd.now }
        ensures { result ≡ next_figures scale.now double even.now odd.now in_sync following self }
    {
        let synced = next_synced(double.0, in_sync && !following, self.synced);
        Figures {
            synced,
            greatest: next_greatest(scale, double, even, odd, synced, self.greatest),
            lost: next_lost(double.0, in_sync, self.lost),
            above: next_above(scale, double, even, odd, synced, self.above),
        }
    }
}

pub(crate) fn next_synced(double: u32, free: bool, synced: Option<u32>) -> Option<u32>
    ensures { result ≡ next_synced double free synced }
{
    match synced {
        Some(first) => Some(first),
        None => { if free { Some(double) } else { None } }
    }
}

fn next_lost(double: u32, in_sync: bool, lost: Option<u32>) -> Option<u32>
    ensures { result ≡ next_lost double in_sync lost }
{
    if in_sync {
        None
    } else {
        Some(lost.unwrap_or(double))
    }
}

pub(crate) fn next_greatest(
    scale: &Scale,
    double: DoubleNumber,
    even: &[NodeRow],
    odd: &[NodeRow],
    synced: Option<u32>,
    greatest: Option<Peak>,
) -> Option<Peak>
    requires scale { IsScale scale.now }
    requires even { All (IsPlacedRow scale.now.grid) even.now }
    requires odd { All (IsPlacedRow scale.now.grid) odd.now }
    ensures { result ≡ next_greatest scale.now double even.now odd.now synced greatest }
{
    match synced {
        None => None,
        Some(_) => {
            let greatest = swept(&scale.grid, 2 * double.0, even, greatest);
            swept(&scale.grid, 2 * double.0 + 1, odd, greatest)
        }
    }
}

pub(crate) fn next_above(
    scale: &Scale,
    double: DoubleNumber,
    even: &[NodeRow],
    odd: &[NodeRow],
    synced: Option<u32>,
    above: Option<Peak>,
) -> Option<Peak>
    requires scale { IsScale scale.now }
    requires even { All (IsPlacedRow scale.now.grid) even.now }
    requires odd { All (IsPlacedRow scale.now.grid) odd.now }
    ensures { result ≡ next_above scale.now double even.now odd.now synced above }
{
    match synced {
        None => None,
        Some(_) => match above {
            Some(earlier) => Some(earlier),
            None => above_in(scale, double, even, odd),
        },
    }
}

// The first place of a double cycle at which the skew is above the precision.
fn above_in(scale: &Scale, double: DoubleNumber, even: &[NodeRow], odd: &[NodeRow]) -> Option<Peak>
    requires scale { IsScale scale.now }
    requires even { All (IsPlacedRow scale.now.grid) even.now }
    requires odd { All (IsPlacedRow scale.now.grid) odd.now }
    ensures { result ≡ above_in scale.now double even.now odd.now }
{
    match scale.first_above(2 * double.0, even) {
        Some(earlier) => Some(earlier),
        None => scale.first_above(2 * double.0 + 1, odd),
    }
}
