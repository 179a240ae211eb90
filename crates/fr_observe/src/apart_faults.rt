ghost use Rattle.std.specs.Prelude.{◌≡◌, ◌≤ℤ◌, All};
ghost use Rattle.fr_base.specs.Within.{IsBetween};
ghost use Rattle.fr_course.specs.Near.{IsInTicks, IsNearCourse};
ghost use Rattle.fr_course.specs.Spread.{lengths_apart, starts_apart};
ghost use Rattle.fr_observe.specs.Faults.{beyond_fault, beyond_with, skew_fault};
ghost use Rattle.fr_observe.specs.Scenes.{IsScene};
ghost use Rattle.fr_observe.specs.Telling.{TellsFaults, apart_faults, skew_faults};
ghost use Rattle.fr_course.specs.Ranges.{greatest_ticks};
ghost use Rattle.fr_observe.specs.Ranges.{least_bound};

use crate::fault::{Fault, Range};
use crate::scene::Scene;
use crate::skews::{Skews, courses_of};
use crate::telling::tell;
use fr_base::{PutFault, Sink};
use fr_course::{Course, Interval, Scale, lengths_apart, starts_apart};

// The skew was certainly greater than a bound.
fn skew_fault(bound: i128, cycle: u32, low: i64, high: Option<i64>) -> Option<Fault>
    requires { least_bound ≤ℤ bound }
    ensures { result ≡ skew_fault bound cycle low high }
{
    if bound < i128::from(low) {
        Some(Fault::Skew {
            cycle,
            low,
            high,
            most: bound as i64,
        })
    } else {
        None
    }
}

/// Tells where the skew of a double cycle was certainly greater than a bound, in ticks: a line for each cycle, and the
/// first one of all that were told is kept.
pub fn put_skews<O: Sink>(
    bound: i128,
    scene: &Scene<'_>,
    first: &mut Option<Fault>,
    out: &mut O,
) -> Result<(), PutFault>
    requires bound { least_bound ≤ℤ bound }
    requires scene { IsScene scene.now }
    ensures { TellsFaults result (O.state out.old) (O.state out.new) first.old first.new
        (skew_faults bound scene.now.scale.now scene.now.number scene.now.senders.now) }
{
    let Skews {
        even_low,
        even_high,
        odd_low,
        odd_high,
    } = *scene.skews;
    let even = 2 * scene.number;
    tell(skew_fault(bound, even, even_low, even_high), first, out)?;
    tell(skew_fault(bound, even + 1, odd_low, odd_high), first, out)
}

/// What lies apart in the even cycle of a double cycle.
#[derive(Clone, Copy, Debug, PartialEq, Eq)]
pub enum Apart {
    /// The starts of nodes.
    Starts,
    /// The lengths of their cycles, before correction.
    Lengths,
}

// They lay further apart than a bound.
fn beyond_with(what: Apart, cycle: u32, bound: i128, seen: &Interval) -> Fault
    requires bound { IsBetween least_bound greatest_ticks bound }
    requires seen { IsInTicks seen.now }
    ensures { result ≡ beyond_with what cycle bound seen.now }
{
    match what {
        Apart::Starts => Fault::Start {
            cycle,
            apart: Range::of(seen),
            most: bound as i64,
        },
        Apart::Lengths => Fault::Lengths {
            cycle,
            apart: Range::of(seen),
            most: bound as i64,
        },
    }
}

// They certainly did.
fn beyond_fault(what: Apart, cycle: u32, bound: i128, seen: &Interval) -> Option<Fault>
    requires bound { least_bound ≤ℤ bound }
    requires seen { IsInTicks seen.now }
    ensures { result ≡ beyond_fault what cycle bound seen.now }
{
    if bound < seen.low {
        Some(beyond_with(what, cycle, bound, seen))
    } else {
        None
    }
}

fn starts_fault(scale: &Scale, cycle: u32, bound: i128, courses: &[Course]) -> Option<Fault>
    requires bound { least_bound ≤ℤ bound }
    requires courses { All (IsNearCourse scale.now) courses.now }
    ensures { result ≡ beyond_fault Apart.Starts cycle bound (starts_apart scale.now courses.now) }
{
    beyond_fault(Apart::Starts, cycle, bound, &starts_apart(scale, courses))
}

fn lengths_fault(scale: &Scale, cycle: u32, bound: i128, courses: &[Course]) -> Option<Fault>
    requires bound { least_bound ≤ℤ bound }
    requires courses { All (IsNearCourse scale.now) courses.now }
    ensures { result ≡ beyond_fault Apart.Lengths cycle bound (lengths_apart scale.now courses.now) }
{
    beyond_fault(Apart::Lengths, cycle, bound, &lengths_apart(scale, courses))
}

/// Tells where the starts, or the lengths, of the even cycles of a double cycle certainly lay further apart than these bounds, in
/// ticks: a line for each, and the first one of all that were told is kept.
pub fn put_apart<O: Sink>(
    starts: i128,
    lengths: i128,
    scene: &Scene<'_>,
    first: &mut Option<Fault>,
    out: &mut O,
) -> Result<(), PutFault>
    requires starts { least_bound ≤ℤ starts }
    requires lengths { least_bound ≤ℤ lengths }
    requires scene { IsScene scene.now }
    ensures { TellsFaults result (O.state out.old) (O.state out.new) first.old first.new
        (apart_faults starts lengths scene.now.scale.now scene.now.number scene.now.senders.now) }
{
    let even = 2 * scene.number;
    let courses = courses_of(scene.scale, scene.senders);
    let starts = starts_fault(scene.scale, even, starts, courses.as_slice());
    let lengths = lengths_fault(scene.scale, even, lengths, courses.as_slice());
    tell(starts, first, out)?;
    tell(lengths, first, out)
}
