ghost use Rattle.std.specs.Prelude.{◌≡◌, ◌≤◌, pos};
ghost use Rattle.fr_bound.specs.Bounds.{longest_micro, shortest_micro, widest, arrival_error, cycle_change, y1_of, lambda_of, pi_of, precision_of, follower_error, reach_of};

use fr_cluster::{ParamName, Params};

/// The bounds of a cluster that the theory computes, in ticks.
#[derive(Clone, Copy, Debug, PartialEq, Eq)]
pub struct BoundValues {
    /// How far a rate value may place the length of a sender's cycle from the true one.
    pub y1: i64,
    /// How far the lengths of two nodes' cycles may lie apart in a cluster that is in sync.
    pub lambda: i64,
    /// How far two nodes' starts of an even cycle may lie apart there.
    pub pi: i64,
    /// The precision: how far two nodes' instants of the same macrotick may lie apart there.
    pub precision: i64,
}

// The ticks of a nominal microtick.
pub(crate) const NOMINAL: u64 = 1_000_000;

/// The bounds for these parameters.
pub fn bounds(params: &Params) -> BoundValues
    ensures y1 { result.y1 ≡ pos (y1_of params.now) }
    ensures lambda { result.lambda ≡ pos (lambda_of params.now) }
    ensures pi { result.pi ≡ pos (pi_of params.now) }
    ensures precision { result.precision ≡ pos (precision_of params.now) }
{
    BoundValues {
        y1: y1(params) as i64,
        lambda: lambda(params) as i64,
        pi: pi(params) as i64,
        precision: precision(params) as i64,
    }
}

/// The reach of these parameters: how far instants of a node that joins may lie from those of the others while it
/// follows, in ticks. It is wider than the precision.
pub fn reach(params: &Params) -> i64
    ensures { result ≡ pos (reach_of params.now) }
{
    ticks_of_reach(params) as i64
}

/// The longest microtick that oscillators within the rate bound have, in ticks.
pub fn longest_microtick(params: &Params) -> u64
    ensures value { result ≡ longest_micro params.now }
    ensures most { result ≤ 1_001_500 }
{
    NOMINAL + params.natural(ParamName::xRateBound)
}

/// The shortest microtick that they have, in ticks.
pub fn shortest_microtick(params: &Params) -> u64
    ensures value { result ≡ shortest_micro params.now }
    ensures most { result ≤ 1_000_000 }
{
    NOMINAL - params.natural(ParamName::xRateBound)
}

// The delay compensation in microticks, the wider of both channels.
pub(crate) fn compensation(params: &Params) -> u64
    ensures value { result ≡ widest params.now }
    ensures most { result ≤ 200 }
{
    params.widest_compensation() as u64
}

/// The error of an arrival, in ticks: that of its delay, and that of the compensation in microticks of another length.
pub fn arrival_error(params: &Params) -> u64
    ensures value { result ≡ arrival_error params.now }
    ensures most { result ≤ 10_300_000 }
{
    params.natural(ParamName::xDelayError)
        + compensation(params) * params.natural(ParamName::xRateBound)
}

/// By how much a cycle changes from one to the next, in ticks, since the microtick changes.
pub fn cycle_change(params: &Params) -> u64
    ensures value { result ≡ cycle_change params.now }
    ensures most { result ≤ 963_000_000 }
{
    let micros = params.natural(ParamName::pMicroPerCycle)
        + params.natural(ParamName::pRateCorrectionOut);
    micros * params.natural(ParamName::xChangeBound)
}

pub(crate) fn y1(params: &Params) -> u64
    ensures value { result ≡ y1_of params.now }
    ensures most { result ≤ 3_000_000_000 }
{
    2 * arrival_error(params) + 2 * longest_microtick(params) + 3 * cycle_change(params)
}

pub(crate) fn lambda(params: &Params) -> u64
    ensures value { result ≡ lambda_of params.now }
    ensures most { result ≤ 21_000_000_000 }
{
    let damped = params.natural(ParamName::pClusterDriftDamping) * longest_microtick(params);
    4 * y1(params) + 2 * longest_microtick(params) + 4 * damped + 8 * cycle_change(params)
}

pub(crate) fn pi(params: &Params) -> u64
    ensures value { result ≡ pi_of params.now }
    ensures most { result ≤ 130_000_000_000 }
{
    6 * lambda(params) + 4 * arrival_error(params) + 8 * longest_microtick(params)
}

pub(crate) fn precision(params: &Params) -> u64
    ensures value { result ≡ precision_of params.now }
    ensures most { result ≤ 180_000_000_000 }
{
    pi(params) + 2 * lambda(params) + 2 * longest_microtick(params)
}

// How far the lengths of a node that begins to follow may lie from its reference's odd one.
pub(crate) fn follower_error(params: &Params) -> u64
    ensures value { result ≡ follower_error params.now }
    ensures most { result ≤ 7_000_000_000 }
{
    y1(params) + 4 * cycle_change(params)
}

pub(crate) fn ticks_of_reach(params: &Params) -> u64
    ensures value { result ≡ reach_of params.now }
    ensures most { result ≤ 330_000_000_000 }
{
    pi(params)
        + 8 * lambda(params)
        + 4 * follower_error(params)
        + 4 * arrival_error(params)
        + 8 * longest_microtick(params)
}
