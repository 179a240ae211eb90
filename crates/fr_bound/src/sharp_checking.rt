ghost use Rattle.std.specs.Prelude.{Bool, ℕ, ◌≡◌, ◌≤◌, OnOk, IfErr};
ghost use Rattle.fr_bound.specs.Greatest.{most_sharp_reach};
ghost use Rattle.fr_bound.specs.Settling.{IsSettleCheck};
ghost use Rattle.fr_bound.specs.SharpBounds.{sharp_near};
ghost use Rattle.fr_bound.specs.SharpChecks.{FirstSharpFailing, IsSharpCheckFor, IsSharpCheckOf, SharpChecksHold};

use crate::bounding::{cycle_change, shortest_microtick};
use crate::checking::CheckSides;
use crate::flutter::Flutter;
use crate::settling::side_within;
use crate::sharp_bounding::{even_lambda, near_by, sharp_pi, wide_change};
use fr_cluster::{ParamName, Params};

/// The sides of the sharper check of this number, 1 to 5, beside arbitrary sync nodes or without, where delays flutter
/// by no more than so many ticks. The first one tells whether the lengths of cycles do not walk; the
/// others are the older ones, with how far action points lie apart in place of the precision. The sides are ticks, but of
/// the fourth and the fifth ticks times the macroticks of a cycle.
pub fn sharp_side(params: &Params, beside: bool, flutter: Flutter, number: u8) -> CheckSides
    requires number { IsSettleCheck number }
    ensures { IsSharpCheckOf number beside flutter params.now result }
{
    let starts = sharp_pi(params, beside, flutter);
    let reach = near_by(params, starts, even_lambda(params, beside, flutter));
    sharp_side_within(params, flutter, reach, number)
}

/// Whether every sharper check from 2 to 5 holds; else the least number of one that fails. The first check decides how
/// long sharp sync lasts.
pub fn sharp_checks(params: &Params, beside: bool, flutter: Flutter) -> Result<(), u8>
    ensures all { OnOk result (SharpChecksHold flutter (sharp_near beside params.now flutter) params.now) }
    ensures first { IfErr result (λ number. FirstSharpFailing number beside flutter params.now) }
{
    for number in 2..6 {
        if !sharp_side(params, beside, flutter, number).holds {
            return Err(number);
        }
    }
    Ok(())
}

/// The sides of that check with any reach, in ticks, 0 to 5,200,000,000,000.
pub fn sharp_side_within(params: &Params, flutter: Flutter, reach: u64, number: u8) -> CheckSides
    requires number { IsSettleCheck number }
    requires reach { reach ≤ most_sharp_reach }
    ensures { IsSharpCheckFor number flutter reach params.now result }
{
    match number {
        1 => walk_sides(params, flutter),
        _ => side_within(params, number, reach),
    }
}

// The damping outweighs what arrivals are rounded by, the flutter and the changes.
fn walk_sides(params: &Params, flutter: Flutter) -> CheckSides
    ensures { (reach : ℕ) → IsSharpCheckFor 1 flutter reach params.now result }
{
    let shortest = shortest_microtick(params);
    let left = params.natural(ParamName::pClusterDriftDamping) * shortest + 1;
    let right = shortest + flutter.0 + cycle_change(params) + wide_change(params);
    CheckSides {
        left: left as i64,
        right: right as i64,
        holds: right <= left,
    }
}
