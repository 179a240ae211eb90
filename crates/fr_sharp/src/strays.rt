ghost use Rattle.std.specs.Prelude.{◌≡◌, ◌≤◌, ◌+◌, ◌-◌, ◌*◌, if◌then◌else◌};
ghost use Rattle.fr_bound.specs.Bounds.{cycle_change};
ghost use Rattle.fr_precision.specs.Lengths.{walk_back, walk_on};
ghost use Rattle.fr_sharp.specs.LossRuns.{stray_fits, walked_at_most, StrayFitsIsTold};
ghost use Rattle.fr_sharp.specs.LossStatement.{LimitFollows};

use fr_bound::{Flutter, cycle_change, rate_room, rate_walk, sharp_lasts};
use fr_cluster::Params;

// How far lengths stray in one double cycle more, in ticks, in which some node keeps its rate, or none does.
pub(crate) fn strayed_on(params: &Params, flutter: Flutter, keeps: bool, strayed: u128) -> u128
    requires few { strayed ≤ 2_000_000_000_000_000 }
    ensures value { result ≡
        (if keeps then strayed + (2 * cycle_change params.now - walk_on params.now flutter)
        else strayed - walk_back params.now flutter) }
    ensures most { result ≤ strayed + 2_000_000_000 }
{
    let (on, back) = walk(params, flutter);
    if keeps {
        strayed + u128::from((2 * cycle_change(params)).saturating_sub(on))
    } else {
        strayed.saturating_sub(u128::from(back))
    }
}

// Whether the rate limit suffices for that and for the walk of so many double cycles, or of as many as it lasts.
pub(crate) fn stray_fits(params: &Params, flutter: Flutter, passed: u32, strayed: u128) -> bool
    requires few { strayed ≤ 3_000_000_000_000_000 }
    ensures { result ≡ stray_fits params.now flutter passed strayed }
{
    walked_at_most(params, flutter, passed) + strayed <= u128::from(rate_room(params))
}

fn walked_at_most(params: &Params, flutter: Flutter, passed: u32) -> u128
    ensures value { result ≡ walked_at_most params.now flutter passed }
    ensures most { result ≤ 100_000_000_000_000_000_000 }
{
    match sharp_lasts(params, flutter) {
        None => 0,
        Some(lasts) => {
            let (on, _) = walk(params, flutter);
            u128::from(lasts.min(u64::from(passed))) * u128::from(on)
        }
    }
}

// By how much lengths walk on in a double cycle, and by how much they come back where they do not.
fn walk(params: &Params, flutter: Flutter) -> (u64, u64)
    ensures on { result.0 ≡ walk_on params.now flutter }
    ensures back { result.1 ≡ walk_back params.now flutter }
    ensures most { result.0 ≤ 10_000_000_000 }
{
    let (gain, loss) = rate_walk(params, flutter);
    (gain.saturating_sub(loss), loss.saturating_sub(gain))
}

/// A law: whether the rate limit suffices for how far lengths walk and stray is told by one number; and where no node lacks
/// values, or oscillators do not change, it does.
pub fn strays_are_told()
    ensures fits { StrayFitsIsTold }
    ensures follows { LimitFollows }
{}
