ghost use Rattle.std.specs.Prelude.{ℕ, ◌≡◌, ◌≤◌, ◌+◌, ◌*◌, nat_le, nat_lt};
ghost use Rattle.fr_bound.specs.Settling.{IsSettleCheck};
ghost use Rattle.fr_sharp.specs.LossCosts.{IsLossCheck, limits_hold};
ghost use Rattle.fr_sharp.specs.LossSteps.{most_lost};
ghost use Rattle.fr_bound.specs.SharpChecks.{sharp_right_of};

use fr_bound::{CheckSides, Flutter, sharp_side_within};
use fr_cluster::{ParamName, Params};

/// Both sides of a sharper check with the reach of losses, and whether it holds. The sides are ticks, but of the fourth
/// and the fifth ticks times the macroticks of a cycle.
#[derive(Clone, Copy, Debug, PartialEq, Eq)]
pub struct LossSides {
    /// What the cluster has.
    pub left: u64,
    /// What it needs.
    pub right: u128,
    /// Whether it has that much; of the fifth check, whether it has more.
    pub holds: bool,
}

/// The sides of the sharper check of this number, 1 to 5, where action points may lie so many ticks apart, 0 to
/// 100,000,000,000,000,000,000,000, and delays flutter by no more than so many.
pub fn loss_side(params: &Params, flutter: Flutter, reach: u128, number: u8) -> LossSides
    requires number { IsSettleCheck number }
    requires reach { reach ≤ most_lost }
    ensures { IsLossCheck number flutter reach params.now result }
{
    let CheckSides { left, right, .. } = sharp_side_within(params, flutter, 0, number);
    let right = right as u128 + further(params, number, reach);
    LossSides {
        left: left as u64,
        right,
        holds: is_enough(number, left as u64, right),
    }
}

// What a check needs beyond what it needs where action points lie together.
fn further(params: &Params, number: u8, reach: u128) -> u128
    requires number { IsSettleCheck number }
    requires reach { reach ≤ most_lost }
    ensures value { (flutter : ℕ) →
        sharp_right_of number flutter reach params.now ≡ sharp_right_of number flutter 0 params.now + result }
    ensures most { result ≤ 16_000 * most_lost }
{
    match number {
        1 => 0,
        2 => 0,
        3 => reach,
        _ => u128::from(params.natural(ParamName::gMacroPerCycle)) * reach,
    }
}

fn is_enough(number: u8, left: u64, right: u128) -> bool
    ensures fifth { number ≡ 5 → result ≡ nat_lt right left }
    ensures other { (number ≡ 5 → ⊥) → result ≡ nat_le right left }
{
    if number == 5 {
        right < u128::from(left)
    } else {
        right <= u128::from(left)
    }
}

/// Whether the checks from the third to the fifth hold, those of the limits, where action points may lie so many ticks
/// apart, 0 to 100,000,000,000,000,000,000,000, and delays flutter by no more than so many.
pub fn limits_hold(params: &Params, flutter: Flutter, reach: u128) -> bool
    requires reach { reach ≤ most_lost }
    ensures { result ≡ limits_hold flutter reach params.now }
{
    loss_side(params, flutter, reach, 3).holds
        && loss_side(params, flutter, reach, 4).holds
        && loss_side(params, flutter, reach, 5).holds
}
