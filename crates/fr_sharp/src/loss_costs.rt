ghost use Rattle.std.specs.Prelude.{◌≡◌, ◌≤◌, ◌<◌, ◌+◌, ◌-◌, IfSome, None, Some};
ghost use Rattle.fr_precision.specs.Among.{all_or_any, both, lost_spread};
ghost use Rattle.fr_sharp.specs.LossCosts.{IsCrossingCost, IsLongest, IsLossCost, IsSecondCost, heard_behind};
ghost use Rattle.fr_sharp.specs.LossSteps.{most_lost};

use crate::loss_checks::limits_hold;
use crate::loss_steps::LossSpread;
use fr_bound::{Flutter, Heard};
use fr_cluster::{ParamName, Params};
use fr_precision::Kinds;

/// What it costs, in ticks, where any frames may be lost in so many double cycles in a row, from one in sharp sync on
/// without arbitrary sync nodes.
#[derive(Clone, Copy, Debug, PartialEq, Eq)]
pub struct LossCost {
    /// How far macroticks may lie apart in these double cycles and behind them.
    pub peak: u128,
    /// How far instants of the same action point may lie apart there.
    pub reach: u128,
    /// From which double cycle on, counted from the first of them, macroticks lie no further apart than the sharper
    /// precision.
    pub back: u32,
}

/// What it costs, in ticks, where any frames may be lost in so many odd cycles and the even ones behind them.
#[derive(Clone, Copy, Debug, PartialEq, Eq)]
pub struct CrossingCost {
    /// How far macroticks may lie apart in these cycles and behind them.
    pub peak: u128,
    /// How far instants of the same action point may lie apart there.
    pub reach: u128,
}

/// What it costs, in ticks, where they may be lost in every second double cycle for ever.
#[derive(Clone, Copy, Debug, PartialEq, Eq)]
pub struct SecondCost {
    /// How far macroticks may lie apart.
    pub peak: u128,
    /// How far instants of the same action point may lie apart.
    pub reach: u128,
}

/// What it costs where any frames may be lost in so many double cycles in a row, 1 to 1000, and delays flutter by no more
/// than so many ticks.
pub fn loss_cost(params: &Params, flutter: Flutter, count: u32) -> LossCost
    requires from { 1 ≤ count }
    requires to { count ≤ 1000 }
    ensures is { IsLossCost params.now flutter count result }
    ensures soon { result.back ≡ count + 2 }
    ensures most { result.reach ≤ most_lost }
{
    let _macros = params.value(ParamName::gMacroPerCycle);
    let spread = behind(params, flutter, count);
    LossCost {
        peak: spread.apart(params, flutter, Kinds::both(Heard::Clean)),
        reach: spread.near(params),
        back: count + 2,
    }
}

/// What is heard in a double cycle, where any frames may be lost in the first so many, and in each later one all is heard.
pub fn heard_behind(count: u32, double: u32) -> Kinds
    ensures { result ≡ both (all_or_any (heard_behind count double)) }
{
    Kinds::both(if count <= double {
        Heard::Clean
    } else {
        Heard::Poor
    })
}

// The spread behind so many double cycles in which anything may be lost.
fn behind(params: &Params, flutter: Flutter, count: u32) -> LossSpread
    requires count { count ≤ 1000 }
    ensures spread { result.spread ≡ lost_spread params.now flutter (heard_behind count) count }
    ensures passed { result.passed ≡ count }
{
    let mut spread = LossSpread::first(params, false, flutter);
    for _double in 0..count {
        spread.step(params, flutter, Kinds::both(Heard::Poor));
    }
    spread
}

/// What it costs where any frames may be lost in so many odd cycles, 1 to 1000, and the even ones behind them: in so many
/// double cycles no offset value need come, and in one more no rate value. Delays flutter by no more than so many ticks.
pub fn crossing_cost(params: &Params, flutter: Flutter, count: u32) -> CrossingCost
    requires from { 1 ≤ count }
    requires to { count ≤ 1000 }
    ensures is { IsCrossingCost params.now flutter count result }
    ensures most { result.reach ≤ most_lost }
{
    let _macros = params.value(ParamName::gMacroPerCycle);
    let crossed = Kinds {
        offsets: Heard::Clean,
        rates: Heard::Poor,
    };
    let mut spread = behind(params, flutter, count);
    let peak = spread.apart(params, flutter, crossed);
    let reach = spread.near(params);
    spread.step(params, flutter, crossed);
    CrossingCost {
        peak: peak.max(spread.apart(params, flutter, Kinds::both(Heard::Clean))),
        reach: reach.max(spread.near(params)),
    }
}

/// What it costs where they may be lost in every second double cycle, so that of any two adjacent ones all is heard in
/// one, and delays flutter by no more than so many ticks.
pub fn every_second_cost(params: &Params, flutter: Flutter) -> SecondCost
    ensures is { IsSecondCost params.now flutter result }
    ensures most { result.reach ≤ most_lost }
{
    let _macros = params.value(ParamName::gMacroPerCycle);
    let mut spread = LossSpread::first(params, false, flutter);
    spread.step(params, flutter, Kinds::both(Heard::Poor));
    spread.step(params, flutter, Kinds::both(Heard::Clean));
    spread.step(params, flutter, Kinds::both(Heard::Poor));
    SecondCost {
        peak: spread.apart(params, flutter, Kinds::both(Heard::Clean)),
        reach: spread.near(params),
    }
}

/// In how many double cycles in a row any frames may be lost so that the checks of the limits hold with the reach of that,
/// 0 to 98; none where they fail though nothing is lost. Delays flutter by no more than so many ticks.
pub fn longest_loss(params: &Params, flutter: Flutter) -> Option<u32>
    ensures is { IsLongest params.now flutter result }
    ensures most { IfSome result (λ longest. longest ≤ 98) }
{
    let _macros = params.value(ParamName::gMacroPerCycle);
    let mut spread = LossSpread::first(params, false, flutter);
    for count in 0..100 {
        if !limits_hold(params, flutter, spread.near(params)) {
            return before(count);
        }
        spread.step(params, flutter, Kinds::both(Heard::Poor));
    }
    unreachable!()
}

// The number before this one.
fn before(count: u32) -> Option<u32>
    requires { count ≤ 99 }
    ensures none { count ≡ 0 → result ≡ None }
    ensures some { 0 < count → result ≡ Some (count - 1) }
    ensures most { IfSome result (λ number. number ≤ 98) }
{
    if count == 0 { None } else { Some(count - 1) }
}
