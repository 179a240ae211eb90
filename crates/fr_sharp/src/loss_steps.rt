ghost use Rattle.std.specs.Prelude.{ℕ, ◌≡◌, ◌≤◌, ◌<◌, ◌+◌, ◌*◌, ◌/◌};
ghost use Rattle.fr_bound.specs.Bounds.{cycle_change, longest_micro};
ghost use Rattle.fr_cluster.specs.Values.{amount};
ghost use Rattle.fr_cluster.specs.declared.names.ParamName.TheVariants as name;
ghost use Rattle.fr_bound.specs.Judged.{heard_spread};
ghost use Rattle.fr_precision.specs.Among.{kinds_spread, spread_through_losses};
ghost use Rattle.fr_precision.specs.declared.kinds.Kinds.{Kinds};
ghost use Rattle.fr_sharp.specs.LossSteps.{LossDouble, IsReckoned, heard_apart, most_lost, most_passed, spread_with, most_lost_lengths, most_lost_starts};
ghost use Rattle.fr_bound.specs.SharpBounds.{last_action, near_by, odd_spread, precision_by, steady_error};
ghost use Rattle.fr_bound.specs.SharpSpreads.{sharply_near_in};

use fr_bound::{
    Flutter, Heard, arrival_error, cycle_change, even_lambda, last_action, longest_microtick,
    sharp_pi, steady_error,
};
use fr_cluster::{ParamName, Params};
use fr_precision::Kinds;
use std::marker::Model;

/// How far starts and even lengths may lie apart in a double cycle by what was heard since one in sharp sync, in ticks; and
/// how many double cycles passed since then.
#[derive(Drop)]
pub struct LossSpread {
    starts: u128,
    lengths: u128,
    passed: u32,
}

impl Model for LossSpread {
    ghost Value = { LossDouble };

    ghost view = { λ s. record { spread = spread_with s.starts s.lengths; passed = s.passed } };

    ghost invariant = { λ s. IsReckoned s.starts s.lengths s.passed };
}

impl LossSpread {
    /// That of a double cycle in sharp sync, beside arbitrary sync nodes or without, where delays flutter by no more than so
    /// many ticks.
    pub fn first(params: &Params, beside: bool, flutter: Flutter) -> LossSpread
        ensures spread { (what : ℕ → Kinds) → result.spread ≡ spread_through_losses beside params.now flutter what 0 }
        ensures passed { result.passed ≡ 0 }
    {
        LossSpread {
            starts: u128::from(sharp_pi(params, beside, flutter)),
            lengths: u128::from(even_lambda(params, beside, flutter)),
            passed: 0,
        }
    }

    /// Goes on to the next double cycle, by what is heard in this one; up to 1,000,000 may pass.
    pub fn step(&mut self, params: &Params, flutter: Flutter, what: Kinds)
        requires few { self.old.passed < most_passed }
        ensures spread { self.new.spread ≡ kinds_spread what params.now flutter self.old.spread }
        ensures passed { self.new.passed ≡ self.old.passed + 1 }
    {
        let (starts, lengths) = next(params, flutter, what, self.starts, self.lengths);
        self.starts = starts;
        self.lengths = lengths;
        self.passed += 1;
    }

    /// How far macroticks may lie apart in this double cycle, by what is heard in it, in ticks.
    pub fn apart(&self, params: &Params, flutter: Flutter, what: Kinds) -> u128
        ensures value { result ≡ heard_apart what params.now flutter self.now.spread }
        ensures most { result ≤ most_lost }
    {
        let (next_starts, _) = next(params, flutter, what, self.starts, self.lengths);
        let behind = next_starts + u128::from(longest_microtick(params));
        macroticks(params, self.starts, self.lengths).max(behind)
    }

    /// How far instants of the same action point may lie apart in this double cycle, up to that of the last key slot, in
    /// ticks.
    pub fn near(&self, params: &Params) -> u128
        ensures value { result ≡ sharply_near_in params.now self.now.spread }
        ensures most { result ≤ most_lost }
    {
        near_by(params, self.starts, self.lengths)
    }

    // How far starts and even lengths may lie apart.
    pub(crate) fn both(&self) -> (u128, u128)
        ensures starts { result.0 ≡ self.now.spread.starts }
        ensures lengths { result.1 ≡ self.now.spread.lengths }
        ensures starts_fit { result.0 ≤ 43_000_000_000 + self.now.passed * 30_000_000_000_000_000 }
        ensures lengths_fit { result.1 ≤ 13_000_000_000 + self.now.passed * 13_000_000_000 }
        ensures few { self.now.passed ≤ most_passed }
    {
        (self.starts, self.lengths)
    }
}

// How far instants of the same action point may lie apart by starts and even lengths.
pub(crate) fn near_by(params: &Params, starts: u128, lengths: u128) -> u128
    requires starts { starts ≤ 31_000_000_000_000_000_000_000 }
    requires lengths { lengths ≤ most_lost_lengths }
    ensures value { result ≡ near_by params.now starts lengths }
    ensures most { result ≤ most_lost }
{
    let odds = share(params, odd(params, lengths));
    starts + lengths + odds + u128::from(longest_microtick(params))
}

// The next starts and the next lengths.
fn next(params: &Params, flutter: Flutter, what: Kinds, starts: u128, lengths: u128) -> (u128, u128)
    requires starts { starts ≤ most_lost_starts }
    requires lengths { lengths ≤ most_lost_lengths }
    ensures next { spread_with result.0 result.1 ≡
        kinds_spread what params.now flutter (spread_with starts lengths) }
    ensures starts { result.0 ≤ starts + 30_000_000_000_000_000 }
    ensures lengths { result.1 ≤ lengths + 13_000_000_000 }
{
    (
        next_starts(params, what.offsets, starts, lengths),
        next_lengths(params, flutter, what.rates, lengths),
    )
}

// The next starts, by what is heard of offsets.
fn next_starts(params: &Params, what: Heard, starts: u128, lengths: u128) -> u128
    requires starts { starts ≤ most_lost_starts }
    requires lengths { lengths ≤ most_lost_lengths }
    ensures value { (flutter : ℕ) → result ≡
        (heard_spread what params.now flutter (spread_with starts lengths)).starts }
    ensures most { result ≤ starts + 30_000_000_000_000_000 }
{
    let error = u128::from(arrival_error(params));
    let longest = u128::from(longest_microtick(params));
    let clean = odd(params, lengths) + 2 * error + 3 * longest;
    match what {
        Heard::Clean => clean,
        Heard::Meeting => {
            (starts + lengths + 2 * odd(params, lengths) + 4 * error + 7 * longest) / 2
        }
        Heard::Poor => starts + lengths + clean,
    }
}

// The next lengths, by what is heard of rates.
fn next_lengths(params: &Params, flutter: Flutter, what: Heard, lengths: u128) -> u128
    requires lengths { lengths ≤ most_lost_lengths }
    ensures value { (starts : ℕ) → result ≡
        (heard_spread what params.now flutter (spread_with starts lengths)).lengths }
    ensures most { result ≤ lengths + 13_000_000_000 }
{
    match what {
        Heard::Clean => u128::from(even_lambda(params, false, flutter)),
        Heard::Meeting => (lengths + u128::from(even_lambda(params, true, flutter))) / 2,
        Heard::Poor => lengths + u128::from(lengthened(params, flutter)),
    }
}

// By how much lengths may come further apart where something is lost.
fn lengthened(params: &Params, flutter: Flutter) -> u64
    ensures value { result ≡ 2 * steady_error params.now flutter
        + 2 * (amount params.now name.pClusterDriftDamping * longest_micro params.now) + 2 * cycle_change params.now }
    ensures most { result ≤ 13_000_000_000 }
{
    let damped = params.natural(ParamName::pClusterDriftDamping) * longest_microtick(params);
    2 * steady_error(params, flutter) + 2 * damped + 2 * cycle_change(params)
}

// How far the lengths of odd cycles may lie apart.
pub(crate) fn odd(params: &Params, lengths: u128) -> u128
    requires { lengths ≤ most_lost_lengths }
    ensures value { result ≡ odd_spread params.now lengths }
    ensures most { result ≤ lengths + 2_000_000_000 }
{
    lengths + 2 * u128::from(cycle_change(params))
}

// How far macroticks may lie apart by starts and even lengths.
fn macroticks(params: &Params, starts: u128, lengths: u128) -> u128
    requires starts { starts ≤ most_lost_starts }
    requires lengths { lengths ≤ most_lost_lengths }
    ensures value { result ≡ precision_by params.now starts lengths }
    ensures most { result ≤ most_lost }
{
    starts + lengths + odd(params, lengths) + 2 * u128::from(longest_microtick(params))
}

// The share of such ticks of a cycle that lies before the last action point.
fn share(params: &Params, ticks: u128) -> u128
    requires { ticks ≤ 15_000_000_000_000_000 }
    ensures value { result ≡ last_action params.now * ticks / amount params.now name.gMacroPerCycle }
    ensures most { result ≤ 15_000_000_000_000_000 }
{
    let macros = u128::from(params.natural(ParamName::gMacroPerCycle));
    u128::from(last_action(params)) * ticks / macros
}
