ghost use Rattle.std.specs.Prelude.{ℕ, ◌≡◌, ◌≤◌, ◌<◌, ◌+◌, suc, nat_lt, None, Some, if◌then◌else◌};
ghost use Rattle.fr_sharp.specs.LossRuns.{is_borne, is_borne_of, losses_of, next_losses, no_losses, JoinedRunsKeepTheirBounds, LossesAreTold, NearIsTakenIn, RunsKeepTheirBounds, ThroughLossesIsTold};
ghost use Rattle.fr_sharp.specs.LossStatement.{run_strayed};
ghost use Rattle.fr_traffic.specs.Reaching.{whole_in};
ghost use Rattle.fr_sharp.specs.LossSteps.{most_lost};

use crate::arbitrary::has_arbitrary;
use crate::group_losses::GroupLosses;
use crate::joined_files::joined_files_keep_through_losses;
use crate::losing::histories_keep_through_losses;
use crate::strays::{stray_fits, strayed_on};
use fr_bound::{DoubleNumber, Flutter};
use fr_cluster::Params;
use fr_coverage::{found_gap_from_is_first, some_join};
use fr_drift::Drift;
use fr_promise::heard_numbers;
use fr_script::Script;
use fr_traffic::{all_bear_from, heard_in, is_borne_to_join, is_whole, none_lacks};

/// What a run loses from a double cycle on, by its files, and how far apart that may take its clocks, from one in sharp sync
/// on.
#[derive(Clone, Copy, Debug, PartialEq, Eq)]
pub struct RunLosses {
    /// In how many double cycles frames are lost: between two correct nodes no channel carries those of both cycles.
    pub doubles: u32,
    /// The last of them, if there is one.
    pub last: Option<u32>,
    /// How far macroticks may lie apart in the double cycle in which they may lie furthest, in ticks.
    pub peak: u128,
    /// The first such double cycle.
    pub place: u32,
    /// How far instants of the same action point may lie apart, of nodes that follow too, in ticks.
    pub reach: u128,
    /// Whether each correct node bears each double cycle: it has values, and discards as many as there may be of arbitrary
    /// nodes, or lacks some as it may; and the rate limit suffices for how far lengths then lie beyond their range. Where a
    /// correct node joins: whether in each, of each kind of values, all is heard, or each that has begun has such values of
    /// senders that do not join.
    pub trusted: bool,
}

/// What the run of some files loses from a double cycle on, where its delays flutter by so many ticks from there on.
pub fn run_losses(
    params: &Params,
    drift: &Drift,
    script: &Script,
    from: u32,
    flutter: Flutter,
) -> RunLosses
    ensures value { result ≡ losses_of params.now drift.now script.now from flutter }
    ensures most { result.reach ≤ most_lost }
{
    let mut spread = GroupLosses::first(params, has_arbitrary(params, script), flutter);
    let mut losses = RunLosses::none(from);
    let mut strayed = 0;
    let count = drift.doubles().saturating_sub(from);
    for passed in 0..count {
        let number = from + passed;
        let double = DoubleNumber(number);
        let whole = is_whole(params, script, double);
        strayed = strayed_on(
            params,
            flutter,
            !none_lacks(params, script, double),
            strayed,
        );
        let borne = is_borne(params, script, flutter, from, double, strayed);
        let trusted = is_borne_of(params, script, double, whole, borne);
        let what = heard_in(params, script, double, whole);
        let apart = spread.apart(params, flutter, what);
        let near = spread.near(params, script, number);
        losses = losses.followed(number, whole, trusted, apart, near);
        spread.step(params, flutter, what);
    }
    losses
}

// Whether each correct node bears a double cycle, and the rate limit suffices behind it for how far lengths then stray.
fn is_borne(
    params: &Params,
    script: &Script,
    flutter: Flutter,
    from: u32,
    double: DoubleNumber,
    strayed: u128,
) -> bool
    requires behind { from ≤ double }
    requires few { strayed ≤ 3_000_000_000_000_000 }
    requires strayed { strayed ≡ run_strayed params.now script.now from flutter (suc double) }
    ensures { result ≡ is_borne params.now script.now from flutter double }
{
    all_bear_from(params, script, from, double)
        && stray_fits(params, flutter, double.0 + 1 - from, strayed)
}

// Where a correct node joins: of each kind all is heard in it, or each that has begun trusts what it has of those that do not.
fn is_borne_of(
    params: &Params,
    script: &Script,
    double: DoubleNumber,
    whole: bool,
    borne: bool,
) -> bool
    requires whole { whole ≡ whole_in params.now script.now double }
    ensures { (from flutter : ℕ) → borne ≡ is_borne params.now script.now from flutter double
        → result ≡ is_borne_of params.now script.now from flutter double }
{
    if some_join(&params.nodes, script) {
        is_borne_to_join(params, script, double, whole)
    } else {
        borne
    }
}

impl RunLosses {
    // Those of no double cycle, before one.
    fn none(from: u32) -> RunLosses
        ensures { result ≡ no_losses from }
    {
        RunLosses {
            doubles: 0,
            last: None,
            peak: 0,
            place: from,
            reach: 0,
            trusted: true,
        }
    }

    // Those after one more double cycle, by what is heard in it and how far its macroticks and action points may lie apart.
    fn followed(self, double: u32, heard: bool, trusted: bool, apart: u128, near: u128) -> RunLosses
        requires { self.doubles < 100_000 }
        ensures { result ≡ next_losses heard trusted double apart near self }
    {
        let (doubles, last) = self.counted(double, heard);
        let (peak, place) = self.raised(double, apart);
        RunLosses {
            doubles,
            last,
            peak,
            place,
            reach: self.reach.max(near),
            trusted: self.trusted && trusted,
        }
    }

    fn counted(self, double: u32, heard: bool) -> (u32, Option<u32>)
        requires { self.doubles < 100_000 }
        ensures doubles { result.0 ≡ (if heard then self.doubles else self.doubles + 1) }
        ensures last { result.1 ≡ (if heard then self.last else Some double) }
    {
        if heard {
            (self.doubles, self.last)
        } else {
            (self.doubles + 1, Some(double))
        }
    }

    fn raised(self, double: u32, apart: u128) -> (u128, u32)
        ensures peak { result.0 ≡ (if nat_lt self.peak apart then apart else self.peak) }
        ensures place { result.1 ≡ (if nat_lt self.peak apart then double else self.place) }
    {
        if self.peak < apart {
            (apart, double)
        } else {
            (self.peak, self.place)
        }
    }
}

/// A law: what a run loses from a double cycle on is what it is called; where it is said to be covered through losses from
/// there on, and there alone, it is; and then no macroticks lie further apart, in ticks, than the number of their double
/// cycle by what was heard since that one, from each double cycle in sharp sync on and as long as the walk lasts; where a
/// correct node joins from each one in which no node follows, and as long as first rates last.
pub fn losses_are_told()
    ensures figures { LossesAreTold }
    ensures covered { ThroughLossesIsTold }
    ensures keeps { RunsKeepTheirBounds }
    ensures joined { JoinedRunsKeepTheirBounds }
    ensures near { NearIsTakenIn }
{
    joined_files_keep_through_losses();
    found_gap_from_is_first();
    histories_keep_through_losses();
    heard_numbers();
}
