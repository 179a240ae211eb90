ghost use Rattle.std.specs.Prelude.{ℕ, ◌≡◌, ◌≤◌, ◌<◌, ◌+◌, ◌*◌, ◌&&◌, not};
ghost use Rattle.fr_script.specs.View.{is_arbitrary, join_of};
ghost use Rattle.fr_runs.specs.Gathered.{listened_by};
ghost use Rattle.fr_precision.specs.declared.kinds.Kinds.{Kinds};
ghost use Rattle.fr_promise.specs.SharpJoining.{all_heard, first_apart_by, first_lengths_by, group_spread_through, next_group_spread, second_apart_by};
ghost use Rattle.fr_sharp.specs.LossRuns.{near_in_group, some_listened};
ghost use Rattle.fr_sharp.specs.LossSteps.{AreReckoned, LossGroup, heard_apart, most_lost, most_passed, most_lost_lengths, most_lost_starts};

use crate::loss_steps::{LossSpread, near_by, odd};
use fr_bound::{
    Flutter, Heard, arrival_error, cycle_change, even_lambda, longest_microtick, sharp_pi,
    steady_error,
};
use fr_cluster::{NodeList, NodeSpec, ParamName, Params};
use fr_precision::Kinds;
use fr_script::Script;
use std::marker::Model;

/// How far starts and even lengths may lie apart in a double cycle by what was heard since one in sharp sync in which no
/// node follows, in ticks: of the nodes with rows, and of those that follow for the second and for the first time; and how
/// many double cycles passed since then.
#[derive(Drop)]
pub(crate) struct GroupLosses {
    rows: LossSpread,
    seconds: u128,
    first_starts: u128,
    first_lengths: u128,
}

impl Model for GroupLosses {
    ghost Value = { LossGroup };

    ghost view = { λ s. record {
      spread = record {
        rows = s.rows.spread;
        seconds = s.seconds;
        firsts = record { starts = s.first_starts; lengths = s.first_lengths };
      };
      passed = s.rows.passed;
    } };

    ghost invariant = { λ s. AreReckoned s.seconds s.first_starts s.first_lengths s.rows.passed };
}

impl GroupLosses {
    // That of a double cycle in sharp sync, beside arbitrary sync nodes or without.
    pub(crate) fn first(params: &Params, beside: bool, flutter: Flutter) -> GroupLosses
        ensures spread { (what : ℕ → Kinds) → result.spread ≡ group_spread_through beside params.now flutter what 0 }
        ensures passed { result.passed ≡ 0 }
    {
        let starts = u128::from(sharp_pi(params, beside, flutter));
        let lengths = u128::from(even_lambda(params, beside, flutter));
        let first_lengths = first_lengths(params, flutter, lengths);
        GroupLosses {
            rows: LossSpread::first(params, beside, flutter),
            seconds: second_apart(params, all_heard(beside), starts, lengths, first_lengths),
            first_starts: first_apart(params, flutter, starts, lengths),
            first_lengths,
        }
    }

    // Goes on to the next double cycle, by what is heard in this one.
    pub(crate) fn step(&mut self, params: &Params, flutter: Flutter, what: Kinds)
        requires few { self.old.passed < most_passed }
        ensures spread { self.new.spread ≡ next_group_spread what params.now flutter self.old.spread }
        ensures passed { self.new.passed ≡ self.old.passed + 1 }
    {
        let (starts, lengths) = self.rows.both();
        self.seconds = second_apart(params, what.offsets, starts, lengths, self.first_lengths);
        self.first_starts = first_apart(params, flutter, starts, lengths);
        self.rows.step(params, flutter, what);
        let (_, next) = self.rows.both();
        self.first_lengths = first_lengths(params, flutter, lengths).max(next);
    }

    // How far macroticks of the nodes with rows may lie apart in this double cycle, by what is heard in it.
    pub(crate) fn apart(&self, params: &Params, flutter: Flutter, what: Kinds) -> u128
        ensures value { result ≡ heard_apart what params.now flutter self.now.spread.rows }
        ensures most { result ≤ most_lost }
    {
        self.rows.apart(params, flutter, what)
    }

    // How far instants of the same action point may lie apart in this double cycle, of those that may follow in it too.
    pub(crate) fn near(&self, params: &Params, script: &Script, double: u32) -> u128
        ensures value { result ≡ near_in_group params.now script.now double self.now.spread }
        ensures most { result ≤ most_lost }
    {
        let (_, lengths) = self.rows.both();
        let seconds = if some_listened(&params.nodes, script, 2, double) {
            near_by(params, self.seconds, lengths)
        } else {
            0
        };
        let firsts = if some_listened(&params.nodes, script, 1, double) {
            near_by(params, self.first_starts, self.first_lengths)
        } else {
            0
        };
        self.rows.near(params).max(seconds.max(firsts))
    }
}

// Where all is heard of all.
fn all_heard(beside: bool) -> Heard
    ensures { result ≡ all_heard beside }
{
    if beside { Heard::Meeting } else { Heard::Clean }
}

// How far the starts of those that follow for the first time may lie from the others.
fn first_apart(params: &Params, flutter: Flutter, starts: u128, lengths: u128) -> u128
    requires starts { starts ≤ most_lost_starts }
    requires lengths { lengths ≤ most_lost_lengths }
    ensures value { result ≡ first_apart_by params.now flutter starts lengths }
    ensures most { result ≤ starts + 2 * lengths + 30_000_000_000 }
{
    starts
        + 2 * lengths
        + 4 * u128::from(cycle_change(params))
        + 2 * u128::from(arrival_error(params))
        + u128::from(flutter.0)
        + 4 * u128::from(longest_microtick(params))
}

// And their even lengths.
fn first_lengths(params: &Params, flutter: Flutter, lengths: u128) -> u128
    requires lengths { lengths ≤ most_lost_lengths }
    ensures value { result ≡ first_lengths_by params.now flutter lengths }
    ensures most { result ≤ lengths + 30_000_000_000 }
{
    let damped = params.natural(ParamName::pClusterDriftDamping) * longest_microtick(params);
    lengths
        + 2 * u128::from(steady_error(params, flutter))
        + u128::from(damped)
        + 4 * u128::from(cycle_change(params))
}

// How far the starts of those that follow for the second time may, by what was heard of offsets in their first double cycle.
fn second_apart(params: &Params, what: Heard, starts: u128, lengths: u128, first: u128) -> u128
    requires starts { starts ≤ most_lost_starts }
    requires lengths { lengths ≤ most_lost_lengths }
    requires first { first ≤ most_lost_lengths }
    ensures value { result ≡ second_apart_by what params.now starts lengths first }
    ensures most { result ≤ starts + lengths + first + 30_000_000_000 }
{
    let error = u128::from(arrival_error(params));
    let longest = u128::from(longest_microtick(params));
    let odds = odd(params, first);
    match what {
        Heard::Clean => odds + 2 * error + 3 * longest,
        Heard::Meeting => (starts + lengths + 2 * odds + 4 * error + 7 * longest) / 2,
        Heard::Poor => starts + lengths + odds + 2 * error + 3 * longest,
    }
}

// Whether some correct node listened so many double cycles before one.
fn some_listened(nodes: &NodeList, script: &Script, ago: u32, double: u32) -> bool
    requires { ago ≤ 2 }
    ensures { result ≡ some_listened nodes.now script.now ago double }
{
    let mut found = false;
    for place in 0..nodes.len() {
        match nodes.get(place) {
            Some(node) => found = found || listened(script, node, ago, double),
            None => {}
        }
    }
    found
}

fn listened(script: &Script, node: &NodeSpec, ago: u32, double: u32) -> bool
    requires { ago ≤ 2 }
    ensures { result ≡
        (not (is_arbitrary script.now node.now.id) && listened_by (join_of script.now node.now.id) ago double) }
{
    !script.arbitrary(node.id)
        && match script.join(node.id) {
            None => false,
            Some(join) => u64::from(join.double) + u64::from(ago) == u64::from(double),
        }
}
