ghost use Rattle.std.specs.Prelude.{◌≡◌, ◌≤◌, ◌<◌, ◌/◌, ◌%◌, ◌-ℤ◌, ◌≤ℤ◌, ℕ, Option, Some, None, IfSome, pos, nat_abs};
ghost use Rattle.fr_cluster.specs.declared.nodes.NodeSpec.{NodeSpec as Node};
ghost use Rattle.fr_drift.specs.Questions.{doubles_of};
ghost use Rattle.fr_coverage.specs.Coverage.{how_many_cycles};
ghost use Rattle.fr_coverage.specs.First.{from_on};
ghost use Rattle.fr_coverage.specs.declared.gap.Fluttering.{Fluttering as Found};
ghost use Rattle.fr_coverage.specs.Flutter.{fluttering_between, fluttering_from, fluttering_in, fluttering_on, outdoes, ticks_of, told_below, told_in, told_of_two, TellsFluttering};
ghost use Rattle.fr_drift.specs.Rows.{most_link_delay};
ghost use Rattle.fr_bound.specs.SharpBounds.{most_flutter};

use crate::gap::Fluttering;
use crate::gaps::Run;
use crate::linking::{is_link, shares};
use crate::spans::{cycles, first_cycle};
use fr_base::{Channel, NodeId};
use fr_cluster::{NodeList, NodeSpec, Params};
use fr_drift::Drift;
use fr_script::Script;

/// The flutter of a run from a double cycle on, with its place: where the delay of a correct node's sync frames at another
/// correct node, on a channel that both have, differs most between the two cycles of a double cycle of the run. Of several
/// that differ as much it is the last double cycle, and in it the first sender, receiver and channel. It is none where no
/// delay of such frames differs so, and where there are none.
///
/// It takes no memory, and time as there are rows and links, not as there are cycles.
#[tactic(auto, unfolding(crate::specs::Flutter::fluttering_from))]
pub fn flutter(params: &Params, drift: &Drift, script: &Script, from: u32) -> Option<Fluttering>
    ensures value { result ≡ fluttering_from params.now drift.now script.now from }
    ensures told { TellsFluttering params.now drift.now script.now from result }
    ensures most { IfSome result (λ place. place.ticks ≤ most_flutter) }
{
    let nodes = &params.nodes;
    let run = Run {
        params,
        drift,
        script,
        from,
    };
    told_among(nodes, &Flutters(run))
}

/// By how many ticks, 0 where no delay flutters.
pub fn ticks_of(place: &Option<Fluttering>) -> u64
    ensures { result ≡ ticks_of place.now }
{
    match place {
        None => 0,
        Some(place) => place.ticks,
    }
}

// What gives the flutter of a node.
trait Gauge {
    /// That which it gives.
    ghost gauged: { Self → Node → Option Found };

    fn gauge(&self, node: &NodeSpec) -> Option<Fluttering>
        ensures value { result ≡ gauged self.now node.now }
        ensures most { IfSome result (λ place. place.ticks ≤ most_flutter) };
}

// That which is told of those of the nodes.
fn told_among<G: Gauge>(nodes: &NodeList, gauge: &G) -> Option<Fluttering>
    ensures value { result ≡ told_in (G.gauged gauge.now) nodes.now }
    ensures most { IfSome result (λ place. place.ticks ≤ most_flutter) }
{
    let mut told: Option<Fluttering> = None;
    for place in 0..nodes.len() {
        match nodes.get(place) {
            Some(node) => told = told_of_two(told, gauge.gauge(node)),
            None => {}
        }
    }
    told
}

// Of two that of more ticks, of two alike that of the later double cycle, and of two of one double cycle the former.
fn told_of_two(one: Option<Fluttering>, other: Option<Fluttering>) -> Option<Fluttering>
    requires one_most { IfSome one (λ place. place.ticks ≤ most_flutter) }
    requires other_most { IfSome other (λ place. place.ticks ≤ most_flutter) }
    ensures value { result ≡ told_of_two one other }
    ensures most { IfSome result (λ place. place.ticks ≤ most_flutter) }
{
    match (one, other) {
        (None, _) => other,
        (Some(_), None) => one,
        (Some(former), Some(latter)) => { if outdoes(latter, former) { other } else { one } }
    }
}

fn outdoes(one: Fluttering, other: Fluttering) -> bool
    ensures { result ≡ outdoes one other }
{
    other.ticks < one.ticks || (one.ticks == other.ticks && other.double < one.double)
}

// Gives the flutter of the frames of a sender.
#[derive(Clone, Copy)]
struct Flutters<'a>(Run<'a>);

impl Gauge for Flutters<'_> {
    ghost gauged = { λ a node. told_in (fluttering_between a.0.drift.now a.0.script.now a.0.from node) a.0.params.now.nodes };

    fn gauge(&self, node: &NodeSpec) -> Option<Fluttering> {
        let run = self.0;
        let params = run.params;
        told_among(&params.nodes, &FluttersFrom { run, sender: node })
    }
}

// Gives the flutter of the frames of one sender at a receiver.
#[derive(Clone, Copy)]
struct FluttersFrom<'a> {
    run: Run<'a>,
    sender: &'a NodeSpec,
}

impl Gauge for FluttersFrom<'_> {
    ghost gauged = { λ a. fluttering_between a.run.drift.now a.run.script.now a.run.from a.sender.now };

    fn gauge(&self, node: &NodeSpec) -> Option<Fluttering> {
        let run = self.run;
        if !is_link(run.script, self.sender, node) {
            return None;
        }
        let on_a = fluttering_on(run, self.sender, node, Channel::A);
        let on_b = fluttering_on(run, self.sender, node, Channel::B);
        told_of_two(on_a, on_b)
    }
}

fn fluttering_on(
    run: Run<'_>,
    sender: &NodeSpec,
    receiver: &NodeSpec,
    channel: Channel,
) -> Option<Fluttering>
    ensures value { result ≡ fluttering_on run.entry.drift.now run.entry.from sender.now receiver.now channel }
    ensures most { IfSome result (λ place. place.ticks ≤ most_flutter) }
{
    if !shares(sender, receiver, channel) {
        return None;
    }
    told_turn(run.drift, sender.id, receiver.id, channel, run.from)
}

// What is told of the double cycles of a link from one on, by its rows: a delay stays from one row to the next, so the two
// cycles of a double cycle differ only where a row begins at the odd one.
fn told_turn(
    drift: &Drift,
    sender: NodeId,
    receiver: NodeId,
    channel: Channel,
    from: u32,
) -> Option<Fluttering>
    ensures value { result ≡
        told_below (from_on from (fluttering_in drift.now sender receiver channel)) (doubles_of drift.now) }
    ensures most { IfSome result (λ place. place.ticks ≤ most_flutter) }
{
    let end = cycles(drift);
    let mut told: Option<Fluttering> = None;
    let mut cycle = first_cycle(drift, from);
    while cycle < end {
        told = told_of_two(told, turn(drift, sender, receiver, channel, cycle));
        cycle = drift.next_delay(sender, receiver, channel, cycle, end);
    }
    told
}

// Where the delay of an odd cycle differs from that of the even one before it; none for an even cycle.
fn turn(
    drift: &Drift,
    sender: NodeId,
    receiver: NodeId,
    channel: Channel,
    cycle: u32,
) -> Option<Fluttering>
    ensures odd { cycle % 2 ≡ 1 → result ≡ fluttering_in drift.now sender receiver channel (cycle / 2) }
    ensures even { cycle % 2 ≡ 0 → result ≡ None }
    ensures most { IfSome result (λ place. place.ticks ≤ most_flutter) }
{
    if cycle % 2 == 0 {
        return None;
    }
    let before = drift.delay(sender, receiver, channel, cycle - 1);
    let ticks = apart(drift.delay(sender, receiver, channel, cycle), before);
    if ticks == 0 {
        return None;
    }
    Some(Fluttering {
        ticks,
        sender,
        receiver,
        channel,
        double: cycle / 2,
    })
}

fn apart(one: i64, other: i64) -> u64
    requires one_from { pos 0 ≤ℤ one }
    requires one_to { one ≤ℤ pos most_link_delay }
    requires other_from { pos 0 ≤ℤ other }
    requires other_to { other ≤ℤ pos most_link_delay }
    ensures value { result ≡ nat_abs (one -ℤ other) }
    ensures most { result ≤ most_flutter }
{
    one.abs_diff(other)
}
