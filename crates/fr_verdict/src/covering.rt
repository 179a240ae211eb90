ghost use Rattle.std.specs.Prelude.{◌≡◌, ◌≤◌, ◌==◌, length, ◌&&◌, false, true, All, IfSome, find, option_and_then, is_some, None};
ghost use Rattle.std.specs.Option.{option_copied};
ghost use Rattle.fr_base.specs.Rows.{AreAscendingDevs, dev_in, is_dev_of};
ghost use Rattle.fr_base.specs.Timed.{IsTimed};
ghost use Rattle.fr_coverage.specs.Coverage.{checks_gap, has_jumped, is_off};
ghost use Rattle.fr_coverage.specs.First.{first_below, first_in};
ghost use Rattle.fr_coverage.specs.Links.{shares};
ghost use Rattle.fr_history.specs.History.{row_of};
ghost use Rattle.fr_trace.specs.Cycles.{history_by};
ghost use Rattle.fr_trace.specs.Trace.{is_named, row_at, traced_join_in};
ghost use Rattle.fr_verdict.specs.FirstGap.{change_by, first_gap_of, length_by, traced_change_gap, traced_changes_gap, traced_count_gap, traced_length_gap, traced_lengths_gap, traced_link_gap, traced_links_gap, traced_pairs_gap, traced_weighed};
ghost use Rattle.fr_verdict.specs.OtherGaps.{first_other_gap_of};
ghost use Rattle.fr_verdict.specs.Gaps.{has_dev, has_rows, is_heard, is_heard_on, is_lasting, is_pair};
ghost use Rattle.fr_verdict.specs.Sync.{first_synced_of, is_early};
ghost use Rattle.fr_verdict.specs.Counted.{count_in, is_counted_in_trace, is_of_kind};
ghost use Rattle.fr_verdict.specs.Doubles.{double_gap, pair_gap_in};
ghost use Rattle.fr_verdict.specs.Sound.{AreOrdered, AreTimed};

use crate::found::{is_named, row_of};
use crate::ordered::first_place;
use fr_base::{Channel, Dev, NodeId, NodeRow, Slot};
use fr_bound::{checks, outweighs, side};
use fr_cluster::{NodeList, NodeSpec, ParamName, Params};
use fr_coverage::{Gap, Search, first_among, shares};
use fr_trace::{Trace, TracedCycle, TracedJoin};

/// The first gap of a trace with this first double cycle in sync, in the order of gaps: one of the first five checks
/// that fails, too few correct sync nodes that do not join, a length, a change, a link; None exactly where the trace is
/// covered.
pub fn first_gap(params: &Params, trace: &Trace, synced: Option<u32>) -> Option<Gap>
    requires { synced ≡ first_synced_of params.now trace.now }
    ensures { result ≡ first_gap_of params.now trace.now }
{
    match failing_check(params) {
        Some(gap) => Some(gap),
        None => first_other_gap(params, trace, synced),
    }
}

/// The first of these gaps that is no failed check.
#[tactic(auto, unfolding(crate::specs::OtherGaps::first_other_gap_of))]
pub fn first_other_gap(params: &Params, trace: &Trace, synced: Option<u32>) -> Option<Gap>
    requires { synced ≡ first_synced_of params.now trace.now }
    ensures { result ≡ first_other_gap_of params.now trace.now }
{
    if let Some(gap) = wrong_count(params, trace) {
        return Some(gap);
    }
    if let Some(gap) = wrong_length(params, trace) {
        return Some(gap);
    }
    if let Some(gap) = wrong_change(params, trace) {
        return Some(gap);
    }
    broken_link(params, trace, synced)
}

// The gap by the counts, and the first by a length, by a change, and by a link.
fn wrong_count(params: &Params, trace: &Trace) -> Option<Gap>
    ensures { result ≡ traced_count_gap params.now trace.now }
{
    outweighed(&params.nodes, trace)
}

fn wrong_length(params: &Params, trace: &Trace) -> Option<Gap>
    ensures { result ≡ first_in (traced_lengths_gap params.now trace.now) params.now.nodes }
{
    let synced = None;
    let asked = Asked {
        params,
        trace,
        synced,
    };
    first_among(&params.nodes, &Lengths(asked))
}

fn wrong_change(params: &Params, trace: &Trace) -> Option<Gap>
    ensures { result ≡ first_in (traced_changes_gap params.now trace.now) params.now.nodes }
{
    let synced = None;
    let asked = Asked {
        params,
        trace,
        synced,
    };
    first_among(&params.nodes, &Changes(asked))
}

fn broken_link(params: &Params, trace: &Trace, synced: Option<u32>) -> Option<Gap>
    ensures { result ≡ traced_pairs_gap params.now trace.now synced }
{
    if is_linked(params, trace, synced) {
        None
    } else {
        first_broken(params, trace, synced)
    }
}

fn first_broken(params: &Params, trace: &Trace, synced: Option<u32>) -> Option<Gap>
    ensures { result ≡ traced_pairs_gap params.now trace.now synced }
{
    let asked = Asked {
        params,
        trace,
        synced,
    };
    first_among(&params.nodes, &Links(asked))
}

// Whether no link is broken. It goes from double cycle to double cycle, so that what is recorded of one is looked at
// for all pairs of nodes at once.
fn is_linked(params: &Params, trace: &Trace, synced: Option<u32>) -> bool
    ensures { result ≡ true → traced_pairs_gap params.now trace.now synced ≡ None }
{
    for double in 0..trace.doubles() {
        match broken_in(params, trace, synced, double) {
            Some(_) => return false,
            None => {}
        }
    }
    true
}

// The gap of the first pair of nodes that has one in a double cycle.
fn broken_in(params: &Params, trace: &Trace, synced: Option<u32>, double: u32) -> Option<Gap>
    ensures { result ≡ double_gap params.now trace.now synced double }
{
    let asked = Asked {
        params,
        trace,
        synced,
    };
    first_among(&params.nodes, &LinksIn { asked, double })
}

fn failing_check(params: &Params) -> Option<Gap>
    ensures { result ≡ checks_gap params.now }
{
    match checks(params) {
        Ok(()) => None,
        Err(number) => {
            let sides = side(params, number);
            Some(Gap::Check {
                number,
                left: sides.left,
                right: sides.right,
            })
        }
    }
}

// Whether a node joins the running cluster.
fn joins(trace: &Trace, node: NodeId) -> bool
    ensures { result ≡ is_some (traced_join_in trace.now node) }
{
    join_of(trace.joins(), node).is_some()
}

fn join_of(joins: &[TracedJoin], node: NodeId) -> Option<&TracedJoin>
    ensures { option_copied result ≡ find (λ joining. joining.node == node) joins.now }
{
    let wanted = node.0;
    joins.iter().find(|joining| joining.node.0 == wanted)
}

// Whether a correct node takes part from the first cycle on.
fn is_lasting(trace: &Trace, node: NodeId) -> bool
    ensures { result ≡ is_lasting trace.now node }
{
    !is_named(trace, node) && !joins(trace, node)
}

fn is_of_kind(trace: &Trace, named: bool, node: NodeId) -> bool
    ensures { result ≡ is_of_kind trace.now named node }
{
    if named {
        is_named(trace, node)
    } else {
        is_lasting(trace, node)
    }
}

fn is_counted(trace: &Trace, named: bool, node: &NodeSpec) -> bool
    ensures { result ≡ is_counted_in_trace trace.now named node.now }
{
    node.key.is_some() && is_of_kind(trace, named, node.id)
}

// How many nodes with a key slot are named arbitrary, or how many correct ones do not join.
fn count(nodes: &NodeList, trace: &Trace, named: bool) -> u32
    requires { length nodes.now ≤ 64 }
    ensures { result ≡ count_in trace.now named nodes.now }
{
    let mut sum = 0;
    for place in 0..nodes.len() {
        match nodes.get(place) {
            Some(node) => {
                if is_counted(trace, named, node) {
                    sum += 1;
                }
            }
            None => {}
        }
    }
    sum
}

// The gap where the correct nodes with a key slot that do not join do not outweigh the arbitrary ones.
fn outweighed(nodes: &NodeList, trace: &Trace) -> Option<Gap>
    requires { length nodes.now ≤ 64 }
    ensures { result ≡ traced_weighed (count_in trace.now false nodes.now) (count_in trace.now true nodes.now) }
{
    let correct = count(nodes, trace, false);
    let arbitrary = count(nodes, trace, true);
    if outweighs(u64::from(correct), u64::from(arbitrary)) {
        None
    } else {
        Some(Gap::Count { correct, arbitrary })
    }
}

// ---- microticks

/// The cycles of a trace, the earliest first, with the rows of each in their ranges.
pub fn timed_cycles(trace: &Trace) -> &[TracedCycle]
    ensures history { history_by result.now ≡ trace.now.history }
    ensures timed { AreTimed result.now }
    ensures few { length result.now ≤ 200_000 }
{
    trace.cycles()
}

// The row of a node in a cycle.
fn row_at(cycles: &[TracedCycle], cycle: usize, node: NodeId) -> Option<&NodeRow>
    requires { AreTimed cycles.now }
    ensures value { option_copied result ≡ row_at (history_by cycles.now) cycle node }
    ensures timed { IfSome result (λ row. IsTimed row.now) }
{
    if cycle < cycles.len() {
        timed_row(&cycles[cycle], node)
    } else {
        None
    }
}

fn timed_row(cycle: &TracedCycle, node: NodeId) -> Option<&NodeRow>
    requires { All IsTimed cycle.now.rows.items }
    ensures value { option_copied result ≡ row_of cycle.now.rows.items node }
    ensures timed { IfSome result (λ row. IsTimed row.now) }
{
    row_of(&cycle.rows, node)
}

fn is_off(params: &Params, row: &NodeRow) -> bool
    ensures { result ≡ is_off params.now row.now.length }
{
    let bound = params.natural(ParamName::xRateBound);
    let (shortest, longest) = (1_000_000 - bound, 1_000_000 + bound);
    row.length < shortest as i64 || (longest as i64) < row.length
}

fn has_jumped(params: &Params, before: &NodeRow, row: &NodeRow) -> bool
    requires before { IsTimed before.now }
    requires row { IsTimed row.now }
    ensures { result ≡ has_jumped params.now before.now.length row.now.length }
{
    let most = params.natural(ParamName::xChangeBound) as i64;
    before.length + most < row.length || row.length + most < before.length
}

fn length_by(params: &Params, node: NodeId, cycle: u32, row: &NodeRow) -> Option<Gap>
    ensures { result ≡ length_by params.now node cycle row.now }
{
    if is_off(params, row) {
        Some(Gap::Length {
            node,
            cycle,
            ticks: row.length,
        })
    } else {
        None
    }
}

fn change_by(
    params: &Params,
    node: NodeId,
    cycle: u32,
    before: &NodeRow,
    row: &NodeRow,
) -> Option<Gap>
    requires cycle { cycle ≤ 200_000 }
    requires before { IsTimed before.now }
    requires row { IsTimed row.now }
    ensures { result ≡ change_by params.now node cycle before.now row.now }
{
    if has_jumped(params, before, row) {
        Some(Gap::Change {
            node,
            cycle: cycle + 1,
            ticks: row.length - before.length,
        })
    } else {
        None
    }
}

// The gap of a node's microtick in a cycle.
fn length_gap(params: &Params, cycles: &[TracedCycle], node: NodeId, cycle: u32) -> Option<Gap>
    requires { AreTimed cycles.now }
    ensures { result ≡ traced_length_gap params.now (history_by cycles.now) node cycle }
{
    match row_at(cycles, cycle as usize, node) {
        None => None,
        Some(row) => length_by(params, node, cycle, row),
    }
}

// The gap of its change to the cycle after.
fn change_gap(params: &Params, cycles: &[TracedCycle], node: NodeId, cycle: u32) -> Option<Gap>
    requires cycle { cycle ≤ 200_000 }
    requires timed { AreTimed cycles.now }
    ensures { result ≡ traced_change_gap params.now (history_by cycles.now) node cycle }
{
    match row_at(cycles, cycle as usize, node) {
        None => None,
        Some(before) => match row_at(cycles, cycle as usize + 1, node) {
            None => None,
            Some(row) => change_by(params, node, cycle, before, row),
        },
    }
}

// The first gap of a node's microticks.
fn first_length(params: &Params, cycles: &[TracedCycle], node: NodeId) -> Option<Gap>
    requires timed { AreTimed cycles.now }
    requires few { length cycles.now ≤ 200_000 }
    ensures { result ≡ first_below (traced_length_gap params.now (history_by cycles.now) node) (length cycles.now) }
{
    let count = cycles.len() as u32;
    for cycle in 0..count {
        match length_gap(params, cycles, node, cycle) {
            Some(gap) => return Some(gap),
            None => {}
        }
    }
    None
}

// The first gap of their changes.
fn first_change(params: &Params, cycles: &[TracedCycle], node: NodeId) -> Option<Gap>
    requires timed { AreTimed cycles.now }
    requires few { length cycles.now ≤ 200_000 }
    ensures { result ≡ first_below (traced_change_gap params.now (history_by cycles.now) node) (length cycles.now) }
{
    let count = cycles.len() as u32;
    for cycle in 0..count {
        match change_gap(params, cycles, node, cycle) {
            Some(gap) => return Some(gap),
            None => {}
        }
    }
    None
}

// ---- links

// The cycles of a trace.
fn ordered_cycles(trace: &Trace) -> &[TracedCycle]
    ensures history { history_by result.now ≡ trace.now.history }
    ensures ordered { AreOrdered result.now }
{
    trace.cycles()
}

/// The deviation of a receiver in a slot on a channel, in microticks, if there is one.
pub fn dev_in(devs: &[Dev], receiver: NodeId, slot: Slot, channel: Channel) -> Option<i32>
    requires { AreAscendingDevs devs.now }
    ensures { result ≡ dev_in devs.now receiver slot channel }
{
    match found_dev(devs, receiver.0, slot.0, channel) {
        None => None,
        Some(dev) => Some(dev.value),
    }
}

fn found_dev(devs: &[Dev], receiver: u8, slot: u16, channel: Channel) -> Option<&Dev>
    requires { AreAscendingDevs devs.now }
    ensures { option_copied result ≡ find (is_dev_of receiver slot channel) devs.now }
{
    let place = first_place(devs, receiver);
    found_among(&devs[place..], receiver, slot, channel)
}

fn found_among(devs: &[Dev], receiver: u8, slot: u16, channel: Channel) -> Option<&Dev>
    ensures { option_copied result ≡ find (is_dev_of receiver slot channel) devs.now }
{
    devs.iter()
        .find(|dev| is_dev_of(dev, receiver, slot, channel))
}

fn is_dev_of(dev: &Dev, receiver: u8, slot: u16, channel: Channel) -> bool
    ensures { result ≡ is_dev_of receiver slot channel dev.now }
{
    dev.receiver.0 == receiver && dev.slot.0 == slot && dev.channel.is_same(channel)
}

// Whether a receiver has a deviation of a sender in a cycle on a channel.
fn has_dev(
    cycles: &[TracedCycle],
    cycle: usize,
    sender: &NodeSpec,
    receiver: &NodeSpec,
    channel: Channel,
) -> bool
    requires { AreOrdered cycles.now }
    ensures { result ≡ has_dev (history_by cycles.now) cycle sender.now receiver.now channel }
{
    if cycle < cycles.len() {
        has_dev_in(&cycles[cycle], sender, receiver, channel)
    } else {
        false
    }
}

fn has_dev_in(cycle: &TracedCycle, sender: &NodeSpec, receiver: &NodeSpec, channel: Channel) -> bool
    requires { AreAscendingDevs cycle.now.devs.items }
    ensures { result ≡
        is_some (option_and_then (λ slot. dev_in cycle.now.devs.items receiver.now.id slot channel) sender.now.key) }
{
    match sender.key {
        None => false,
        Some(slot) => dev_in(&cycle.devs, receiver.id, slot, channel).is_some(),
    }
}

fn is_heard_on(
    trace: &Trace,
    sender: &NodeSpec,
    receiver: &NodeSpec,
    double: u32,
    channel: Channel,
) -> bool
    ensures { result ≡ is_heard_on trace.now sender.now receiver.now double channel }
{
    let cycles = ordered_cycles(trace);
    let even = 2 * double as usize;
    shares(sender, receiver, channel)
        && has_dev(cycles, even, sender, receiver, channel)
        && has_dev(cycles, even + 1, sender, receiver, channel)
}

fn is_heard(trace: &Trace, sender: &NodeSpec, receiver: &NodeSpec, double: u32) -> bool
    ensures { result ≡ is_heard trace.now sender.now receiver.now double }
{
    is_heard_on(trace, sender, receiver, double, Channel::A)
        || is_heard_on(trace, sender, receiver, double, Channel::B)
}

// Whether the sender is correct and has a key slot, and the receiver is another correct node.
fn is_pair(trace: &Trace, sender: &NodeSpec, receiver: &NodeSpec) -> bool
    ensures { result ≡ is_pair trace.now sender.now receiver.now }
{
    sender.key.is_some()
        && !is_named(trace, sender.id)
        && !is_named(trace, receiver.id)
        && sender.id != receiver.id
}

// Whether a node has a row in both cycles of a double cycle.
fn has_rows(cycles: &[TracedCycle], double: u32, node: &NodeSpec) -> bool
    requires { AreTimed cycles.now }
    ensures { result ≡ has_rows (history_by cycles.now) double node.now }
{
    let even = 2 * double as usize;
    row_at(cycles, even, node.id).is_some() && row_at(cycles, even + 1, node.id).is_some()
}

// Whether both nodes of a link have.
fn have_rows(trace: &Trace, double: u32, sender: &NodeSpec, receiver: &NodeSpec) -> bool
    ensures { result ≡
        (has_rows trace.now.history double sender.now && has_rows trace.now.history double receiver.now) }
{
    let cycles = timed_cycles(trace);
    has_rows(cycles, double, sender) && has_rows(cycles, double, receiver)
}

/// Whether a double cycle comes before the first one in sync; true where none is.
pub fn is_early(synced: Option<u32>, double: u32) -> bool
    ensures { result ≡ is_early synced double }
{
    match synced {
        None => true,
        Some(synced) => double < synced,
    }
}

fn link_gap(
    trace: &Trace,
    synced: Option<u32>,
    sender: &NodeSpec,
    receiver: &NodeSpec,
    double: u32,
) -> Option<Gap>
    ensures { result ≡ traced_link_gap trace.now synced sender.now receiver.now double }
{
    if is_early(synced, double)
        || is_heard(trace, sender, receiver, double)
        || !have_rows(trace, double, sender, receiver)
    {
        None
    } else {
        Some(Gap::Link {
            sender: sender.id,
            receiver: receiver.id,
            double,
        })
    }
}

fn first_link(
    trace: &Trace,
    synced: Option<u32>,
    sender: &NodeSpec,
    receiver: &NodeSpec,
) -> Option<Gap>
    ensures { result ≡ first_below (traced_link_gap trace.now synced sender.now receiver.now) trace.now.doubles }
{
    for double in 0..trace.doubles() {
        match link_gap(trace, synced, sender, receiver, double) {
            Some(gap) => return Some(gap),
            None => {}
        }
    }
    None
}

// ---- what is looked for

// What a search asks.
#[derive(Clone, Copy)]
struct Asked<'a> {
    params: &'a Params,
    trace: &'a Trace,
    synced: Option<u32>,
}

// Looks for lengths.
#[derive(Clone, Copy)]
struct Lengths<'a>(Asked<'a>);

impl Search for Lengths<'_> {
    ghost found = { λ a. traced_lengths_gap a.0.params.now a.0.trace.now };

    fn find(&self, node: &NodeSpec) -> Option<Gap> {
        let asked = self.0;
        first_length(asked.params, timed_cycles(asked.trace), node.id)
    }
}

// Looks for changes of lengths.
#[derive(Clone, Copy)]
struct Changes<'a>(Asked<'a>);

impl Search for Changes<'_> {
    ghost found = { λ a. traced_changes_gap a.0.params.now a.0.trace.now };

    fn find(&self, node: &NodeSpec) -> Option<Gap> {
        let asked = self.0;
        first_change(asked.params, timed_cycles(asked.trace), node.id)
    }
}

// Looks for broken links of a sender.
#[derive(Clone, Copy)]
struct Links<'a>(Asked<'a>);

impl Search for Links<'_> {
    ghost found = { λ a node. first_in (traced_links_gap a.0.trace.now a.0.synced node) a.0.params.now.nodes };

    fn find(&self, node: &NodeSpec) -> Option<Gap> {
        let asked = self.0;
        let params = asked.params;
        first_among(
            &params.nodes,
            &LinksFrom {
                asked,
                sender: node,
            },
        )
    }
}

// Looks for broken links of one sender at a receiver.
#[derive(Clone, Copy)]
struct LinksFrom<'a> {
    asked: Asked<'a>,
    sender: &'a NodeSpec,
}

impl Search for LinksFrom<'_> {
    ghost found = { λ a. traced_links_gap a.asked.trace.now a.asked.synced a.sender.now };

    fn find(&self, node: &NodeSpec) -> Option<Gap> {
        let asked = self.asked;
        if !is_pair(asked.trace, self.sender, node) {
            return None;
        }
        first_link(asked.trace, asked.synced, self.sender, node)
    }
}

// Looks for links of a sender that are broken in one double cycle.
#[derive(Clone, Copy)]
struct LinksIn<'a> {
    asked: Asked<'a>,
    double: u32,
}

impl Search for LinksIn<'_> {
    ghost found = { λ a node. first_in (pair_gap_in a.asked.trace.now a.asked.synced a.double node) a.asked.params.now.nodes };

    fn find(&self, node: &NodeSpec) -> Option<Gap> {
        let asked = self.asked;
        let params = asked.params;
        let double = self.double;
        first_among(
            &params.nodes,
            &LinksFromIn {
                asked,
                sender: node,
                double,
            },
        )
    }
}

// Looks for one of them at a receiver.
#[derive(Clone, Copy)]
struct LinksFromIn<'a> {
    asked: Asked<'a>,
    sender: &'a NodeSpec,
    double: u32,
}

impl Search for LinksFromIn<'_> {
    ghost found = { λ a. pair_gap_in a.asked.trace.now a.asked.synced a.double a.sender.now };

    fn find(&self, node: &NodeSpec) -> Option<Gap> {
        let asked = self.asked;
        if !is_pair(asked.trace, self.sender, node) {
            return None;
        }
        link_gap(asked.trace, asked.synced, self.sender, node, self.double)
    }
}
