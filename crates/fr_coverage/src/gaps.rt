ghost use Rattle.std.specs.Prelude.{◌≡◌, ◌≤◌, ◌+◌, pos, Some, None, OnOk, IfErr, count_by, length};
ghost use Rattle.fr_bound.specs.Checks.{AllChecksHold, IsCheck, left_of, right_of};
ghost use Rattle.fr_coverage.specs.First.{first_below, first_in};
ghost use Rattle.fr_coverage.specs.declared.gap.Gap.TheVariants as gap;
ghost use Rattle.fr_coverage.specs.Kinds.{gaps_by_kind};
ghost use Rattle.fr_coverage.specs.Coverage.{asked_where, channel_gap, changes_gap, check_gap, count_of, delays_gap, first_gap, gap_from, lengths_gap, links_gap, pairs_gap, weighed};

use crate::gap::{Gap, RunGaps};
use crate::joining::{is_counted, some_join};
use crate::linking::{first_break, is_link, shares};
use crate::search::{Search, first_among};
use crate::spans::{first_change, first_delay, first_length};
use fr_base::Channel;
use fr_bound::{checks, join_checks, outweighs, side};
use fr_cluster::{NodeList, NodeSpec, Params};
use fr_drift::Drift;
use fr_script::Script;

/// Whether a run of a cluster is covered by the precision theorem: whether there is none of these gaps, which
/// are looked for in this order, or else the first.
///
/// `Check`: a check of the parameters fails, the one with the least number, of checks 1 to 5 or, where some node
/// joins the running cluster, 1 to 9. `Count`: the correct nodes with a key slot that take part from cycle 0 on do
/// not outweigh the arbitrary ones: 1 suffices beside no arbitrary one, 3 beside one, 6 beside two. `Length`,
/// `Change`: the microtick of a correct node is too short or too long in a cycle of the run, or changes by too much
/// there; by node, then by cycle. `Delay`: frames of a correct node with a key slot travel for too short or too long a
/// time to another correct node; by sender, receiver, channel, cycle. `Link`: no channel that both have carries its
/// frames in both cycles of a double cycle; by sender, receiver, double cycle. The last four speak of nodes that join
/// as of all other correct nodes, and of every cycle of the run.
///
/// It takes no memory, and time as there are rows, nodes and links, not as there are cycles.
pub fn covered(params: &Params, drift: &Drift, script: &Script) -> Result<(), Gap>
    ensures whole { OnOk result (first_gap params.now drift.now script.now ≡ None) }
    ensures gap { IfErr result (λ gap. first_gap params.now drift.now script.now ≡ Some gap) }
{
    match first_gap(params, drift, script) {
        Some(gap) => Err(gap),
        None => Ok(()),
    }
}

/// Whether a run is covered from a double cycle on, whatever the checks of its parameters say: whether there is none of the
/// other gaps in the cycles from there on, which are looked for in the same order, or else the first.
pub fn run_covered(params: &Params, drift: &Drift, script: &Script, from: u32) -> Result<(), Gap>
    ensures whole { OnOk result (gap_from params.now drift.now script.now from ≡ None) }
    ensures gap { IfErr result (λ gap. gap_from params.now drift.now script.now from ≡ Some gap) }
{
    let run = Run {
        params,
        drift,
        script,
        from,
    };
    match gap_from(run) {
        Some(gap) => Err(gap),
        None => Ok(()),
    }
}

/// The first gap of a run of each kind from a double cycle on, whatever the checks of its parameters say. The first of
/// these is the gap that `run_covered` answers.
pub fn gaps_by_kind(params: &Params, drift: &Drift, script: &Script, from: u32) -> RunGaps
    ensures { result ≡ gaps_by_kind params.now drift.now script.now from }
{
    let nodes = &params.nodes;
    let run = Run {
        params,
        drift,
        script,
        from,
    };
    RunGaps {
        count: outweighed(nodes, script),
        lengths: first_among(nodes, &Lengths(run)),
        changes: first_among(nodes, &Changes(run)),
        delays: first_among(nodes, &Delays(run)),
        links: first_among(nodes, &Links(run)),
    }
}

#[tactic(auto, unfolding(crate::specs::Coverage::first_gap))]
fn first_gap(params: &Params, drift: &Drift, script: &Script) -> Option<Gap>
    ensures { result ≡ first_gap params.now drift.now script.now }
{
    let nodes = &params.nodes;
    let run = Run {
        params,
        drift,
        script,
        from: 0,
    };
    if let Some(gap) = failing_check(params, some_join(nodes, script)) {
        return Some(gap);
    }
    gap_from(run)
}

// The first gap of the run itself, from its double cycle on.
fn gap_from(run: Run<'_>) -> Option<Gap>
    ensures { result ≡ gap_from run.entry.params.now run.entry.drift.now run.entry.script.now run.entry.from }
{
    let params = run.params;
    let nodes = &params.nodes;
    if let Some(gap) = outweighed(nodes, run.script) {
        return Some(gap);
    }
    if let Some(gap) = first_among(nodes, &Lengths(run)) {
        return Some(gap);
    }
    if let Some(gap) = first_among(nodes, &Changes(run)) {
        return Some(gap);
    }
    first_of_pairs(run)
}

fn first_of_pairs(run: Run<'_>) -> Option<Gap>
    ensures { result ≡ pairs_gap run.entry.params.now run.entry.drift.now run.entry.script.now run.entry.from }
{
    let params = run.params;
    let nodes = &params.nodes;
    match first_among(nodes, &Delays(run)) {
        Some(gap) => Some(gap),
        None => first_among(nodes, &Links(run)),
    }
}

// The first check that fails, also of those that are asked only where some node joins.
fn failing_check(params: &Params, joins: bool) -> Option<Gap>
    ensures { result ≡ first_below (check_gap params.now) (asked_where joins) }
{
    match checks(params) {
        Ok(()) => {
            if joins {
                failing_join_check(params)
            } else {
                None
            }
        }
        Err(number) => Some(failed(params, number)),
    }
}

// Where the checks of each cluster hold.
fn failing_join_check(params: &Params) -> Option<Gap>
    requires { AllChecksHold params.now }
    ensures { result ≡ first_below (check_gap params.now) 9 }
{
    match join_checks(params) {
        Ok(()) => None,
        Err(number) => Some(failed(params, number)),
    }
}

fn failed(params: &Params, number: u8) -> Gap
    requires { IsCheck number }
    ensures { result ≡ gap.Check number (pos (left_of number params.now)) (pos (right_of number params.now)) }
{
    let sides = side(params, number);
    Gap::Check {
        number,
        left: sides.left,
        right: sides.right,
    }
}

// The gap where the correct nodes with a key slot that stay on do not outweigh the arbitrary ones.
fn outweighed(nodes: &NodeList, script: &Script) -> Option<Gap>
    requires { length nodes.now ≤ 64 }
    ensures { result ≡ weighed nodes.now script.now }
{
    let correct = count(nodes, script, false);
    let arbitrary = count(nodes, script, true);
    if outweighs(u64::from(correct), u64::from(arbitrary)) {
        None
    } else {
        Some(Gap::Count { correct, arbitrary })
    }
}

// How many nodes with a key slot are arbitrary, or how many are correct and stay on.
fn count(nodes: &NodeList, script: &Script, arbitrary: bool) -> u32
    requires { length nodes.now ≤ 64 }
    ensures { result ≡ count_of script.now arbitrary nodes.now }
{
    let mut sum = 0;
    for place in 0..nodes.len() {
        match nodes.get(place) {
            Some(node) => {
                if is_counted(script, arbitrary, node) {
                    sum += 1;
                }
            }
            None => {}
        }
    }
    sum
}

// What a run is made of, and the double cycle from which on it is asked of.
#[derive(Clone, Copy)]
pub(crate) struct Run<'a> {
    pub(crate) params: &'a Params,
    pub(crate) drift: &'a Drift,
    pub(crate) script: &'a Script,
    pub(crate) from: u32,
}

// Looks for lengths.
#[derive(Clone, Copy)]
struct Lengths<'a>(Run<'a>);

impl Search for Lengths<'_> {
    ghost found = { λ a. lengths_gap a.0.params.now a.0.drift.now a.0.script.now a.0.from };

    fn find(&self, node: &NodeSpec) -> Option<Gap> {
        let run = self.0;
        if run.script.arbitrary(node.id) {
            return None;
        }
        first_length(run.params, run.drift, node.id, run.from)
    }
}

// Looks for changes of lengths.
#[derive(Clone, Copy)]
struct Changes<'a>(Run<'a>);

impl Search for Changes<'_> {
    ghost found = { λ a. changes_gap a.0.params.now a.0.drift.now a.0.script.now a.0.from };

    fn find(&self, node: &NodeSpec) -> Option<Gap> {
        let run = self.0;
        if run.script.arbitrary(node.id) {
            return None;
        }
        first_change(run.params, run.drift, node.id, run.from)
    }
}

// Looks for delays of the frames of a sender.
#[derive(Clone, Copy)]
struct Delays<'a>(Run<'a>);

impl Search for Delays<'_> {
    ghost found = { λ a node. first_in (delays_gap a.0.params.now a.0.drift.now a.0.script.now a.0.from node) a.0.params.now.nodes };

    fn find(&self, node: &NodeSpec) -> Option<Gap> {
        let run = self.0;
        let params = run.params;
        first_among(&params.nodes, &DelaysFrom { run, sender: node })
    }
}

// Looks for delays of the frames of one sender at a receiver.
#[derive(Clone, Copy)]
struct DelaysFrom<'a> {
    run: Run<'a>,
    sender: &'a NodeSpec,
}

impl Search for DelaysFrom<'_> {
    ghost found = { λ a. delays_gap a.run.params.now a.run.drift.now a.run.script.now a.run.from a.sender.now };

    fn find(&self, node: &NodeSpec) -> Option<Gap> {
        let run = self.run;
        if !is_link(run.script, self.sender, node) {
            return None;
        }
        if let Some(gap) = delay_on(run, self.sender, node, Channel::A) {
            return Some(gap);
        }
        delay_on(run, self.sender, node, Channel::B)
    }
}

fn delay_on(run: Run<'_>, sender: &NodeSpec, receiver: &NodeSpec, channel: Channel) -> Option<Gap>
    ensures { result ≡
        channel_gap run.entry.params.now run.entry.drift.now run.entry.from sender.now receiver.now channel }
{
    if !shares(sender, receiver, channel) {
        return None;
    }
    first_delay(
        run.params,
        run.drift,
        sender.id,
        receiver.id,
        channel,
        run.from,
    )
}

// Looks for broken links of a sender.
#[derive(Clone, Copy)]
struct Links<'a>(Run<'a>);

impl Search for Links<'_> {
    ghost found = { λ a node. first_in (links_gap a.0.drift.now a.0.script.now a.0.from node) a.0.params.now.nodes };

    fn find(&self, node: &NodeSpec) -> Option<Gap> {
        let run = self.0;
        let params = run.params;
        first_among(&params.nodes, &LinksFrom { run, sender: node })
    }
}

// Looks for broken links of one sender at a receiver.
#[derive(Clone, Copy)]
struct LinksFrom<'a> {
    run: Run<'a>,
    sender: &'a NodeSpec,
}

impl Search for LinksFrom<'_> {
    ghost found = { λ a. links_gap a.run.drift.now a.run.script.now a.run.from a.sender.now };

    fn find(&self, node: &NodeSpec) -> Option<Gap> {
        let run = self.run;
        if !is_link(run.script, self.sender, node) {
            return None;
        }
        first_break(run.script, self.sender, node, run.from, run.drift.doubles())
    }
}
