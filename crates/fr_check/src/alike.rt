ghost use Rattle.std.specs.Prelude.{◌≡◌, true};
ghost use Rattle.std.specs.List.{list_all};
ghost use Rattle.std.specs.Option.{option_map_or};
ghost use Rattle.fr_trace.specs.Cycles.{history_by, kept_of};
ghost use Rattle.fr_verdict.specs.Alike.{are_all_alike, first_unlike, is_node_alike, is_said_alike, unlike_at};
ghost use Rattle.fr_verdict.specs.Sound.{AreHeardCycles, IsHeardCycle};

use fr_base::Slot;
use fr_cluster::{NodeSpec, Params};
use fr_trace::{Trace, TracedCycle};
use fr_verdict::{is_named, is_said_alike_in};

/// The first double cycle from one on in which some sync node that a trace names arbitrary is not alike; None where each
/// is in each from there on. It takes no memory.
pub fn first_unlike(params: &Params, trace: &Trace, from: u32) -> Option<u32>
    ensures { result ≡ first_unlike params.now trace.now from }
{
    for double in 0..trace.doubles() {
        match unlike_at(params, trace, from, double) {
            Some(found) => return Some(found),
            None => {}
        }
    }
    None
}

fn unlike_at(params: &Params, trace: &Trace, from: u32, double: u32) -> Option<u32>
    ensures { result ≡ unlike_at params.now trace.now from double }
{
    if double < from || are_all_alike(params, trace, double) {
        None
    } else {
        Some(double)
    }
}

// The cycles of a trace, with their rows in their ranges and their deviations in order.
fn heard_cycles(trace: &Trace) -> &[TracedCycle]
    ensures history { history_by result.now ≡ trace.now.history }
    ensures heard { AreHeardCycles result.now }
{
    trace.cycles()
}

// Whether each sync node that a trace names is alike in a double cycle, if that is there.
fn are_all_alike(params: &Params, trace: &Trace, double: u32) -> bool
    ensures { result ≡ are_all_alike params.now trace.now double }
{
    let cycles = heard_cycles(trace);
    let even = 2 * double as usize;
    if even + 1 < cycles.len() {
        are_alike_in(params, trace, &cycles[even], &cycles[even + 1])
    } else {
        true
    }
}

fn are_alike_in(params: &Params, trace: &Trace, even: &TracedCycle, odd: &TracedCycle) -> bool
    requires even { IsHeardCycle even.now }
    requires odd { IsHeardCycle odd.now }
    ensures { result ≡
        list_all (is_node_alike params.now trace.now (kept_of even.now) (kept_of odd.now)) params.now.nodes }
{
    let nodes = &params.nodes;
    let mut all = true;
    for place in 0..nodes.len() {
        match nodes.get(place) {
            Some(node) => all = all && is_node_alike(params, trace, even, odd, node),
            None => {}
        }
    }
    all
}

// Whether a node is alike, if it is a sync node that the trace names.
fn is_node_alike(
    params: &Params,
    trace: &Trace,
    even: &TracedCycle,
    odd: &TracedCycle,
    node: &NodeSpec,
) -> bool
    requires even { IsHeardCycle even.now }
    requires odd { IsHeardCycle odd.now }
    ensures { result ≡ is_node_alike params.now trace.now (kept_of even.now) (kept_of odd.now) node.now }
{
    !is_named(trace, node.id) || is_key_alike(params, even, odd, node.key)
}

fn is_key_alike(params: &Params, even: &TracedCycle, odd: &TracedCycle, key: Option<Slot>) -> bool
    requires even { IsHeardCycle even.now }
    requires odd { IsHeardCycle odd.now }
    ensures { result ≡ option_map_or (is_said_alike params.now (kept_of even.now) (kept_of odd.now)) key true }
{
    match key {
        None => true,
        Some(slot) => is_said_alike(params, even, odd, slot),
    }
}

fn is_said_alike(params: &Params, even: &TracedCycle, odd: &TracedCycle, slot: Slot) -> bool
    requires even { IsHeardCycle even.now }
    requires odd { IsHeardCycle odd.now }
    ensures { result ≡ is_said_alike params.now (kept_of even.now) (kept_of odd.now) slot }
{
    is_said_alike_in(params, &even.devs, &odd.devs, slot, &odd.rows)
}
