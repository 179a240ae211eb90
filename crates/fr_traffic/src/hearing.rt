ghost use Rattle.std.specs.Prelude.{◌≡◌, ◌≤◌, ◌||◌, not, length, List};
ghost use Rattle.fr_cluster.specs.declared.nodes.NodeSpec.{NodeSpec};
ghost use Rattle.fr_traffic.specs.Reaching.{whole_in};
ghost use Rattle.fr_traffic.specs.Traffic.{all_have, all_linked, all_trust, bears_kind, has_all, has_value, heard_in, is_borne_to_join, is_trusted, kind_in, may_receive, may_send, traffic_in, traffic_with};

use crate::meeting::lists_meet;
use crate::traffic::{Asked, arbitrary_count, has_value, is_trusted, may_receive, may_send};
use fr_bound::{DoubleNumber, Heard};
use fr_cluster::{NodeList, NodeSpec, ParamName, Params};
use fr_precision::Kinds;
use fr_script::Script;

/// What the correct nodes of a run hear in a double cycle, by its files, of offsets and of rates: all of all, without arbitrary
/// sync nodes; all of all beside them, or of any two nodes enough in common; or what there is. Senders that join count only
/// where all is heard. It is known whether one channel carries the frames of both its cycles of any two nodes.
pub fn heard_in(params: &Params, script: &Script, double: DoubleNumber, whole: bool) -> Kinds
    requires whole { whole ≡ whole_in params.now script.now double }
    ensures { result ≡ heard_in (traffic_in params.now script.now) double }
{
    let _few = params.value(ParamName::gMacroPerCycle);
    let nodes = &params.nodes;
    Kinds {
        offsets: kind_in(nodes, script, false, double, whole),
        rates: kind_in(nodes, script, true, double, whole),
    }
}

fn kind_in(
    nodes: &NodeList,
    script: &Script,
    rate: bool,
    double: DoubleNumber,
    whole: bool,
) -> Heard
    requires few { length nodes.now ≤ 64 }
    requires whole { whole ≡ all_linked (traffic_with nodes.now script.now) double }
    ensures { result ≡ kind_in rate (traffic_with nodes.now script.now) double }
{
    if hears_all(nodes, script, rate, double, whole) {
        if arbitrary_count(nodes, script) == 0 {
            Heard::Clean
        } else {
            Heard::Meeting
        }
    } else if lists_meet(nodes, script, rate, double) {
        Heard::Meeting
    } else {
        Heard::Poor
    }
}

// Where one channel carries the frames of both cycles of any two nodes, all is heard of either kind.
fn hears_all(
    nodes: &NodeList,
    script: &Script,
    rate: bool,
    double: DoubleNumber,
    whole: bool,
) -> bool
    requires whole { whole ≡ all_linked (traffic_with nodes.now script.now) double }
    ensures { result ≡ all_have rate (traffic_with nodes.now script.now) double }
{
    whole || all_have(nodes, script, rate, double)
}

/// Whether in a double cycle of each kind of values all is heard, or each correct node that has begun trusts what it has of the
/// senders that do not join: it has a value, and discards at each end as many as there may be of arbitrary nodes. It is known
/// whether one channel carries the frames of both its cycles of any two nodes.
pub fn is_borne_to_join(params: &Params, script: &Script, double: DoubleNumber, whole: bool) -> bool
    requires whole { whole ≡ whole_in params.now script.now double }
    ensures { result ≡ is_borne_to_join (traffic_in params.now script.now) double }
{
    let _few = params.value(ParamName::gMacroPerCycle);
    let nodes = &params.nodes;
    bears_kind(nodes, script, false, double, whole)
        && bears_kind(nodes, script, true, double, whole)
}

fn bears_kind(
    nodes: &NodeList,
    script: &Script,
    rate: bool,
    double: DoubleNumber,
    whole: bool,
) -> bool
    requires few { length nodes.now ≤ 64 }
    requires whole { whole ≡ all_linked (traffic_with nodes.now script.now) double }
    ensures { result ≡ bears_kind rate (traffic_with nodes.now script.now) double }
{
    hears_all(nodes, script, rate, double, whole) || all_trust(nodes, script, rate, double)
}

// Whether each correct node that has begun surely has a value of each correct sender that may send.
fn all_have(nodes: &NodeList, script: &Script, rate: bool, double: DoubleNumber) -> bool
    ensures { result ≡ all_have rate (traffic_with nodes.now script.now) double }
{
    for place in 0..nodes.len() {
        match nodes.get(place) {
            Some(node) => {
                if !has_all_begun(nodes, script, rate, double, node) {
                    return false;
                }
            }
            None => {}
        }
    }
    true
}

// A node has not begun, or has all.
fn has_all_begun(
    nodes: &NodeList,
    script: &Script,
    rate: bool,
    double: DoubleNumber,
    node: &NodeSpec,
) -> bool
    ensures { result ≡ (not (may_receive (traffic_with nodes.now script.now) double node.now)
        || has_all rate (traffic_with nodes.now script.now) double node.now) }
{
    !may_receive(script, double, node) || has_all(nodes, script, rate, double, node)
}

fn has_all(
    nodes: &NodeList,
    script: &Script,
    rate: bool,
    double: DoubleNumber,
    receiver: &NodeSpec,
) -> bool
    ensures { result ≡ has_all rate (traffic_with nodes.now script.now) double receiver.now }
{
    let asked = Asked::surely(rate, double);
    for place in 0..nodes.len() {
        match nodes.get(place) {
            Some(node) => {
                if !has_sent(script, &asked, receiver, node) {
                    return false;
                }
            }
            None => {}
        }
    }
    true
}

// A sender may not send, or a receiver has such a value of it.
fn has_sent(script: &Script, asked: &Asked, receiver: &NodeSpec, sender: &NodeSpec) -> bool
    ensures { (nodes : List NodeSpec) → result ≡
        (not (may_send (traffic_with nodes script.now) asked.now.double sender.now)
        || has_value asked.now.rate asked.now.surely (traffic_with nodes script.now) asked.now.double receiver.now
        sender.now) }
{
    !may_send(script, asked.double, sender) || has_value(script, asked, receiver, sender)
}

// Whether each correct node that has begun trusts its list.
fn all_trust(nodes: &NodeList, script: &Script, rate: bool, double: DoubleNumber) -> bool
    requires few { length nodes.now ≤ 64 }
    ensures { result ≡ all_trust rate (traffic_with nodes.now script.now) double }
{
    for place in 0..nodes.len() {
        match nodes.get(place) {
            Some(node) => {
                if !trusts_begun(nodes, script, rate, double, node) {
                    return false;
                }
            }
            None => {}
        }
    }
    true
}

// A node has not begun, or trusts its list.
fn trusts_begun(
    nodes: &NodeList,
    script: &Script,
    rate: bool,
    double: DoubleNumber,
    node: &NodeSpec,
) -> bool
    requires few { length nodes.now ≤ 64 }
    ensures { result ≡ (not (may_receive (traffic_with nodes.now script.now) double node.now)
        || is_trusted rate (traffic_with nodes.now script.now) double node.now) }
{
    !may_receive(script, double, node) || is_trusted(nodes, script, rate, double, node)
}
