ghost use Rattle.std.specs.Prelude.{◌≡◌, ◌≤◌, ◌&&◌, nat_le, length, List};
ghost use Rattle.std.specs.List.{list_all, list_any};
ghost use Rattle.fr_cluster.specs.declared.nodes.NodeSpec.{NodeSpec};
ghost use Rattle.fr_coverage.specs.Links.{is_sync};
ghost use Rattle.fr_traffic.specs.Traffic.{all_bear, all_bear_from, bears, is_deaf, lacking_for, lacks_values, may_lack, may_reach, none_lacks, traffic_in, traffic_with, trusts_or_lacks};

use crate::traffic::{Asked, has_value, is_trusted, may_be_said};
use fr_bound::DoubleNumber;
use fr_cluster::{NodeList, NodeSpec, ParamName, Params};
use fr_script::Script;

/// Whether each correct node bears a double cycle: it has an offset value and a rate value, and discards at each end as many of
/// each as there may be of arbitrary nodes, or lacks some, not for so many in a row that it would be passive; in the double
/// cycle from which it is asked none lacks any.
pub fn all_bear_from(params: &Params, script: &Script, from: u32, double: DoubleNumber) -> bool
    ensures { result ≡ all_bear_from params.now (traffic_in params.now script.now) from double }
{
    all_bear(params, script, double) && (double.0 != from || none_lacks(params, script, double))
}

fn all_bear(params: &Params, script: &Script, double: DoubleNumber) -> bool
    ensures { result ≡ all_bear params.now (traffic_in params.now script.now) double }
{
    let _few = params.value(ParamName::gMacroPerCycle);
    all_bear_in(params, &params.nodes, script, double)
}

fn all_bear_in(params: &Params, nodes: &NodeList, script: &Script, double: DoubleNumber) -> bool
    requires few { length params.now.nodes ≤ 64 }
    ensures { result ≡ list_all (bears params.now (traffic_in params.now script.now) double) nodes.now }
{
    for place in 0..nodes.len() {
        match nodes.get(place) {
            Some(node) => {
                if !bears(params, script, double, node) {
                    return false;
                }
            }
            None => {}
        }
    }
    true
}

fn bears(params: &Params, script: &Script, double: DoubleNumber, node: &NodeSpec) -> bool
    requires few { length params.now.nodes ≤ 64 }
    ensures { result ≡ bears params.now (traffic_in params.now script.now) double node.now }
{
    let nodes = &params.nodes;
    script.arbitrary(node.id)
        || (trusts_or_lacks(nodes, script, (false, double), node)
            && trusts_or_lacks(nodes, script, (true, double), node)
            && (!lacks_values(nodes, script, double, node)
                || may_lack(params, script, double, node)))
}

fn trusts_or_lacks(
    nodes: &NodeList,
    script: &Script,
    kind: (bool, DoubleNumber),
    node: &NodeSpec,
) -> bool
    requires few { length nodes.now ≤ 64 }
    ensures { result ≡ trusts_or_lacks kind.0 (traffic_with nodes.now script.now) kind.1 node.now }
{
    let (rate, double) = kind;
    is_deaf(nodes, script, rate, double, node) || is_trusted(nodes, script, rate, double, node)
}

/// Whether in a double cycle no correct node lacks values.
pub fn none_lacks(params: &Params, script: &Script, double: DoubleNumber) -> bool
    ensures { result ≡ none_lacks (traffic_in params.now script.now) double }
{
    let nodes = &params.nodes;
    none_lacks_in(nodes, script, double)
}

fn none_lacks_in(nodes: &NodeList, script: &Script, double: DoubleNumber) -> bool
    ensures { result ≡ none_lacks (traffic_with nodes.now script.now) double }
{
    for place in 0..nodes.len() {
        match nodes.get(place) {
            Some(node) => {
                if !script.arbitrary(node.id) && lacks_values(nodes, script, double, node) {
                    return false;
                }
            }
            None => {}
        }
    }
    true
}

// Not in so many double cycles in a row.
fn may_lack(params: &Params, script: &Script, double: DoubleNumber, node: &NodeSpec) -> bool
    ensures { result ≡ may_lack params.now (traffic_in params.now script.now) double node.now }
{
    let most = params.natural(ParamName::gMaxWithoutClockCorrectionPassive);
    !lacks_for(&params.nodes, script, double, node, most)
}

// Whether a node has lacked values in so many double cycles in a row, up to one.
fn lacks_for(
    nodes: &NodeList,
    script: &Script,
    double: DoubleNumber,
    node: &NodeSpec,
    count: u64,
) -> bool
    ensures { result ≡ nat_le count (lacking_for (traffic_with nodes.now script.now) node.now double) }
{
    for back in 0..count {
        if u64::from(double.0) < back {
            return false;
        }
        if !lacks_values(nodes, script, DoubleNumber(double.0 - back as u32), node) {
            return false;
        }
    }
    true
}

fn lacks_values(nodes: &NodeList, script: &Script, double: DoubleNumber, node: &NodeSpec) -> bool
    ensures { result ≡ lacks_values (traffic_with nodes.now script.now) double node.now }
{
    is_deaf(nodes, script, false, double, node) || is_deaf(nodes, script, true, double, node)
}

// A node without a key slot to which nothing can come of any sync node.
fn is_deaf(
    nodes: &NodeList,
    script: &Script,
    rate: bool,
    double: DoubleNumber,
    node: &NodeSpec,
) -> bool
    ensures { result ≡ is_deaf rate (traffic_with nodes.now script.now) double node.now }
{
    !node.key.is_some() && !is_reached(nodes, script, rate, double, node)
}

fn is_reached(
    nodes: &NodeList,
    script: &Script,
    rate: bool,
    double: DoubleNumber,
    receiver: &NodeSpec,
) -> bool
    ensures { result ≡ list_any
        (λ a. is_sync a && may_reach rate (traffic_with nodes.now script.now) double receiver.now a) nodes.now }
{
    for place in 0..nodes.len() {
        match nodes.get(place) {
            Some(node) => {
                if may_come(script, rate, double, receiver, node) {
                    return true;
                }
            }
            None => {}
        }
    }
    false
}

fn may_come(
    script: &Script,
    rate: bool,
    double: DoubleNumber,
    receiver: &NodeSpec,
    sender: &NodeSpec,
) -> bool
    ensures { (nodes : List NodeSpec) → result ≡
        (is_sync sender.now && may_reach rate (traffic_with nodes script.now) double receiver.now sender.now) }
{
    sender.key.is_some() && may_reach(script, rate, double, receiver, sender)
}

fn may_reach(
    script: &Script,
    rate: bool,
    double: DoubleNumber,
    receiver: &NodeSpec,
    sender: &NodeSpec,
) -> bool
    ensures { (nodes : List NodeSpec) → result ≡
        may_reach rate (traffic_with nodes script.now) double receiver.now sender.now }
{
    if script.arbitrary(sender.id) {
        may_be_said(script, rate, double, receiver, sender)
    } else {
        has_value(script, &Asked::maybe(rate, double), receiver, sender)
    }
}
