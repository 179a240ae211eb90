ghost use Rattle.std.specs.Prelude.{◌≡◌, ◌≤◌, ◌-◌, suc};
ghost use Rattle.fr_cold.specs.ColdText.{least_apart, are_apart, one_more, first_pair_in, starters_up_to};

use fr_base::{Channel, NodeId};
use fr_cluster::Params;

// How many coldstart nodes there are.
pub(crate) fn starter_count(params: &Params) -> u64
    ensures { result ≡ starters_up_to params.now 64 }
{
    let mut count = 0;
    for number in 1..65 {
        count = one_more(count, params.is_coldstart(NodeId(number)));
    }
    count
}

fn one_more(count: u64, more: bool) -> u64
    requires { count ≤ 64 }
    ensures { result ≡ one_more more count }
{
    if more { count + 1 } else { count }
}

// The least two coldstart nodes that share no channel, the least first node first.
pub(crate) fn first_apart(params: &Params) -> Option<(NodeId, NodeId)>
    ensures { result ≡ first_pair_in params.now 1 64 }
{
    for number in 1..65 {
        let node = NodeId(number);
        match apart_after(params, node) {
            Some(other) => return Some((node, other)),
            None => {}
        }
    }
    None
}

// The least node after one that is apart from it.
fn apart_after(params: &Params, node: NodeId) -> Option<NodeId>
    ensures { result ≡ least_apart params.now node (suc node) (64 - node) }
{
    for number in node.0 + 1..65 {
        let other = NodeId(number);
        if are_apart(params, node, other) {
            return Some(other);
        }
    }
    None
}

fn are_apart(params: &Params, a: NodeId, b: NodeId) -> bool
    ensures { result ≡ are_apart params.now a b }
{
    params.is_coldstart(a)
        && params.is_coldstart(b)
        && !(params.common(a, b, Channel::A) || params.common(a, b, Channel::B))
}
