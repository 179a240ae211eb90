ghost use Rattle.std.specs.Prelude.{◌≡◌, ◌≤◌, ◌<◌, Some, cond, count_by, is_some, length, slice_get};
ghost use Rattle.fr_sightings.specs.Senders.{own_slot};

use fr_cluster::{NodeSpec, Params};
use fr_log::Log;

fn keyed(node: &NodeSpec) -> usize
    ensures value { result ≡ cond (is_some node.now.key) 1 0 }
    ensures most { result ≤ 1 }
{
    if node.key.is_some() { 1 } else { 0 }
}

/// How many nodes have a key slot.
pub fn keyed_count(params: &Params) -> usize
    ensures value { result ≡ count_by (λ node. is_some node.key) params.now.nodes }
    ensures few { result ≤ 64 }
{
    let mut count = 0;
    for place in 0..params.node_count() {
        count += keyed(params.node_at(place));
    }
    count
}

/// Whether frames of a node are judged: it is not arbitrary and has a key slot.
pub fn is_judged(log: &Log, node: &NodeSpec) -> bool
    ensures { result ≡ is_some (own_slot log.now node.now) }
{
    !log.is_arbitrary(node.id) && node.key.is_some()
}
