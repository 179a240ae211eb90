ghost use Rattle.std.specs.Prelude.{◌≡◌, filter, length};
ghost use Rattle.std.specs.Option.{is_some};
ghost use Rattle.fr_cluster.specs.Constraints.{key_slots};
ghost use Rattle.fr_script.specs.View.{is_arbitrary};

use fr_cluster::NodeList;
use fr_script::Script;

// How many nodes have a key slot.
pub(crate) fn sync_count(nodes: &NodeList) -> usize
    ensures { result ≡ length (key_slots nodes.now) }
{
    keyed_count(nodes)
}

fn keyed_count(nodes: &NodeList) -> usize
    ensures { result ≡ length (filter (λ node. is_some node.key) nodes.now) }
{
    let mut count = 0;
    for place in 0..nodes.len() {
        if let Some(node) = nodes.get(place)
            && node.key.is_some()
        {
            count += 1;
        }
    }
    count
}

// How many nodes are arbitrary.
pub(crate) fn arbitrary_count(nodes: &NodeList, script: &Script) -> usize
    ensures { result ≡ length (filter (λ node. is_arbitrary script.now node.id) nodes.now) }
{
    let mut count = 0;
    for place in 0..nodes.len() {
        if let Some(node) = nodes.get(place)
            && script.arbitrary(node.id)
        {
            count += 1;
        }
    }
    count
}
