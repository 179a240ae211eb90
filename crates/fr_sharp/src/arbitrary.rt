ghost use Rattle.std.specs.Prelude.{◌≡◌};
ghost use Rattle.fr_sharp.specs.SharpStatement.{has_arbitrary, has_arbitrary_in};

use fr_cluster::{NodeList, Params};
use fr_script::Script;
use fr_traffic::is_arbitrary_sync;

/// Whether some node with a key slot is arbitrary: then the bounds beside arbitrary nodes are those of the run, else those
/// without.
pub fn has_arbitrary(params: &Params, script: &Script) -> bool
    ensures { result ≡ has_arbitrary params.now script.now }
{
    let nodes = &params.nodes;
    some_arbitrary(nodes, script)
}

fn some_arbitrary(nodes: &NodeList, script: &Script) -> bool
    ensures { result ≡ has_arbitrary_in nodes.now script.now }
{
    let mut found = false;
    for place in 0..nodes.len() {
        match nodes.get(place) {
            Some(node) => {
                if is_arbitrary_sync(node, script) {
                    found = true;
                }
            }
            None => {}
        }
    }
    found
}
