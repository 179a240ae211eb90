ghost use Rattle.std.specs.Prelude.{◌≡◌, ◌≤◌, ◌&&◌, not, is_some, length};
ghost use Rattle.fr_script.specs.View.{is_arbitrary, join_of};
ghost use Rattle.fr_coverage.specs.Coverage.{is_counted, is_counted_on, some_join_in};

use fr_cluster::{NodeList, NodeSpec};
use fr_script::Script;

/// Whether some correct node of these joins the running cluster.
pub fn some_join(nodes: &NodeList, script: &Script) -> bool
    ensures { result ≡ some_join_in nodes.now script.now }
{
    let mut found = false;
    for place in 0..nodes.len() {
        match nodes.get(place) {
            Some(node) => {
                if joins(script, node) {
                    found = true;
                }
            }
            None => {}
        }
    }
    found
}

fn joins(script: &Script, node: &NodeSpec) -> bool
    ensures { result ≡ (not (is_arbitrary script.now node.now.id) && is_some (join_of script.now node.now.id)) }
{
    !script.arbitrary(node.id) && script.join(node.id).is_some()
}

// Whether a node with a key slot is arbitrary, or whether one is correct and takes part from cycle 0 on.
pub(crate) fn is_counted(script: &Script, arbitrary: bool, node: &NodeSpec) -> bool
    ensures { result ≡ is_counted script.now arbitrary node.now }
{
    node.key.is_some()
        && if arbitrary {
            script.arbitrary(node.id)
        } else {
            stays_on(script, node)
        }
}

fn stays_on(script: &Script, node: &NodeSpec) -> bool
    ensures { result ≡ is_counted_on script.now node.now.id }
{
    !script.arbitrary(node.id) && script.join(node.id).is_none()
}
