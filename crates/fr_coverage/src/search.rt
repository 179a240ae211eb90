ghost use Rattle.std.specs.Prelude.{◌≡◌, Option, None};
ghost use Rattle.fr_cluster.specs.declared.nodes.NodeSpec.{NodeSpec as Node};
ghost use Rattle.fr_coverage.specs.First.{first_in};
ghost use Rattle.fr_coverage.specs.declared.gap.Gap.{Gap as Found};

use crate::gap::Gap;
use fr_cluster::{NodeList, NodeSpec};

/// What looks for the first gap of a node.
pub trait Search {
    /// The gap that it finds.
    ghost found: { Self → Node → Option Found };

    /// The first gap of the node, if it has one.
    fn find(&self, node: &NodeSpec) -> Option<Gap>
        ensures { result ≡ found self.now node.now };
}

/// The gap of the first node that has one; None exactly where none has.
pub fn first_among<S: Search>(nodes: &NodeList, search: &S) -> Option<Gap>
    ensures { result ≡ first_in (S.found search.now) nodes.now }
{
    for place in 0..nodes.len() {
        match nodes.get(place) {
            Some(node) => match search.find(node) {
                Some(gap) => return Some(gap),
                None => {}
            },
            None => {}
        }
    }
    None
}
