ghost use Rattle.std.specs.Prelude.{◌≡◌, ◌≤◌, length, map, All, IsNone};
ghost use Rattle.fr_report.specs.Worlds.{clock_between};

use fr_lines::{Clock, ClockList, Report};
use fr_node::Node;

// The clocks of some nodes between cycles, by the rows of the last odd cycle.
pub(crate) fn clocks_of(nodes: &[Node], report: &Report) -> ClockList
    requires few { length nodes.now ≤ 64 }
    requires between { All (λ node. IsNone node.length) nodes.now }
    ensures { result ≡ map (clock_between report.now.odd) nodes.now }
{
    let mut clocks = ClockList::new();
    for node in nodes {
        clocks.push(clock_of(node, report));
    }
    clocks
}

fn clock_of(node: &Node, report: &Report) -> Clock
    requires { IsNone node.now.length }
    ensures { result ≡ clock_between report.now.odd node.now }
{
    report.clock(
        node.id(),
        node.next_state(),
        node.next_start(),
        node.next_rate(),
    )
}
