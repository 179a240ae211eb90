ghost use Rattle.std.specs.Prelude.{◌≡◌, map, All};
ghost use Rattle.fr_node.specs.Cycle.{ended};
ghost use Rattle.fr_node.specs.Fits.{NodeFits};
ghost use Rattle.fr_node.specs.View.{node_row_of};
ghost use Rattle.fr_air.specs.Cycling.{AreListable, HasBegun, HaveBegun, HaveEnded, IsReady, IsWaiting};
ghost use Rattle.fr_air.specs.Sending.{IsEarlyRow};

use fr_air::files::{RunInputs, sane};
use fr_base::RowList;
use fr_node::Node;

// Begins the cycle of a node.
fn begin_one(files: &RunInputs, cycle: u32, node: &mut Node)
    requires waiting { IsWaiting files.now cycle node.old }
    ensures { HasBegun files.now cycle node.old node.new }
{
    let length = files.drift.drift().length(node.id(), cycle);
    node.begin(cycle, length);
}

// Begins the cycle of each node.
pub(crate) fn begin_all(files: &RunInputs, cycle: u32, nodes: &mut [Node])
    requires waiting { All (IsWaiting files.now cycle) nodes.old }
    ensures { HaveBegun files.now cycle nodes.old nodes.new }
{
    for node in nodes.iter_mut() {
        begin_one(files, cycle, node);
    }
}

// Lists the rows of nodes whose cycle is under way, before its corrections.
pub(crate) fn list_rows(files: &RunInputs, cycle: u32, nodes: &[Node], rows: &mut RowList)
    requires ready { All (IsReady files.now cycle) nodes.now }
    requires nodes { AreListable nodes.now }
    ensures rows { rows.new ≡ map node_row_of nodes.now }
    ensures early { All (IsEarlyRow files.now.params) rows.new }
{
    rows.clear();
    for node in nodes {
        rows.push(node.row());
    }
}

// Ends the cycle of each node, and lists their rows.
pub(crate) fn end_all(files: &RunInputs, cycle: u32, nodes: &mut [Node], rows: &mut RowList)
    requires ready { All (IsReady files.now cycle) nodes.old }
    requires nodes { AreListable nodes.old }
    ensures { HaveEnded files.now nodes.old nodes.new rows.new }
{
    sane(&files.params);
    rows.clear();
    for node in nodes.iter_mut() {
        let row = node.end(&files.params);
        rows.push(row);
    }
}

// Ends the cycle of each follower.
pub(crate) fn end_followers(files: &RunInputs, cycle: u32, followers: &mut [Node])
    requires ready { All (IsReady files.now cycle) followers.old }
    ensures ended { followers.new ≡ map (ended files.now.params) followers.old }
    ensures fitting { All (NodeFits files.now.params) followers.new }
{
    for node in followers.iter_mut() {
        node.end(&files.params);
    }
}
