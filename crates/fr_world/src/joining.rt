ghost use Rattle.std.specs.Prelude.{◌≡◌, ◌<◌, ◌≤◌, length, vec_capacity};
ghost use Rattle.std.specs.List.{insert};
ghost use Rattle.fr_node.specs.View.{NodeView};
ghost use Rattle.fr_script.specs.Promises.{NodesJoinProperly};
ghost use Rattle.fr_air.specs.Placing.{put};
ghost use Rattle.fr_world.specs.Succeeding.{followers_without, goes_now, joins_now, nodes_with, CanPass, HasFollowed, Passes};

use fr_air::files::RunInputs;
use fr_base::NodeId;
use fr_node::Node;

// Where a node of a number stands among others: before the first of a greater number.
fn place_of(nodes: &[Node], id: NodeId) -> usize
    ensures value { (node : NodeView) → node.id ≡ id →
        put (λ n. n.id) node nodes.now ≡ insert nodes.now result node }
    ensures within { result ≤ length nodes.now }
{
    for place in 0..nodes.len() {
        if id.0 < nodes[place].id().0 {
            return place;
        }
    }
    nodes.len()
}

// Puts a node among others, before the first of a greater number.
pub(crate) fn put(nodes: &mut Vec<Node>, node: Node)
    requires few { length nodes.old.items < 64 }
    requires room { 64 ≤ vec_capacity nodes.old }
    ensures placed { nodes.new.items ≡ put (λ n. n.id) node nodes.old.items }
    ensures room { 64 ≤ vec_capacity nodes.new }
{
    let place = place_of(nodes.as_slice(), node.id());
    match nodes.insert(place, node) {
        Ok(()) => {}
        Err(_) => unreachable!(),
    }
}

// Whether a follower joins as a double cycle begins.
fn joins(files: &RunInputs, double: u32, node: &Node) -> bool
    requires proper { NodesJoinProperly files.now.params files.now.script }
    requires followed { HasFollowed node.now }
    ensures { result ≡ joins_now files.now double node.now }
{
    match files.script.join(node.id()) {
        Some(join) => double == join.double + 3 && node.steady(),
        None => false,
    }
}

// Whether it goes on to follow into it.
fn goes_on(files: &RunInputs, double: u32, node: &Node) -> bool
    requires proper { NodesJoinProperly files.now.params files.now.script }
    requires followed { HasFollowed node.now }
    ensures { result ≡ goes_now files.now double node.now }
{
    match files.script.join(node.id()) {
        Some(join) => double == join.double + 2 && node.steady(),
        None => false,
    }
}

// A follower joins as a double cycle begins, goes on to follow into it, or is let go. Answers where the next one stands.
fn pass(
    files: &RunInputs,
    double: u32,
    place: usize,
    followers: &mut Vec<Node>,
    nodes: &mut Vec<Node>,
) -> usize
    requires proper { NodesJoinProperly files.now.params files.now.script }
    requires place { place < length followers.old.items }
    requires nodes { CanPass files.now followers.old.items nodes.old.items }
    requires few { length (nodes_with files.now double place followers.old.items nodes.old.items) ≤ 64 }
    requires room { 64 ≤ vec_capacity nodes.old }
    ensures passes { Passes files.now double place result followers.old.items nodes.old.items
        followers.new.items nodes.new.items }
    ensures nodes { CanPass files.now followers.new.items nodes.new.items }
    ensures room { 64 ≤ vec_capacity nodes.new }
    ensures capacity { vec_capacity followers.new ≡ vec_capacity followers.old }
{
    if joins(files, double, &followers[place]) {
        let mut node = followers.remove(place);
        node.join();
        put(nodes, node);
        return place;
    }
    if goes_on(files, double, &followers[place]) {
        return place + 1;
    }
    let _gone = followers.remove(place);
    place
}

// As a double cycle begins, each follower joins, goes on to follow into it, or is let go.
pub(crate) fn pass_all(
    files: &RunInputs,
    double: u32,
    followers: &mut Vec<Node>,
    nodes: &mut Vec<Node>,
)
    requires proper { NodesJoinProperly files.now.params files.now.script }
    requires nodes { CanPass files.now followers.old.items nodes.old.items }
    requires few { length (nodes_with files.now double 0 followers.old.items nodes.old.items) ≤ 64 }
    requires room { 64 ≤ vec_capacity nodes.old }
    ensures joined { nodes.new.items ≡ nodes_with files.now double 0 followers.old.items nodes.old.items }
    ensures kept { followers.new.items ≡ followers_without files.now double 0 followers.old.items }
    ensures nodes { CanPass files.now followers.new.items nodes.new.items }
    ensures room { 64 ≤ vec_capacity nodes.new }
    ensures capacity { vec_capacity followers.new ≡ vec_capacity followers.old }
{
    let mut place = 0;
    'walk: while place < followers.len() {
        place = pass(files, double, place, followers, nodes);
    }
}
