ghost use Rattle.std.specs.Prelude.{◌*◌, ◌<◌, ◌≤◌, length, All, AllPairs};
ghost use Rattle.std.specs.List.{flat_map};
ghost use Rattle.fr_history.specs.Offers.{channels};
ghost use Rattle.fr_air.specs.Cycling.{AreListable};
ghost use Rattle.fr_air.specs.Listing.{listed_among, listed_at, listed_of, CanList, HasRoom, IsListed, Lists};

use fr_base::{Channel, Dev, DevList, Slot};
use fr_cluster::Params;
use fr_node::Node;

// Lists the deviation that a node has of a slot on a channel, if it has one.
fn list_at(
    params: &Params,
    odd: bool,
    node: &Node,
    slot: Slot,
    channel: Channel,
    devs: &mut DevList,
)
    requires { CanList 1 node.now.id slot channel devs.old }
    ensures { Lists (listed_at params.now odd node.now slot channel) 1 devs.old devs.new }
{
    if let Some(index) = params.key_index(slot)
        && let Some(value) = node.deviation(index, odd, channel)
    {
        devs.push(Dev {
            receiver: node.id(),
            slot,
            channel,
            value,
        });
    }
}

// Lists those of a slot on both channels.
fn list_slot(params: &Params, odd: bool, node: &Node, slot: Slot, devs: &mut DevList)
    requires { CanList 2 node.now.id slot Channel.A devs.old }
    ensures { Lists (flat_map (listed_at params.now odd node.now slot) channels) 2 devs.old devs.new }
{
    list_at(params, odd, node, slot, Channel::A, devs);
    list_at(params, odd, node, slot, Channel::B, devs);
}

// Lists those of a node in all key slots.
fn list_node(params: &Params, odd: bool, keys: &[Slot], node: &Node, devs: &mut DevList)
    requires keys { AllPairs (λ a b. a < b) keys.now }
    requires room { 2 * length keys.now ≤ devs.old.spare }
    requires later { All (λ earlier. earlier.receiver < node.now.id) devs.old.entries }
    ensures { Lists (listed_of params.now odd keys.now node.now) (2 * length keys.now) devs.old devs.new }
{
    for slot in keys {
        list_slot(params, odd, node, *slot, devs);
    }
}

// Lists the deviations of all nodes in the odd or the even cycle of their tables.
pub(crate) fn list_devs(
    params: &Params,
    odd: bool,
    keys: &[Slot],
    nodes: &[Node],
    devs: &mut DevList,
)
    requires keys { AllPairs (λ a b. a < b) keys.now }
    requires nodes { AreListable nodes.now }
    requires room { HasRoom keys.now devs.old }
    ensures { IsListed keys.now (listed_among params.now odd keys.now nodes.now) devs.new }
{
    devs.clear();
    for node in nodes {
        list_node(params, odd, keys, node, devs);
    }
}
