ghost use Rattle.std.specs.Prelude.{◌≡◌, ◌≤◌, ◌<◌};
ghost use Rattle.fr_generator.specs.Places.{beside, chance_at, channel_at, link_at};

use fr_base::{Channel, NodeId};

/// From one node to another on a channel.
#[derive(Clone, Copy, Debug, PartialEq, Eq)]
pub struct Link {
    pub sender: NodeId,
    pub receiver: NodeId,
    pub channel: Channel,
}

/// An arbitrary node's chance to say a frame over a link in a cycle.
#[derive(Clone, Copy, Debug, PartialEq, Eq)]
pub struct Chance {
    pub cycle: u32,
    pub link: Link,
}

pub(crate) fn node_of(number: u32) -> NodeId
    requires from { 1 ≤ number }
    requires to { number ≤ 64 }
    ensures { result ≡ number }
{
    NodeId(number as u8)
}

fn channel_at(place: u32) -> Channel
    ensures { result ≡ channel_at place }
{
    if place % 2 == 0 {
        Channel::A
    } else {
        Channel::B
    }
}

fn beside(node: u32, place: u32) -> u32
    requires { place < 64 }
    ensures { result ≡ beside node place }
{
    if place < node { place } else { place + 1 }
}

// The link of a place among the 112: the places ascend by sender, receiver and channel.
pub(crate) fn link_at(place: u32) -> Link
    requires { place < 112 }
    ensures { result ≡ link_at place }
{
    let sender = place / 14 + 1;
    let receiver = beside(sender, place % 14 / 2 + 1);
    Link {
        sender: node_of(sender),
        receiver: node_of(receiver),
        channel: channel_at(place % 14),
    }
}

// The chance of a place: the places ascend by cycle, sender, receiver and channel.
pub(crate) fn chance_at(place: u32) -> Chance
    ensures { result ≡ chance_at place }
{
    let among = place % 24;
    let beneath = among % 12;
    Chance {
        cycle: place / 24,
        link: Link {
            sender: node_of(among / 12 + 7),
            receiver: node_of(beneath / 2 + 1),
            channel: channel_at(beneath),
        },
    }
}
