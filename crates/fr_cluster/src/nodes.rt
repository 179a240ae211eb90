ghost use Rattle.std.specs.Prelude.{◌≡◌, Some};
ghost use Rattle.fr_cluster.specs.Questions.{has_channel};

use fr_base::{Channel, NodeId, Slot};

/// A node of the cluster: its number, the static slot in which it sends its sync frames, if it does, the
/// channels that it has, and whether its sync frames are startup frames.
#[derive(Clone, Copy)]
pub struct NodeSpec {
    pub id: NodeId,
    pub key: Option<Slot>,
    pub on_a: bool,
    pub on_b: bool,
    pub coldstart: bool,
}

impl NodeSpec {
    /// Whether it has the channel.
    pub fn has_channel(&self, channel: Channel) -> bool
        ensures { result ≡ has_channel (Some self.now) channel }
    {
        match channel {
            Channel::A => self.on_a,
            Channel::B => self.on_b,
        }
    }
}

/// A further static slot of a node: it sends a frame with valid payload there in the cycles whose count
/// modulo `repetition` is `base`, and a null frame in all others.
#[derive(Clone, Copy)]
pub struct SlotSpec {
    pub slot: Slot,
    pub node: NodeId,
    pub base: u8,
    pub repetition: u8,
}
