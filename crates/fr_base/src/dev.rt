use crate::{Channel, NodeId, Slot};

/// A deviation that a node has measured: how much later than expected a sync frame came (section 8.5).
#[derive(Clone, Copy, Debug, PartialEq, Eq)]
pub struct Dev {
    /// The node that received the frame.
    pub receiver: NodeId,
    /// The static slot in which it was sent: a key slot.
    pub slot: Slot,
    /// The channel on which it came.
    pub channel: Channel,
    /// The deviation in microticks of the receiver; negative where the frame came earlier than expected.
    pub value: i32,
}
