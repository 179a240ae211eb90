use fr_base::Slot;
use fr_frame::FrameFault;

/// Why a frame that was offered to a node is ignored. Of several causes it is the first in this order.
#[derive(Clone, Copy, Debug, PartialEq, Eq)]
pub enum Ignored {
    /// It arrived before `from`, the instant at which its slot begins at the node, or not before `to`, the
    /// one at which it ends. All three are in ticks.
    Outside { arrival: i64, from: i64, to: i64 },
    /// Its bytes are no frame.
    Damaged(FrameFault),
    /// Its frame ID is not the slot's number.
    WrongId { slot: Slot, id: u16 },
    /// Its cycle count is not that of the node's cycle.
    WrongCycle { own: u8, got: u8 },
    /// Its payload length in two-byte words is not the cluster's.
    WrongLength { own: u8, got: u8 },
    /// Its sync frame indicator is clear, or the slot is no key slot.
    Plain,
}

/// What a node makes of a frame that is offered to it.
#[derive(Clone, Copy, Debug, PartialEq, Eq)]
pub enum Heard {
    /// It is an accepted sync frame, of this deviation in microticks.
    Stored(i32),
    /// It is ignored.
    Ignored(Ignored),
}
