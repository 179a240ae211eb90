use fr_base::{Channel, NodeId, NodeRow, Slot};
use fr_node::Reception;

// A slot of a cycle on a channel.
#[derive(Clone, Copy)]
pub struct Turn {
    pub cycle: u32,
    pub slot: Slot,
    pub channel: Channel,
}

// Who sends: a node, with its row where it is correct.
#[derive(Clone, Copy)]
pub struct Sender {
    pub node: NodeId,
    pub row: Option<NodeRow>,
}

// A frame on the air: the turn in which it is sent, and by whom, the instant at which a correct sender sends it, in
// ticks, the number of the cell in which it is kept, or none where it is being said, and what its
// receivers make of it where it arrives in its slot.
#[derive(Clone, Copy)]
pub struct Air<'a> {
    pub turn: &'a Turn,
    pub sender: &'a Sender,
    pub due: i64,
    pub cell: Option<usize>,
    pub reception: &'a Reception,
}

// What comes of a frame: its bytes, these with one bit inverted, or other bytes.
#[derive(Clone, Copy)]
pub enum Bytes<'a> {
    Frame,
    Flipped(u32),
    Said(&'a [u8]),
}

// What comes to a node in a turn, and when, in ticks.
#[derive(Clone, Copy)]
pub struct Coming<'a> {
    pub arrival: i64,
    pub bytes: Bytes<'a>,
}
