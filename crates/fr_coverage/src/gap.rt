use fr_base::{Channel, NodeId};

/// Why a run is not covered by the precision theorem.
#[derive(Clone, Copy, Debug, PartialEq, Eq)]
pub enum Gap {
    /// A check of the parameters fails: its number, 1 to 9, and both its sides. Those from 6 on are asked only where
    /// some node joins the running cluster.
    Check {
        number: u8,
        left: i64,
        right: i64,
    },
    /// The correct nodes with a key slot that take part from cycle 0 on do not outweigh the arbitrary ones.
    Count {
        correct: u32,
        arbitrary: u32,
    },
    /// The microtick of a correct node lasts so many ticks in a cycle, too few or too many.
    Length {
        node: NodeId,
        cycle: u32,
        ticks: i64,
    },
    /// The microtick of a correct node lasts so many ticks more in a cycle than in the cycle before, too many
    /// either way.
    Change {
        node: NodeId,
        cycle: u32,
        ticks: i64,
    },
    /// The frames of a correct node with a key slot travel so many ticks to another correct node in a cycle,
    /// too few or too many.
    Delay {
        sender: NodeId,
        receiver: NodeId,
        channel: Channel,
        cycle: u32,
        ticks: i64,
    },
    /// In a double cycle no channel that both nodes have carries the frames of both cycles.
    Link {
        sender: NodeId,
        receiver: NodeId,
        double: u32,
    },
}

/// Where the delay of a correct node's sync frames at another correct node flutters: on a channel that both have it differs
/// by so many ticks between the two cycles of a double cycle.
#[derive(Clone, Copy, Debug, PartialEq, Eq)]
pub struct Fluttering {
    /// The ticks, 1 to 1,000,000,000.
    pub ticks: u64,
    /// The node whose frames they are.
    pub sender: NodeId,
    /// The node at which they arrive.
    pub receiver: NodeId,
    /// The channel.
    pub channel: Channel,
    /// The double cycle.
    pub double: u32,
}

/// The first gap of a run of each kind but the checks, in the order in which they are looked for.
#[derive(Clone, Copy, Debug, PartialEq, Eq)]
pub struct RunGaps {
    /// Where the correct nodes do not outweigh the arbitrary ones.
    pub count: Option<Gap>,
    /// Of a microtick that is too short or too long.
    pub lengths: Option<Gap>,
    /// Of a microtick that changes by too much.
    pub changes: Option<Gap>,
    /// Of a delay.
    pub delays: Option<Gap>,
    /// Of a link.
    pub links: Option<Gap>,
}
