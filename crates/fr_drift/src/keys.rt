use fr_base::NodeId;

// What a `length` row stands under: its node, and the cycle from which on it holds. The rows of a node
// stand together, in ascending order of that cycle.
#[derive(Clone, Copy, Debug, PartialEq, Eq, PartialOrd, Ord)]
pub(crate) struct LengthKey {
    pub(crate) node: NodeId,
    pub(crate) from: u32,
}

// What a `delay` row of one channel stands under: its link, and the cycle from which on it holds. The rows
// of a link stand together, in ascending order of that cycle.
#[derive(Clone, Copy, Debug, PartialEq, Eq, PartialOrd, Ord)]
pub(crate) struct DelayKey {
    pub(crate) sender: NodeId,
    pub(crate) receiver: NodeId,
    pub(crate) from: u32,
}
