use fr_base::NodeId;

// What a switch stands under: its macrotick, and the node. The switches stand in the order of time, and those of one
// macrotick in ascending order of node.
#[derive(Clone, Copy, Debug, PartialEq, Eq, PartialOrd, Ord)]
pub(crate) struct PowerKey {
    pub(crate) at: u32,
    pub(crate) node: NodeId,
}
