use crate::{NodeId, State};

/// One node's cycle: when it began, how its clock ran, and what it corrected.
#[derive(Clone, Copy, Debug, PartialEq, Eq)]
pub struct NodeRow {
    pub node: NodeId,
    /// The start of the cycle in ticks.
    pub start: i64,
    /// The length of a microtick in this cycle, in ticks.
    pub length: i64,
    /// The rate term in microticks: the same in both cycles of a double cycle.
    pub rate: i32,
    /// The offset term in microticks: 0 in even cycles.
    pub offset: i32,
    /// The state of operation control in this cycle.
    pub state: State,
    /// How many correction terms were cut at the end of this cycle, 0 to 2.
    pub cut: u8,
}
