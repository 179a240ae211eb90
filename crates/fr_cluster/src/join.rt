use fr_base::NodeId;

/// How a node joins a running cluster: in this double cycle it listens to the reference node, and takes from its
/// sync frames alone the start and the rate with which it then begins to follow (integration into a running
/// cluster, chapter 7 of the standard; that the reference is given is this profile's).
#[derive(Clone, Copy)]
pub struct Join {
    pub double: u32,
    pub reference: NodeId,
}
