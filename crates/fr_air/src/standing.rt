ghost use Rattle.fr_air.specs.Listeners.{BeginningNodesListened, ListenersBegin};
ghost use Rattle.fr_air.specs.Nodes.{FollowersAreSteady, JoiningNodesAreFresh, NodesWithoutRowsAreFresh};
ghost use Rattle.fr_air.specs.NextStanding.{EvenCyclesStay, FollowersSucceed, JoiningNodesFollowed, RowsSucceed};
ghost use Rattle.fr_air.specs.Views.{FollowersBegin, JoiningNodesAreJoined, ListenersComeFirst};

/// A law: behind a lawful cycle the nodes with rows are those that had one and those that join, and the followers are
/// those that followed and go on and those that begin, in ascending order. Behind an even cycle both stay. Whoever
/// joins followed, and does no longer.
pub fn nodes_succeed()
    ensures rows { RowsSucceed }
    ensures followers { FollowersSucceed }
    ensures even { EvenCyclesStay }
    ensures joining { JoiningNodesFollowed }
{}

/// A law: whoever listens in a double cycle begins to follow behind it with what it has caught of its reference on
/// channel A, or else on channel B, where that suffices; and nobody else begins to.
pub fn listeners_begin()
    ensures begin { ListenersBegin }
    ensures nobody_else { BeginningNodesListened }
{}

/// A law: what a node has behind some cycles: a follower followed well where neither of its outcomes was cut or
/// missing; and a node without a row has no outcomes as one with a row, so that the operation control of one that
/// joins begins.
pub fn nodes_have_what_they_had()
    ensures steady { FollowersAreSteady }
    ensures fresh { NodesWithoutRowsAreFresh }
    ensures joining { JoiningNodesAreFresh }
{}

/// A law: how contracts see nodes that join. What a listener caught begins to follow as `Listener::first` answers it,
/// that is the follower behind its double cycle, and a node that joins is what `Node::join` makes of a follower.
pub fn followers_are_seen()
    ensures first { ListenersComeFirst }
    ensures begin { FollowersBegin }
    ensures join { JoiningNodesAreJoined }
{}
