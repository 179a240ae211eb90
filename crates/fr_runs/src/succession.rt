ghost use Rattle.fr_runs.specs.Gathered.{SyncGoesOn};
ghost use Rattle.fr_runs.specs.Succession.{FollowersJoin, GatheredNodesSucceed};

/// A law: behind a double cycle a node has a row where it had one there, or followed there for the second time;
/// it follows for the second time where it followed there for the first time; and for the first time where it
/// listened there and caught frames of its reference. Within a double cycle all this stays.
pub fn gathered_nodes_succeed()
    ensures { GatheredNodesSucceed }
{}

/// A law: where the nodes with rows are in sync in a double cycle, its followers lie near them and each receiver
/// has the deviations of its senders, the next double cycle is such a one, if its clocks run by their laws.
pub fn gatherings_go_on()
    ensures { SyncGoesOn }
{}

/// A law: in such a double cycle no follower is left behind: whoever follows for the first time does so for the
/// second time in the next one, and whoever follows for the second time has a row there.
pub fn followers_join()
    ensures { FollowersJoin }
{}
