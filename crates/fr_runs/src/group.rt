ghost use Rattle.fr_runs.specs.Group.{GroupsAreKept};

/// The law of the step of a cluster that nodes join: where the nodes with rows are in sync and those that follow lie
/// near them, no term is cut, no macrotick of two nodes with rows lies further apart than the precision, in ticks, and
/// it is so in the next double cycle: whoever followed twice is in sync with the nodes with rows, and whoever followed
/// once or listened lies near them.
pub fn groups_are_kept()
    ensures { GroupsAreKept }
{}
