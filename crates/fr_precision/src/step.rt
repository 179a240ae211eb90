ghost use Rattle.fr_precision.specs.Step.{NextIsInSync, NextIsSpread, InSyncIsSpread, SpreadsShrink, SyncIsKept, SyncOfAllIsKept, SyncShrinks};

/// The law of the step with free numbers: where the offset limit suffices for how far action points may lie
/// apart, nodes that have a value of every sender cut no term, and their next starts and lengths, in ticks,
/// lie half as far apart, and some. At the spread of nodes in sync they stay.
pub fn spreads_shrink()
    ensures two { SpreadsShrink }
    ensures next { NextIsSpread }
    ensures sync { SyncShrinks }
{}

/// The law of the step: under the first three checks, nodes that are in sync in a double cycle and have a
/// value of every sender stay in sync: no term of theirs is cut, no macrotick lies further apart than the
/// precision, and the next starts and lengths, in ticks, are those of nodes in sync. Of two nodes that are
/// in sync with each other and with the senders, and of any two of a list of nodes whose rows are in sync;
/// then the rows of the next double cycle are in sync too.
pub fn sync_is_kept()
    ensures two { SyncIsKept }
    ensures all { SyncOfAllIsKept }
    ensures next { NextIsInSync }
{}

/// A law: nodes are in sync in a double cycle where all of them are active, and their starts and lengths are spread
/// by pi and by lambda, in ticks.
pub fn sync_is_spread()
    ensures { InSyncIsSpread }
{}
