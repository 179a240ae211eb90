ghost use Rattle.fr_precision.specs.Alike.{AlikeRoundsShrink, AlikeSpreadsShrink};
ghost use Rattle.fr_precision.specs.SharpStep.{ActionsLieInReach, InSyncIsSharp, MacroticksStaySharp, NextIsInSharpSync, NextIsNear, NextIsSharp, ReceiversComeSharply, SharpIsWider, SharpSpreadsShrink, SharpSyncDraws, SharpSyncIsKept, SpreadsShrinkInReach};

/// The law of the step with free numbers: nodes with a value of every sender cut no term, and their next starts and
/// even lengths, in ticks, draw together as the numbers do; of two receivers, and of any two of a list of nodes,
/// whatever says that the reach takes in their action points. Nodes in sync in the older sense are a case of it.
pub fn sharp_spreads_shrink()
    ensures two { ReceiversComeSharply }
    ensures reach { ActionsLieInReach }
    ensures within { SpreadsShrinkInReach }
    ensures shrink { SharpSpreadsShrink }
    ensures macroticks { MacroticksStaySharp }
    ensures near { NextIsNear }
    ensures next { NextIsSharp }
    ensures sync { InSyncIsSharp }
    ensures wider { SharpIsWider }
{}

/// The law of the step: under the sharper checks nodes in sharp sync in a double cycle, with a value of every sender,
/// stay so: no term is cut, no macrotick lies further apart than the sharper precision, in ticks, and the next rows
/// are in sharp sync too, as long as the rate limit suffices for the walk.
pub fn sharp_sync_is_kept()
    ensures draws { SharpSyncDraws }
    ensures kept { SharpSyncIsKept }
    ensures next { NextIsInSharpSync }
{}

/// The law of the step beside arbitrary nodes that are heard alike: of each of them two receivers have values at places
/// that lie as near, in ticks, as those of a correct sender, or neither has any. Their next starts and even lengths draw
/// together as without arbitrary nodes; of any two of a list of nodes, and of the receivers of a round.
pub fn alike_spreads_shrink()
    ensures shrink { AlikeSpreadsShrink }
    ensures rounds { AlikeRoundsShrink }
{}
