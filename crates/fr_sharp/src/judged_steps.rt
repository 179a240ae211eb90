ghost use Rattle.fr_sharp.specs.JudgedSteps.{JudgedGoesOn, KnownIsMet, SharpSyncIsKnown, StatedRunsAreKnown, UnfollowedGoesOn};
ghost use Rattle.fr_sharp.specs.JudgedStates.{CarriedIsKnown};

/// The law of a double cycle that is judged by what is known of it: in a lawful history that no node joins, no macroticks
/// of it lie further apart than these numbers say, in ticks, each node has a deviation of each sender that it hears, and a
/// rate value that places its length, and applies their midpoints (sections 8.5 and 8.6); no term is cut or missing, and
/// every node is active in the next one, of which so much is known. None of it asks for sync. The same holds in a history
/// that nodes join, of a double cycle in which each correct node has a row; each has one in the next one too. What is known
/// in two ways is known by the lesser numbers; something is known of a double cycle in sharp sync, and of the first one.
pub fn judged_double_cycles_go_on()
    ensures steps { JudgedGoesOn }
    ensures unfollowed { UnfollowedGoesOn }
    ensures met { KnownIsMet }
    ensures synced { SharpSyncIsKnown }
    ensures stated { StatedRunsAreKnown }
{}

/// The law of a state that is carried through the double cycles of such a history: met with what is seen of each, and stepped
/// where what was met is judged, it is known of each; and a judged one goes on so.
pub fn carried_states_are_known()
    ensures { CarriedIsKnown }
{}
