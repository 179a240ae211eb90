ghost use Rattle.fr_promise.specs.SharpGroup.{AllIsHeardOfBoth, SharpGroupsAreKept, SharpRoundsAreFollowed, SteadyGroupsAreKept, SteadyRoundsAreFollowed};

/// The law of the step of a cluster that nodes join, whose delays flutter little, from any numbers: where starts and even
/// lengths of the nodes with rows lie within some bounds, in ticks, and those that follow lie near them, no term is cut, and
/// all lie within the bounds of the next double cycle to which these go by what is heard: whoever followed twice is among
/// the nodes with rows, and whoever followed once or listened lies near them. No macrotick of two nodes with rows lies
/// further apart than both double cycles say. Each computes its terms from its values of every sender, or where frames are
/// lost of senders of its own, with enough in common or not: the next starts go by what is heard of offsets, and the next
/// even lengths by what is heard of rates. A round whose receivers lie so near and are so supplied is such a cluster in
/// which all is heard, whatever supplies it.
pub fn steady_groups_are_kept()
    ensures kept { SteadyGroupsAreKept }
    ensures round { SteadyRoundsAreFollowed }
{}

/// The law of such a cluster in which all is heard of all: so it is of offsets and of rates, without arbitrary nodes, and
/// beside them it counts of both as lists that meet.
pub fn all_is_heard_of_both()
    ensures { AllIsHeardOfBoth }
{}

/// The sharper law of the step of a cluster that nodes join: where the nodes with rows lie as near as in sharp sync, those
/// that follow lie near them, and each computes its terms from its values of every sender, no term is cut, no macrotick of
/// two nodes with rows lies further apart than the sharper precision, in ticks, and it is so in the next double cycle:
/// whoever followed twice is in sharp sync with the nodes with rows, and whoever followed once lies near them. So does
/// whoever listened to a sender, where the rate limit takes in the rate that it begins with. A round whose receivers lie so
/// near and are so supplied is such a cluster, whatever supplies it.
pub fn sharp_groups_are_kept()
    ensures kept { SharpGroupsAreKept }
    ensures round { SharpRoundsAreFollowed }
{}
