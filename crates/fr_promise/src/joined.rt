ghost use Rattle.fr_promise.specs.SharpJoined.{FollowedDoublesAreKept, FollowedDoublesGoOn, FollowedDoublesHear, FollowedListenersBegin, JoinedDoublesAreKept, JoinedDoublesGoOn, JoinedFollowersJoin, JoinedIsInSharpSync, JoinedListenersBegin, SteadyFollowersJoin, UnfollowedIsFollowed, UnfollowedIsJoined};

/// The law of a double cycle of a lawful run that nodes join, where delays flutter little, from any numbers: it comes to what
/// the step says by what is heard in it, in ticks, and all is heard where no frame is lost. Where it comes to so much, the
/// next double cycle is one with these numbers, whoever joined, as long as the rate limit suffices for the walk and for
/// first rates; and whoever follows has a row behind its second double cycle. Whoever listens begins to follow, whatever
/// else is lost, where its reference's frames come to it and its reference's start is not below 0.
pub fn followed_doubles_go_on()
    ensures begins { UnfollowedIsFollowed }
    ensures hear { FollowedDoublesHear }
    ensures kept { FollowedDoublesAreKept }
    ensures next { FollowedDoublesGoOn }
    ensures join { SteadyFollowersJoin }
    ensures listen { FollowedListenersBegin }
{}

/// The law of a lawful run that nodes join, where delays flutter little: from a double cycle in sharp sync on in which
/// no node follows, with even lengths at most so many ticks beyond their range, the nodes with rows are in sharp sync and no
/// term of them or of those that follow is cut; and so it is in the next double cycle, whoever joined, as long as the
/// rate limit suffices for the walk and for first rates. Whoever follows has a row behind its second double cycle, and
/// whoever listens begins to follow, where its reference's start is not below 0.
pub fn joined_doubles_go_on()
    ensures begins { UnfollowedIsJoined }
    ensures sync { JoinedIsInSharpSync }
    ensures kept { JoinedDoublesAreKept }
    ensures next { JoinedDoublesGoOn }
    ensures join { JoinedFollowersJoin }
    ensures listen { JoinedListenersBegin }
{}
