ghost use Rattle.fr_promise.specs.SharpFollowing.{CatchesAreSharp, FollowersHearSteadily};

/// The law of hearing of nodes that follow: in a lawful run whose delays flutter little, each that follows in a double
/// cycle has its deviations of every sender among the nodes with rows, and those of one channel are a steady pair
/// (section 8.5), where its action points lie within a reach of theirs, in ticks, for which the offset limit suffices
/// and slots leave room. What a node begins to follow with was caught of its reference's frames, whose delays flutter
/// as little.
pub fn followers_hear_steadily()
    ensures hear { FollowersHearSteadily }
    ensures caught { CatchesAreSharp }
{}
