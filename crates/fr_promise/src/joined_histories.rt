ghost use Rattle.fr_promise.specs.JoinedHistories.{FirstRatesLastOn, FirstRatesLastSo};
ghost use Rattle.fr_promise.specs.JoinedHistories.{JoinedHistoriesKeepSharpPrecision, JoinedHistoriesKeepSharpSync, JoinedListenersJoin, JoinedListenersJoinUpTo};

/// The law of lawful histories of runs that nodes join, where delays flutter little: from a double cycle in sharp sync
/// in which no node follows, with even lengths in their range, the nodes with rows are in sharp sync in each later one, no
/// macroticks of theirs lie further apart than the sharper precision, in ticks, and no term of them or of those that
/// follow is cut, for as long as the rate limit holds the walk and suffices for first rates. Under the first of the
/// sharper checks that is to the end of the run, and without it for as many double cycles as are told. So far whoever
/// listens in a double cycle of it, to a reference that has started no earlier than at 0, follows in the next four cycles
/// and has a row from then on; and where it is to the end of the run, no row of them tells a cut and every correct node is
/// active behind it.
pub fn joined_histories_keep_sharp_sync()
    ensures keep { JoinedHistoriesKeepSharpSync }
    ensures on { FirstRatesLastOn }
    ensures lasts { FirstRatesLastSo }
    ensures cycles { JoinedHistoriesKeepSharpPrecision }
    ensures join { JoinedListenersJoin }
    ensures join_up_to { JoinedListenersJoinUpTo }
{}
