ghost use Rattle.fr_runs.specs.Precision.{RatesStayWithin, UnfollowedRunsKeepPrecision};
ghost use Rattle.fr_runs.specs.Rounds.{LawfulCyclesRun, RunsKeepUp, UnfollowedRunsKeepUp};

/// A law: the clocks of lawful cycles run by their laws, those of the rows and those of the followers, none of
/// which has a row.
pub fn lawful_cycles_run()
    ensures { LawfulCyclesRun }
{}

/// A law: in a whole run, from a double cycle in sync in which no node follows on, every double
/// cycle is in sync with its followers near, where each receiver has the deviations of its senders from there on:
/// no macrotick of the nodes with rows lies further apart than the precision, in ticks, and no term of a node that
/// has a row, or that follows, is cut or missing.
pub fn runs_keep_up()
    ensures { RunsKeepUp }
{}

/// A law: so it is from each such double cycle of the run on, where the rates of its nodes begin within their limit,
/// in microticks: they stay within it.
pub fn unfollowed_runs_keep_up()
    ensures rates { RatesStayWithin }
    ensures keep { UnfollowedRunsKeepUp }
{}

/// A law: from such a double cycle to the end of the run the clocks of the nodes with rows lie no further apart than
/// the precision, in ticks, each of these nodes is active, and no row tells a cut, of a node that has a row or of one
/// that follows.
pub fn unfollowed_runs_keep_precision()
    ensures { UnfollowedRunsKeepPrecision }
{}
