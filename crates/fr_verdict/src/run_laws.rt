ghost use Rattle.fr_verdict.specs.CoveredRuns.{CoveredRunsKeepArrivals, CoveredRunsPass};
ghost use Rattle.fr_verdict.specs.CoveredRuns.{VerdictsTellGreatest, VerdictsTellSync};
ghost use Rattle.fr_verdict.specs.CoveredRuns.{VerdictsTellSyncAlone};
ghost use Rattle.fr_verdict.specs.FileRuns.{FilesKeepRanges, FilesThatNoneJoins, RunsOfFilesAreReadBack};
ghost use Rattle.fr_verdict.specs.RunFits.{RunsAreReadBack, RunsFit};
ghost use Rattle.fr_verdict.specs.Runs.{ProperRunsAreLawful, ProperRunsBreakNoOther, RunsBreakNoOther};

/// A law: the trace of lawful cycles, whoever joins and whatever arbitrary nodes say, breaks no law of a trace but the
/// sixth and the seventh: the one where a deviation lies outside of what both rows allow, the other where a node that
/// joins has its first row in a double cycle that is not in sync. Where the frames of correct nodes are on their way as
/// long as they may, and microticks last so, it does not break the sixth; and where no correct node joins it is lawful.
pub fn a_run_breaks_no_law()
    ensures others { RunsBreakNoOther }
    ensures proper { ProperRunsBreakNoOther }
    ensures lawful { ProperRunsAreLawful }
{}

/// A law: the trace of a run, whoever joins, whose clocks, arbitrary nodes, said frames and joining nodes keep what files
/// ask of them, is a trace that fits its cluster; and the text that is written of it is accepted as a trace file, and
/// stands for it and for no other.
pub fn a_run_is_read_back()
    ensures fit { RunsFit }
    ensures read { RunsAreReadBack }
{}

/// A law: the run of a drift and of a script that fit the parameters of a cluster keeps what is asked of it there, whoever
/// joins; so the text of its trace is accepted as a trace file, and stands for that trace and for no other.
pub fn files_are_read_back()
    ensures ranges { FilesKeepRanges }
    ensures alone { FilesThatNoneJoins }
    ensures read { RunsOfFilesAreReadBack }
{}

/// A law: the trace of all cycles of a covered run, whoever joins, breaks no law and has no gap: its delays and microticks
/// keep within their bounds, each node that joins has its first row in a double cycle in sync where an earlier one is, and
/// from the first double cycle on that is in sync by the trace each node has a deviation of each other sender.
pub fn a_covered_run_passes()
    ensures arrivals { CoveredRunsKeepArrivals }
    ensures passes { CoveredRunsPass }
{}

/// A law: a verdict on the trace of a run tells the greatest skew of the run, with its first place. Of a covered run
/// that has a double cycle in sync in which none follows it tells the first one of the run, from the first such one on,
/// in which none may follow by what the trace tells, or none where one may in each of these; of a covered run that has
/// none it tells none. Where no node joins it tells the first one in sync of the run itself, or none where there is
/// none, covered or not.
pub fn a_verdict_tells_of_the_run()
    ensures greatest { VerdictsTellGreatest }
    ensures synced { VerdictsTellSync }
    ensures alone { VerdictsTellSyncAlone }
{}
