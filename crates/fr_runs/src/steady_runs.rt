ghost use Rattle.fr_runs.specs.SteadyRuns.{CoveredRunsAreSteady, RowsAreSharpDoubles, RowsHearSteadily, SteadyRunsAreLater, TimedRunsAreLater};

/// The law of hearing in a run: in a lawful run whose delays flutter little, each node that has a row in a double cycle,
/// whoever follows in it and whoever joins, has its deviations of every other sender among them, and those of one channel are a steady pair
/// (section 8.5), where action points lie within a reach, in ticks, for which the offset limit suffices and slots leave
/// room. So the double cycle is one as the sharper step asks for. It is so of a double cycle from which on this is
/// stated, whatever was before it. A run that is covered in the older sense is such a one.
pub fn runs_hear_steadily()
    ensures covered { CoveredRunsAreSteady }
    ensures timed { TimedRunsAreLater }
    ensures steady { SteadyRunsAreLater }
    ensures hear { RowsHearSteadily }
    ensures double { RowsAreSharpDoubles }
{}
