ghost use Rattle.fr_whole.specs.Way.{FilesSettle, RunsSettle};

/// The law of settling: a lawful run that is covered as the headline covers it, that no node joins, and that begins no
/// further apart than is stated, for which the checks for the way hold, is in sync in the double cycle that is computed,
/// and no macrotick up to the end of that lies further apart than the peak, in ticks (sections 8.2 and 8.6).
pub fn runs_settle()
    ensures { RunsSettle }
{}

/// A law: so is the run of files that have no gap and let no correct node join, and the first double cycle in sync, which
/// the report of the run tells, is no later.
pub fn files_settle()
    ensures { FilesSettle }
{}
