ghost use Rattle.fr_sharp.specs.SharpFiles.{ArbitraryIsTold, CoveredFilesKeepSharply, FilesAreSteady, FilesFlutter, FilesGiveSteadyRuns, FilesSettleSharply, SyncLastsOn};
ghost use Rattle.fr_sharp.specs.SharpStatement.{FilesKeepSharpPrecision};
ghost use Rattle.fr_precision.specs.SharpChecks.{FirstCheckLastsOn};

use crate::held::held_walks_keep_sharp_sync;

/// The promise: the run that three accepted files decide, where they are sharply covered, keeps the sharper precision
/// from each double cycle in sharp sync on, for as many double cycles as the rate limit holds the walk, and to the end
/// of the run where the first of the sharper checks holds or the walk is held: no corresponding macroticks lie further
/// apart, in ticks, no term is cut or missing, and every correct node is active.
pub fn files_keep_sharp_precision()
    ensures { FilesKeepSharpPrecision }
{
    held_walks_keep_sharp_sync();
}

/// A law: so it is of any sane parameters, drift and script that are sharply covered. Walks last without a number
/// exactly where the first of the sharper checks holds, and sharp sync exactly where it holds or the walk is held.
pub fn covered_files_keep_sharply()
    ensures keep { CoveredFilesKeepSharply }
    ensures lasts { FirstCheckLastsOn }
    ensures lasting { SyncLastsOn }
{
    held_walks_keep_sharp_sync();
}

/// A law: where sane parameters, a drift and a script have no gap but of the checks, the run is a steady one for any flutter,
/// in ticks, that is not below its own; it has no arbitrary sync node where the script has none. Its delays flutter by no
/// more than a number exactly where its own flutter is no more.
pub fn files_are_steady()
    ensures flutter { FilesFlutter }
    ensures setting { FilesAreSteady }
    ensures arbitrary { ArbitraryIsTold }
    ensures run { FilesGiveSteadyRuns }
{}

/// A law of files: where no check for the way fails that is computed from numbers within which the starts and first lengths
/// of a run lie, in ticks, the run that sane parameters, a drift and a script decide, without a gap but of the checks and
/// joined by no node, comes into sharp sync in the double cycle that the way names, and no macroticks before lie further
/// apart than its peak.
pub fn files_settle_sharply()
    ensures { FilesSettleSharply }
{}
