ghost use Rattle.fr_sharp.specs.JoinedFiles.{CoveredFilesKeepSharplyJoined, JoinedFilesKeepSharpPrecision};
ghost use Rattle.fr_sharp.specs.JoinedLossStatement.{CoveredFilesKeepJoinedThroughLosses, JoinedFilesKeepThroughLosses, LossyFilesGiveJoinedRuns};

use crate::losing::joined_histories_keep_through_losses;
use fr_promise::heard_numbers;

/// The promise of the files of a run that nodes join: where they are sharply covered to join, each double cycle from one
/// in sharp sync on in which no node follows is in sharp sync, no corresponding macroticks lie further apart than the
/// sharper precision, in ticks, and no term is cut, of a node that takes part or of one that follows; to the end of the
/// run under the first of the sharper checks, and else for as long as the rate limit holds the walk and suffices for
/// first rates. Where that is to the end of the run, whoever listens in a double cycle from there on takes part from the
/// third one behind it on.
pub fn joined_files_keep_sharp_precision()
    ensures { JoinedFilesKeepSharpPrecision }
{}

/// A law: so it is of any sane parameters, and of a drift and a script that fit them, that are sharply covered to join.
pub fn covered_files_keep_sharply_joined()
    ensures { CoveredFilesKeepSharplyJoined }
{}

/// The promise of the files of a run that nodes join and that loses frames: where they are covered to join through losses,
/// from each double cycle in sharp sync on in which no node follows, nodes with rows keep to the numbers by what was heard
/// since, in ticks, no term of them or of those that follow is cut or missing, no follower is left behind, and whoever
/// listens in a double cycle in which its reference's frames come to it takes part from the third one behind it on, for as
/// long as the rate limit holds the walk and suffices for first rates.
pub fn joined_files_keep_through_losses()
    ensures keep { JoinedFilesKeepThroughLosses }
    ensures covered { CoveredFilesKeepJoinedThroughLosses }
    ensures runs { LossyFilesGiveJoinedRuns }
{
    joined_histories_keep_through_losses();
    heard_numbers();
}
