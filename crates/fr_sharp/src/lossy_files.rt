ghost use Rattle.fr_sharp.specs.LossStatement.{CoveredFilesAreAwake, CoveredFilesKeepThroughLosses, FilesKeepThroughLosses, LossyFilesGiveRuns};

use crate::losing::histories_keep_through_losses;
use fr_promise::heard_numbers;

/// The promise where frames are lost: the run that three accepted files decide, where they are covered through losses,
/// keeps from each double cycle in sharp sync on in which no node lacks values to the numbers by what was heard since, in
/// ticks, whatever frames are lost wherever and however many: no term is cut, none is missing but where a node has no value
/// of its kind, and every correct node is active.
pub fn files_keep_through_losses()
    ensures { FilesKeepThroughLosses }
{
    histories_keep_through_losses();
    heard_numbers();
}

/// A law: so it is of any sane parameters, drift and script; they give a run as the law of losses asks for, and in the first
/// double cycle from which they are covered no node lacks values.
pub fn lossy_files_give_runs()
    ensures keep { CoveredFilesKeepThroughLosses }
    ensures runs { LossyFilesGiveRuns }
    ensures awake { CoveredFilesAreAwake }
{
    histories_keep_through_losses();
    heard_numbers();
}
