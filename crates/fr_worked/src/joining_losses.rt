ghost use Rattle.fr_history.specs.Cycles.{Cycles};
ghost use Rattle.fr_promise.specs.Statement.{IsRunOf};
ghost use Rattle.fr_worked.specs.JoiningLosses.{JoiningFilesKeep, JoiningFilesLose, joining_files};
ghost use Rattle.fr_worked.specs.RunFiles.{run_of_files};

use fr_history::one_lawful_run;
use fr_sharp::joined_files_keep_through_losses;

/// A law: the promise of runs that nodes join and that lose frames is not empty. Files by which almost every frame of a
/// cycle is lost while node 5 follows, and the first frames of node 5 when it takes part, are covered to join through losses;
/// their run is in sharp sync in its first double cycle, and keeps from there on to the numbers by what is heard, in ticks;
/// and node 5, which listens there, takes part from cycle 6 on.
pub fn joining_files_lose_frames()
    ensures covered { JoiningFilesLose }
    ensures keeps { (h : Cycles) → IsRunOf (run_of_files joining_files) h → JoiningFilesKeep h }
{
    one_lawful_run();
    joined_files_keep_through_losses();
}
