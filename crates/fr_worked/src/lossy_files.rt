ghost use Rattle.fr_worked.specs.WorkedLosses.{CrossingFilesAreCovered, CrossingFilesKeep, LosingFilesAreCovered, LosingFilesKeep};

use fr_promise::heard_numbers;
use fr_sharp::histories_keep_through_losses;

/// A law: a script by which every frame of a cycle is lost, with a drift whose delays flutter by 250 ticks, is covered
/// through losses; the run is in sharp sync from the start on and keeps to the numbers, in ticks, in the double cycle that
/// loses the frames and in the one behind it.
pub fn files_that_lose_frames()
    ensures covered { LosingFilesAreCovered }
    ensures keeps { LosingFilesKeep }
{
    histories_keep_through_losses();
    heard_numbers();
}

/// A law: by a script by which every frame of an odd cycle and of the even one behind it is lost the run is covered through
/// losses as well. Both its double cycles are poor of rates and only the first of offsets, so it keeps to the numbers, in
/// ticks, of the loss of the odd cycle alone.
pub fn files_that_lose_a_crossing_burst()
    ensures covered { CrossingFilesAreCovered }
    ensures keeps { CrossingFilesKeep }
{
    histories_keep_through_losses();
    heard_numbers();
}
