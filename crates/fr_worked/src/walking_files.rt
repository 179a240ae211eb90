ghost use Rattle.fr_worked.specs.WalkingFiles.{KeepThoughLengthsWalk, KeepWhileFirstRatesLast, KeepWhileTheWalkLasts};
ghost use Rattle.fr_worked.specs.WalkingFiles.{changing_files, walking_files, walking_joined_files};

use fr_history::one_lawful_run;
use fr_promise::joined_histories_keep_sharp_sync;
use fr_sharp::{files_keep_sharp_precision, joined_files_keep_sharp_precision};

/// A law: the sharper promise has an end where it says so, and none where it says none. Three runs of twelve double
/// cycles at a damping of 1 microtick are sharply covered and begin in sharp sync, while the first of the sharper
/// checks fails. Where delays flutter by 400,000 ticks and no node joins, the rate limit alone would hold the walk of
/// lengths for 9 double cycles; but the walk is held, and the run keeps the sharper precision to its end. Where
/// delays flutter by 200,000 ticks and oscillators may change, sharp sync lasts for 6, though lengths walk by less
/// than two thirds of a microtick; and where node 5 joins the first run, first rates last for 7. So long these two
/// keep the sharper precision, in the last of these double cycles too.
pub fn walking_files_keep_while_it_lasts()
    ensures held { KeepThoughLengthsWalk walking_files 400_000 9 }
    ensures alone { KeepWhileTheWalkLasts changing_files 200_000 6 }
    ensures joined { KeepWhileFirstRatesLast walking_joined_files 400_000 7 5 (record { double = 0; reference = 1 }) }
{
    one_lawful_run();
    files_keep_sharp_precision();
    joined_files_keep_sharp_precision();
    joined_histories_keep_sharp_sync();
}
