ghost use Rattle.std.specs.Prelude.{false, true};
ghost use Rattle.fr_worked.specs.RunFiles.{JoinsInTime};
ghost use Rattle.fr_worked.specs.SharplyJoinedFiles.{KeepSharplyFromTheStart, alone_files, beside_files};

use fr_history::one_lawful_run;
use fr_sharp::joined_files_keep_sharp_precision;

/// A law: the sharper promise of runs that nodes join is not empty. Two files whose delays flutter by 250 ticks, with a check
/// of nodes that join that fails by the older bounds, are sharply covered to join; their run is in sharp sync in its first
/// double cycle, so it keeps the sharper precision to its end, and node 5, which listens there, takes part from cycle 6 on.
/// So it is of such files without an arbitrary node, and beside one that says to each receiver something else.
pub fn joined_files_keep_their_sharper_precision()
    ensures alone { KeepSharplyFromTheStart false alone_files 250 }
    ensures alone_joins { JoinsInTime alone_files 5 (record { double = 0; reference = 1 }) }
    ensures beside { KeepSharplyFromTheStart true beside_files 250 }
    ensures beside_joins { JoinsInTime beside_files 5 (record { double = 0; reference = 1 }) }
{
    one_lawful_run();
    joined_files_keep_sharp_precision();
}
