ghost use Rattle.std.specs.Prelude.{◌≡◌};
ghost use Rattle.fr_history.specs.Worked.{joined_run};
ghost use Rattle.fr_worked.specs.JoinedFiles.{joined_files, uneven_files};
ghost use Rattle.fr_worked.specs.RunFiles.{KeepFromTheStart, JoinsInTime, run_of_files};
ghost use Rattle.fr_worked.specs.TracedFiles.{AreTraced};

use fr_history::one_lawful_run;
use fr_promise::covered_files_are_stated;
use fr_verdict::{a_covered_run_passes, files_are_read_back};

/// A law: the promise of a run that nodes join is not empty. A drift file and a script that are accepted and have no
/// gap decide the run of three nodes with nominal clocks, over six double cycles, that node 3 joins. It is in sync in
/// its first double cycle, in which none follows, so it keeps its precision from there on; and node 3 listens to node 1
/// in double cycle 1, and takes part from cycle 8 on.
pub fn joined_files_keep_their_precision()
    ensures decided { run_of_files joined_files ≡ joined_run }
    ensures keep { KeepFromTheStart joined_files }
    ensures joins { JoinsInTime joined_files 3 (record { double = 1; reference = 1 }) }
{
    one_lawful_run();
}

/// A law: so it is of files of six nodes on two channels, over five double cycles, with uneven clocks, delays that are
/// not the nominal ones, one frame that is lost and one that comes with a bit inverted, and an arbitrary node that
/// tells each of nodes 1, 2 and 3 something different. Of the two nodes that join, node 5 listens to node 1 in double
/// cycle 0 and takes part from cycle 6 on; node 6, on channel B alone, listens to node 2 in double cycle 1 and takes
/// part from cycle 8 on.
pub fn uneven_files_keep_their_precision()
    ensures keep { KeepFromTheStart uneven_files }
    ensures joins_5 { JoinsInTime uneven_files 5 (record { double = 0; reference = 1 }) }
    ensures joins_6 { JoinsInTime uneven_files 6 (record { double = 1; reference = 2 }) }
{
    one_lawful_run();
}

/// A law: the runs of both meet what is asked of one whose trace is read back and is lawful: ranges, delays and
/// microticks. So the texts of their traces are read back, and the traces break no law and have no gap.
pub fn joined_files_are_traced()
    ensures joined { AreTraced joined_files }
    ensures uneven { AreTraced uneven_files }
{
    covered_files_are_stated();
    files_are_read_back();
    a_covered_run_passes();
    joined_files_keep_their_precision();
    uneven_files_keep_their_precision();
}
