ghost use Rattle.fr_worked.specs.WorkedFiles.{FlutteringFilesAreCovered, FlutteringFilesKeepSharply, JoiningFilesAreCovered};
ghost use Rattle.fr_sharp.specs.WorkedRun.{OlderChecksFail, SteadyPrecisions, SteadyRunKeepsPrecision, SteadyRunMeetsPremises, WalkingRunStaysInSharpSync};

use fr_history::one_lawful_run;
use fr_sharp::covered_files_keep_sharply;

/// A law: a worked run, three of whose older checks fail, is in sharp sync from the start on and keeps the sharper
/// precision, in ticks, without an arbitrary node and beside one, whatever that says. It meets all that the laws of
/// histories ask for. Another one, whose delays flutter so that lengths may walk, stays in sharp sync too.
pub fn a_steady_run()
    ensures older { OlderChecksFail }
    ensures keeps { SteadyRunKeepsPrecision }
    ensures meets { SteadyRunMeetsPremises }
    ensures precisions { SteadyPrecisions }
    ensures walks { WalkingRunStaysInSharpSync }
{
    one_lawful_run();
}

/// A law: a drift whose delays flutter by 250 ticks, with a script that names node 4 arbitrary or none, is sharply covered; the
/// run is in sharp sync from the start on and keeps the sharper precision to the end. With one by which node 4 joins it is
/// sharply covered to join.
pub fn files_that_flutter()
    ensures covered { FlutteringFilesAreCovered }
    ensures keeps { FlutteringFilesKeepSharply }
    ensures joins { JoiningFilesAreCovered }
{
    covered_files_keep_sharply();
}
