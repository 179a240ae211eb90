ghost use Rattle.fr_worked.specs.ReachedRun.{ReachesAlone, ReachesBeside};

use fr_history::one_lawful_run;

/// A law: the sharper precision is tight where sharp sync begins. Runs of one double cycle in sharp sync, whose clocks begin
/// as far apart as that takes them, reach 96 hundredths of it without an arbitrary node, and 98 beside one, whatever that
/// says, at the macrotick at which the offset correction starts.
pub fn the_sharper_precision_is_reached()
    ensures alone { ReachesAlone }
    ensures beside { ReachesBeside }
{
    one_lawful_run();
}
