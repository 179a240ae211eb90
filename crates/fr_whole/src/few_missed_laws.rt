ghost use Rattle.fr_whole.specs.FewMissed.{FewMissedKeepThePeak, FewMissedMeet, MeetingCostsNoMore, OneMoreMayPart};

use fr_promise::heard_numbers;
use fr_sharp::histories_keep_through_losses;

/// A law: where each node misses the frames of no more than so many other sync nodes in a double cycle, and none is damaged,
/// lists meet without arbitrary sync nodes, whichever these are. With one more there are some with which by the count they
/// do not, of two sync nodes or more, if any two nodes have a channel in common.
pub fn few_missed_meet()
    ensures meet { FewMissedMeet }
    ensures part { OneMoreMayPart }
{}

/// The promise where each node misses so few in each double cycle, for ever: no macroticks lie further apart, in ticks, than
/// beside arbitrary sync nodes where all is heard, and no action points. So a run of files that are covered through losses
/// with that reach, without arbitrary sync nodes, keeps within that, from each double cycle in sharp sync on and as long as
/// the walk lasts. Each node has values in all of these: no term is cut or missing, and every correct node is active.
pub fn few_missed_keep_the_peak()
    ensures cost { MeetingCostsNoMore }
    ensures keep { FewMissedKeepThePeak }
{
    histories_keep_through_losses();
    heard_numbers();
}
