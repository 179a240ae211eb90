ghost use Rattle.fr_seen_runs.specs.InTime.{JudgedIsNear, NearIsTimely, NoNearRunIsContradicted};
ghost use Rattle.fr_seen_runs.specs.WorkedReading.{WorkedReading};

use fr_history::one_lawful_run;

/// The law of time: where a log is read of a run whose nodes start near each other, no further apart than the offset limit
/// at the shortest microtick in ticks, from a double cycle on that none of its frames is before, by a clock that keeps its
/// drift, and the numbers of the cluster and of the log suffice, its frames come in time: it is seen of the run. No check
/// of the cluster need hold, no node need be in sync, and nodes may join.
pub fn near_is_timely()
    ensures { NearIsTimely }
{}

/// A law: the nodes of a run start so near each other in each double cycle that is judged by what is known of it.
pub fn judged_is_near()
    ensures { JudgedIsNear }
{}

/// A law: so where the verdict of such a log is no, whatever the kind of its fault, it is read of no such run that is as
/// the log states; by a frame in the slot of a node that does not send it so, of none where each whole frame in the slot of
/// a node is one that the node sends.
pub fn no_near_run_is_contradicted()
    ensures { NoNearRunIsContradicted }
{}

/// A law: what these laws ask of a log and of a run can be met: the worked log is read so of its run.
pub fn a_worked_reading()
    ensures { WorkedReading }
{
    one_lawful_run();
}
