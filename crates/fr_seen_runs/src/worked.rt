ghost use Rattle.std.specs.Prelude.{None, Some, false, true};
ghost use Rattle.fr_log.specs.Files.{IsLogFile};
ghost use Rattle.fr_seen_runs.specs.WorkedFaults.{IsSeenOfNoneStated, IsSeenOfNone, IsSeenOfNoneWithOwnSlots, IsSeenOfWorkedRun, TellsFault, correction_told, form_entry, form_told, last_log, late_log, offset_told, stranger_entry, stranger_told};
ghost use Rattle.fr_seen_runs.specs.WorkedFile.{seen_file};
ghost use Rattle.fr_seen_runs.specs.WorkedJudged.{IsSeenOfNoneAsStated, JudgedLog, JudgedOffsetIsTold, JudgedRun, LostLog, MissedLog};
ghost use Rattle.fr_seen_runs.specs.WorkedLog.{WorkedLog, seen_cluster, seen_log};

use crate::verdicts::no_run_is_contradicted;
use fr_history::one_lawful_run;

/// A law: the file of a log of eight frames, stamped in whole nanoseconds, is accepted, and its log is seen of the cycles
/// of a run of two nodes over two double cycles; so what the laws ask of a log and of a run that it is seen of can be met.
/// The run is as the log states: nothing, or that it is in sync in cycle 0 and no frame was missed.
/// Each whole frame in the slot of a node is one that the node sends there. The verdict is within, in cycles 0 to 2.
pub fn a_worked_log()
    ensures file { IsLogFile seen_cluster (seen_log None false) seen_file }
    ensures plain { WorkedLog None false }
    ensures stated { WorkedLog (Some 0) true }
{
    one_lawful_run();
}

/// A law: where from cycle 2 on the frames of node 2 come 250 ns later, the verdict of that log is no, by the offset term
/// of node 2, and the log is seen of no run of this cluster that is as it states; where they come 7,500 ns later,
/// the term is beyond its limit, and the log is seen of no run of this cluster at all whose oscillators keep within what
/// is stated. Where the last frame of node 2 comes on channel B, or lacks the indicators of sync and startup, the verdict
/// is no, by this frame, and the log is seen of no such run in which each whole frame in the slot of a node is one that
/// the node sends there.
pub fn worked_contradictions()
    ensures offset { TellsFault (late_log 250) offset_told }
    ensures of_none_stated { IsSeenOfNoneStated (late_log 250) }
    ensures correction { TellsFault (late_log 7_500) correction_told }
    ensures of_none { IsSeenOfNone (late_log 7_500) }
    ensures stranger { TellsFault (last_log stranger_entry) stranger_told }
    ensures stranger_of_none { IsSeenOfNoneWithOwnSlots (last_log stranger_entry) }
    ensures form { TellsFault (last_log form_entry) form_told }
    ensures form_of_none { IsSeenOfNoneWithOwnSlots (last_log form_entry) }
{
    no_run_is_contradicted();
}

/// A law: without that, these two frames contradict nothing. Both logs are seen of the worked run: what stands in the slot
/// of node 2 there is a frame of another sender.
pub fn worked_strangers()
    ensures stranger { IsSeenOfWorkedRun (last_log stranger_entry) }
    ensures form { IsSeenOfWorkedRun (last_log form_entry) }
{
    one_lawful_run();
}

/// A law: the same log, read of a cluster whose offset limit is 20 microticks, so that a classical check fails. Both of its
/// double cycles are judged by their own numbers, and the verdict is within, in cycles 0 to 2. The log is seen of a run of
/// this cluster that is as it states: so what is asked of such runs can be met. Without the frame of node 1 in cycle 2, the
/// second double cycle is judged by what is known of it from the first, and the verdict is partly: within in one cycle. If
/// the frames of node 2 come 250 ns later from cycle 2 on, the verdict is no, by its offset term, and a row says that no
/// number of senders that it missed explains that. That log is seen of no such run. Where it says that a node may miss a
/// sender, less is known of the term, and the verdict is no still.
pub fn worked_judged_contradictions()
    ensures plain { JudgedLog }
    ensures run { JudgedRun }
    ensures missed { MissedLog }
    ensures offset { JudgedOffsetIsTold }
    ensures lost { LostLog }
    ensures of_none { IsSeenOfNoneAsStated (late_log 250) }
{
    one_lawful_run();
    no_run_is_contradicted();
}
