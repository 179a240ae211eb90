ghost use Rattle.fr_seen_runs.specs.NotContradicted.{OwnFaultsAreNone, SlotFaultsAreNone};

/// A law: in no double cycle of a log that is seen of a run, in sync or not, is there a fault that contradicts any run.
pub fn own_faults_are_none()
    ensures { OwnFaultsAreNone }
{}

/// A law: nor is there one of an irregular frame in a log where each whole frame in the slot of a node that the log does
/// not name arbitrary is one that the node sends there in some cycle of the run.
pub fn slot_faults_are_none()
    ensures { SlotFaultsAreNone }
{}
