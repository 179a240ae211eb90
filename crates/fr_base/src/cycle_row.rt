ghost use Rattle.std.specs.Prelude.{◌≡◌, ◌+◌, ℕ};

use crate::{DevList, RowList};

/// What happened to the frames of one cycle: those that correct active nodes sent, and what the receivers
/// answered to what was offered to them.
#[derive(Clone, Copy, Debug, PartialEq, Eq)]
pub struct Counts {
    /// Frames sent on channel A.
    pub sent_a: u64,
    /// Frames sent on channel B.
    pub sent_b: u64,
    /// The sum without carry of the frame CRCs as sent on channel A.
    pub xor_a: u32,
    /// The same on channel B.
    pub xor_b: u32,
    /// Sync frames that were accepted, with their deviation stored.
    pub stored: u64,
    /// Frames that arrived outside of their slot.
    pub outside: u64,
    /// Bytes that were no frame.
    pub damaged: u64,
    /// Frames with the ID of another slot.
    pub wrong_id: u64,
    /// Frames with the count of another cycle.
    pub wrong_cycle: u64,
    /// Frames with another payload length than the cluster's.
    pub wrong_length: u64,
    /// Frames that are no sync frames, or that came in a slot that is no key slot.
    pub plain: u64,
}

impl Counts {
    ghost use Rattle.fr_base.specs.Counts.{AreAtMost, no_counts, sum_of};

    /// Nothing counted.
    pub fn none() -> Counts
        ensures { result ≡ no_counts }
    {
        Counts {
            sent_a: 0,
            sent_b: 0,
            xor_a: 0,
            xor_b: 0,
            stored: 0,
            outside: 0,
            damaged: 0,
            wrong_id: 0,
            wrong_cycle: 0,
            wrong_length: 0,
            plain: 0,
        }
    }

    /// The counts of some cycles and of one more.
    pub fn plus(&self, counts: &Counts) -> Counts
        requires sums { AreAtMost 1_000_000_000_000_000_000 self.now }
        requires counts { AreAtMost 1_000_000_000_000_000_000 counts.now }
        ensures value { result ≡ sum_of self.now counts.now }
        ensures most { (n m : ℕ) → AreAtMost n self.now → AreAtMost m counts.now → AreAtMost (n + m) result }
    {
        Counts {
            sent_a: self.sent_a + counts.sent_a,
            sent_b: self.sent_b + counts.sent_b,
            xor_a: self.xor_a ^ counts.xor_a,
            xor_b: self.xor_b ^ counts.xor_b,
            stored: self.stored + counts.stored,
            outside: self.outside + counts.outside,
            damaged: self.damaged + counts.damaged,
            wrong_id: self.wrong_id + counts.wrong_id,
            wrong_cycle: self.wrong_cycle + counts.wrong_cycle,
            wrong_length: self.wrong_length + counts.wrong_length,
            plain: self.plain + counts.plain,
        }
    }
}

/// The record of one cycle of a cluster.
#[derive(Debug, Drop)]
pub struct CycleRow {
    /// The number of the cycle, from 0.
    pub cycle: u32,
    /// A row for each node that has a clock, in ascending order of node.
    pub rows: RowList,
    /// The deviations that were stored, in ascending order of receiver, slot and channel.
    pub devs: DevList,
    /// What became of the frames.
    pub counts: Counts,
}
