use fr_base::{Channel, NodeId, Slot};

/// A frame of a log that says where its sender's clock was; or an offending one, which does not come in time or is irregular.
#[derive(Clone, Copy, Debug, PartialEq, Eq)]
pub struct Sighting {
    /// The number of its cycle in the log, 0 to 199,999; of an offending frame that of the sighting before it.
    pub number: u32,
    /// The node that sent it; of an irregular frame the one whose slot it is in.
    pub node: NodeId,
    /// Its slot: of a sighting the node's key slot.
    pub slot: Slot,
    /// The channel on which it came.
    pub channel: Channel,
    /// Its cycle count, 0 to 63; of an offending frame it need not be that of its number.
    pub count: u8,
    /// Its stamp, in units of the log.
    pub stamp: u64,
}

/// What becomes of an entry of a log.
#[derive(Clone, Copy, Debug, PartialEq, Eq)]
pub enum Fate {
    /// Its bytes are no frame, or not the header of one.
    Damaged,
    /// It is in the slot of a node that the log names arbitrary.
    Arbitrary,
    /// It tells nothing of a clock: in a dynamic or an unused slot, a frame of a further slot, or, before the
    /// first sighting, one that its sender does not send.
    Other,
    /// It is in the slot of a node that does not send it: on a channel that the node does not have, or of another form than
    /// the node's frames in that slot; with the number of the sighting before it.
    Irregular(Sighting),
    /// It comes at another time than its cycle count says; with the number of the sighting before it.
    Untimely(Sighting),
    /// It comes in time, and is of a double cycle that is past, or has a number that no cycle has.
    Stray,
    /// It comes behind a silence that is too long for cycles to be numbered over it.
    Behind,
    /// It says where its sender's clock was.
    Seen(Sighting),
}

/// How many entries of a log have each fate.
#[derive(Clone, Copy, Debug, PartialEq, Eq)]
pub struct Tally {
    /// Those that are sightings.
    pub judged: u64,
    pub damaged: u64,
    pub arbitrary: u64,
    /// Those that tell nothing of a clock, and irregular ones.
    pub other: u64,
    /// Those that come at another time than their cycle count says, that are of a double cycle that is past, or that have
    /// a number that no cycle has.
    pub stray: u64,
    pub behind: u64,
}
