ghost use Rattle.std.specs.Prelude.{◌≡◌, ◌≤◌, length};
ghost use Rattle.fr_base.specs.Within.{IsWithin};
ghost use Rattle.fr_course.specs.Near.{EndWithin};
ghost use Rattle.fr_text.specs.Pieces.{Spells};
ghost use Rattle.fr_observe.specs.Faults.{AreSpelt, against_fields, fault_cycle, fault_node, fault_row, fault_word, range_fields, range_of, seen_fields, stamp_fields};
ghost use Rattle.fr_observe.specs.Observing.{known_count};
ghost use Rattle.fr_observe.specs.Ranges.{greatest_printed};

use crate::rows::known;
use crate::term::Term;
use fr_base::{Channel, NodeId, Slot};
use fr_course::Interval;
use fr_text::Piece::{Natural, Signed, Word};
use fr_text::{Line, Piece, letter_of, row_of};

/// From one number to another, as they are printed.
#[derive(Clone, Copy, Debug, PartialEq, Eq)]
pub struct Range {
    pub low: i64,
    pub high: i64,
}

impl Range {
    // Between the limits of what was seen or computed.
    pub(crate) fn of(limits: &Interval) -> Range
        requires { EndWithin greatest_printed limits.now }
        ensures { result ≡ range_of limits.now }
    {
        Range {
            low: printed(limits.low),
            high: printed(limits.high),
        }
    }
}

// A number that is printed.
fn printed(number: i128) -> i64
    requires { IsWithin greatest_printed number }
    ensures { result ≡ number }
{
    number as i64
}

/// A contradiction in a log: what was seen has no number in common with what the rules and the statements about cluster and
/// observer allow. The first five contradict that the log is seen of any lawful run whose oscillators keep within their bounds
/// (`Cycle` that its frames come in time, which that asks for), and the next two that each whole frame in the slot of a node is
/// one that the node sends; the others contradict runs that are as the log states.
#[derive(Clone, Copy, Debug, PartialEq, Eq)]
pub enum Fault {
    /// By the frames of both channels an action point lies nowhere.
    Channels {
        /// The number of its cycle in the log.
        cycle: u32,
        /// The node whose action point it is.
        node: NodeId,
        /// It was seen from a greater to a lesser number, in ticks of the observer's clock.
        point: Range,
    },
    /// Both action points of a double cycle lie so far apart as no cycle is long.
    Limit {
        /// The number of the even cycle in the log.
        cycle: u32,
        /// The node whose action points they are.
        node: NodeId,
        /// So far they lie apart, in ticks of the observer's clock.
        apart: Range,
        /// So long are cycles before correction, in ticks of the observer's clock.
        allowed: Range,
    },
    /// An offset term is none that the limits allow.
    Correction {
        /// The number of its cycle in the log.
        cycle: u32,
        /// The node that applied it.
        node: NodeId,
        /// The term, in microticks.
        term: Range,
        /// What the limits allow, in microticks.
        allowed: Range,
    },
    /// A frame is there twice.
    Twice {
        /// The number of its cycle in the log.
        cycle: u32,
        /// The node that sent it.
        node: NodeId,
        /// The channel on which it came.
        channel: Channel,
        /// Its stamp, in units of the log.
        stamp: i64,
        /// The stamp of the first one, in units of the log.
        first: i64,
    },
    /// A frame comes at another time than its cycle count says.
    Cycle {
        /// The number of the cycle of the sighting before it in the log.
        cycle: u32,
        /// The node that sent it.
        node: NodeId,
        /// The channel on which it came.
        channel: Channel,
        /// Its stamp, in units of the log.
        stamp: i64,
        /// Its cycle count.
        count: u8,
    },
    /// A frame is in a slot of a node on a channel that the node does not have.
    Stranger {
        /// The number of the cycle of the sighting before it in the log.
        cycle: u32,
        /// The node whose slot it is in.
        node: NodeId,
        /// The channel on which it came.
        channel: Channel,
        /// Its stamp, in units of the log.
        stamp: i64,
        /// Its slot.
        slot: Slot,
    },
    /// A frame is in a slot of a node, and its payload length or its sync or startup indicator is not that of the node's frames
    /// there.
    Form {
        /// The number of the cycle of the sighting before it in the log.
        cycle: u32,
        /// The node whose slot it is in.
        node: NodeId,
        /// The channel on which it came.
        channel: Channel,
        /// Its stamp, in units of the log.
        stamp: i64,
        /// Its slot.
        slot: Slot,
    },
    /// The skew is greater than the numbers of the double cycle allow.
    Skew {
        /// The number of its cycle in the log.
        cycle: u32,
        /// The skew at least, in ticks.
        low: i64,
        /// The skew at most, in ticks, where it is known.
        high: Option<i64>,
        /// The skew at most by the numbers of the double cycle, in ticks.
        most: i64,
    },
    /// Starts of even cycles lie further apart than by what is known of the double cycle.
    Start {
        /// The number of the even cycle in the log.
        cycle: u32,
        /// So far they lie apart, in ticks.
        apart: Range,
        /// So far at most by what is known, in ticks.
        most: i64,
    },
    /// Lengths of cycles before correction lie further apart than by what is known of the double cycle.
    Lengths {
        /// The number of the even cycle in the log.
        cycle: u32,
        /// So far they lie apart, in ticks.
        apart: Range,
        /// So far at most by what is known, in ticks.
        most: i64,
    },
    /// Cycles before correction are longer or shorter than by what is known of the double cycle.
    Length {
        /// The number of the even cycle in the log.
        cycle: u32,
        /// The node whose cycles they are.
        node: NodeId,
        /// So long they are, in ticks.
        length: Range,
        /// So long by what is known, in ticks.
        allowed: Range,
    },
    /// An offset term is none that its node must have computed by the rules.
    Offset {
        /// The number of its cycle in the log.
        cycle: u32,
        /// The node that applied it.
        node: NodeId,
        /// The term, in microticks.
        term: Range,
        /// What it is by the rules, in microticks.
        due: Range,
    },
    /// A rate term grew by no step that its node must have computed by the rules.
    Rate {
        /// The number of its cycle in the log.
        cycle: u32,
        /// The node that applied it.
        node: NodeId,
        /// The step, in microticks.
        step: Range,
        /// What it is by the rules, in microticks.
        due: Range,
    },
    /// No frame of a node's key slot is there.
    Missing {
        /// The number of its cycle in the log.
        cycle: u32,
        /// The node whose frame it is.
        node: NodeId,
        /// The channel on which it is missing.
        channel: Channel,
    },
}

impl Fault {
    /// The number of its cycle in the log.
    pub fn cycle(&self) -> u32
        ensures { result ≡ fault_cycle self.now }
    {
        match *self {
            Fault::Channels { cycle, .. } => cycle,
            Fault::Limit { cycle, .. } => cycle,
            Fault::Correction { cycle, .. } => cycle,
            Fault::Twice { cycle, .. } => cycle,
            Fault::Cycle { cycle, .. } => cycle,
            Fault::Stranger { cycle, .. } => cycle,
            Fault::Form { cycle, .. } => cycle,
            Fault::Skew { cycle, .. } => cycle,
            Fault::Start { cycle, .. } => cycle,
            Fault::Lengths { cycle, .. } => cycle,
            Fault::Length { cycle, .. } => cycle,
            Fault::Offset { cycle, .. } => cycle,
            Fault::Rate { cycle, .. } => cycle,
            Fault::Missing { cycle, .. } => cycle,
        }
    }

    /// The node, if it is of one.
    pub fn node(&self) -> Option<NodeId>
        ensures { result ≡ fault_node self.now }
    {
        match *self {
            Fault::Channels { node, .. } => Some(node),
            Fault::Limit { node, .. } => Some(node),
            Fault::Correction { node, .. } => Some(node),
            Fault::Twice { node, .. } => Some(node),
            Fault::Cycle { node, .. } => Some(node),
            Fault::Stranger { node, .. } => Some(node),
            Fault::Form { node, .. } => Some(node),
            Fault::Skew { .. } | Fault::Start { .. } | Fault::Lengths { .. } => None,
            Fault::Length { node, .. } => Some(node),
            Fault::Offset { node, .. } => Some(node),
            Fault::Rate { node, .. } => Some(node),
            Fault::Missing { node, .. } => Some(node),
        }
    }

    /// Its word in records.
    pub fn word(&self) -> &'static [u8]
        ensures text { result.now ≡ fault_word self.now }
        ensures short { length result.now ≤ 10 }
    {
        match *self {
            Fault::Channels { .. } => b"channels",
            Fault::Limit { .. } => b"limit",
            Fault::Correction { .. } => b"correction",
            Fault::Twice { .. } => b"twice",
            Fault::Cycle { .. } => b"cycle",
            Fault::Stranger { .. } => b"stranger",
            Fault::Form { .. } => b"form",
            Fault::Skew { .. } => b"skew",
            Fault::Start { .. } => b"start",
            Fault::Lengths { .. } => b"lengths",
            Fault::Length { .. } => b"length",
            Fault::Offset { .. } => Term::Offset.word(),
            Fault::Rate { .. } => Term::Rate.word(),
            Fault::Missing { .. } => b"missing",
        }
    }

    // What was seen, as fields of its row.
    fn seen(&self) -> [Piece<'static>; 2]
        ensures { AreSpelt result (seen_fields self.now) }
    {
        match *self {
            Fault::Channels { point, .. } => range_fields(&point),
            Fault::Limit { apart, .. } => range_fields(&apart),
            Fault::Correction { term, .. } => range_fields(&term),
            Fault::Twice { channel, stamp, .. } => stamp_fields(channel, stamp),
            Fault::Cycle { channel, stamp, .. } => stamp_fields(channel, stamp),
            Fault::Stranger { channel, stamp, .. } => stamp_fields(channel, stamp),
            Fault::Form { channel, stamp, .. } => stamp_fields(channel, stamp),
            Fault::Skew { low, high, .. } => [Signed(low), known(high)],
            Fault::Start { apart, .. } => range_fields(&apart),
            Fault::Lengths { apart, .. } => range_fields(&apart),
            Fault::Length { length, .. } => range_fields(&length),
            Fault::Offset { term, .. } => range_fields(&term),
            Fault::Rate { step, .. } => range_fields(&step),
            Fault::Missing { channel, .. } => [letter_of(channel), Word(b"-")],
        }
    }

    // What it is held against.
    fn against(&self) -> [Piece<'static>; 2]
        ensures { AreSpelt result (against_fields self.now) }
    {
        match *self {
            Fault::Channels { .. } => [Word(b"-"), Word(b"-")],
            Fault::Limit { allowed, .. } => range_fields(&allowed),
            Fault::Correction { allowed, .. } => range_fields(&allowed),
            Fault::Twice { first, .. } => [Signed(first), Word(b"-")],
            Fault::Cycle { count, .. } => [Natural(u64::from(count)), Word(b"-")],
            Fault::Stranger { slot, .. } => [Natural(u64::from(slot.0)), Word(b"-")],
            Fault::Form { slot, .. } => [Natural(u64::from(slot.0)), Word(b"-")],
            Fault::Skew { most, .. } => [Word(b"-"), Signed(most)],
            Fault::Start { most, .. } => [Word(b"-"), Signed(most)],
            Fault::Lengths { most, .. } => [Word(b"-"), Signed(most)],
            Fault::Length { allowed, .. } => range_fields(&allowed),
            Fault::Offset { due, .. } => range_fields(&due),
            Fault::Rate { due, .. } => range_fields(&due),
            Fault::Missing { .. } => [Word(b"-"), Word(b"-")],
        }
    }
}

fn range_fields(range: &Range) -> [Piece<'static>; 2]
    ensures { AreSpelt result (range_fields range.now) }
{
    [Signed(range.low), Signed(range.high)]
}

// A frame by its channel and stamp.
fn stamp_fields(channel: Channel, stamp: i64) -> [Piece<'static>; 2]
    ensures { AreSpelt result (stamp_fields channel stamp) }
{
    [letter_of(channel), Signed(stamp)]
}

/// The cycles of a log from the first sighting to the last.
#[derive(Clone, Copy, Debug, PartialEq, Eq)]
pub struct LogSpan {
    /// The number of the cycle of the first sighting.
    pub first: u32,
    /// That of the last one.
    pub last: u32,
}

/// The node of a contradiction as a field of a record, if it is of one.
pub fn known_node(node: Option<NodeId>) -> Piece<'static>
    ensures { Spells result (known_count node) 20 }
{
    match node {
        None => Word(b"-"),
        Some(node) => Natural(u64::from(node.0)),
    }
}

// A contradiction as a record.
#[tactic(auto, unfolding(crate::specs::Faults::fault_row))]
pub(crate) fn fault_row(fault: &Fault) -> Line
    ensures { result ≡ fault_row fault.now }
{
    let [first, second] = fault.seen();
    let [third, last] = fault.against();
    row_of(
        b"fault",
        &[
            Natural(u64::from(fault.cycle())),
            known_node(fault.node()),
            Word(fault.word()),
            first,
            second,
            third,
            last,
        ],
    )
}
