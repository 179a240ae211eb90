ghost use Rattle.std.specs.Prelude.{◌≡◌, ◌≤◌, length, IfOk, IfSome};
ghost use Rattle.fr_text.specs.Plain.{fields_of};
ghost use Rattle.fr_log.specs.Numbers.{greatest_number, head_number_of, head_place, least_number, most_head_ticks};
ghost use Rattle.fr_log.specs.Rows.{AreEntryBytes, IsProperLogRow, each_row, entry_bytes_in, entry_row, limits_in, link_row, log_fields, log_delay_row, log_file_row, log_node_row, log_row_of, most_delay, number_row, other_row, whole_row};

use crate::entry::{EntryBytes, EntryKind};
use crate::fields::Fields;
use fr_base::{Channel, NodeId, NumberFault, Reason};
use fr_text::{Record, both, hex_digits, natural, reason_of};
use hex::FromHexError;
use std::alloc::{AllocError, Global};

// The greatest number of the head that counts ticks.
const MOST_HEAD_TICKS: u64 = 1_000_000_000;

// The greatest delay, in ticks.
const MOST_DELAY: u64 = 1_000_000_000;

// The greatest stamp, in units, and the greatest instant of a frame, in ticks.
pub(crate) const LAST_STAMP: u64 = 900_000_000_000_000_000;

/// A number that one record of the head of a log says.
#[derive(Clone, Copy, Debug, PartialEq, Eq)]
pub enum HeadNumber {
    /// How long a unit of stamps is on the observer's clock, in ticks.
    Unit,
    /// How far its clock is off at most, in parts per million.
    Drift,
    /// What a stamp is off beside rounding, in ticks.
    Error,
    /// How much two delays of one sender on one channel differ, in ticks.
    Jitter,
    /// The even cycle of the log in whose double cycle the cluster is in sync by the sharper bounds.
    Since,
    /// How far the delays of a correct sender's frames at a correct node on a channel differ at most between both
    /// cycles of a double cycle, in ticks.
    Flutter,
    /// How many correct sync senders' frames a correct node may miss in a double cycle.
    Lost,
}

/// The limits of a delay, in ticks.
#[derive(Clone, Copy, Debug, PartialEq, Eq)]
pub struct DelayLimits {
    pub low: u64,
    pub high: u64,
}

/// What a record says of the delay of a sender's frames on a channel. The channel is None where the field names none:
/// whether the node is known is asked before.
#[derive(Clone, Copy)]
pub struct DelayRow {
    pub node: NodeId,
    pub channel: Option<Channel>,
    pub limits: DelayLimits,
}

/// What a record says of a frame that came.
#[derive(Drop)]
pub struct EntryRow {
    pub kind: EntryKind,
    pub stamp: u64,
    /// None where its field names none.
    pub channel: Option<Channel>,
    /// None where they are not hexadecimal.
    pub bytes: Option<EntryBytes>,
}

/// What a record of a log says by itself.
#[derive(Drop)]
pub enum Row {
    /// A number of the head.
    Number(HeadNumber, u64),
    /// The observer missed no frame.
    Whole,
    /// The node is arbitrary.
    Arbitrary(NodeId),
    /// The limits of the delay of a sender's frames on a channel.
    Delay(DelayRow),
    /// Those of all delays that have no others.
    EachDelay(DelayLimits),
    /// A frame that came.
    Came(EntryRow),
}

impl HeadNumber {
    // The number that a kind of record says, if it is one of these.
    fn spelt(kind: &[u8]) -> Option<HeadNumber>
        ensures { result ≡ head_number_of kind.now }
    {
        if kind == b"unit".as_slice() {
            Some(HeadNumber::Unit)
        } else if kind == b"drift".as_slice() {
            Some(HeadNumber::Drift)
        } else if kind == b"error".as_slice() {
            Some(HeadNumber::Error)
        } else if kind == b"jitter".as_slice() {
            Some(HeadNumber::Jitter)
        } else if kind == b"since".as_slice() {
            Some(HeadNumber::Since)
        } else if kind == b"flutter".as_slice() {
            Some(HeadNumber::Flutter)
        } else if kind == b"lost".as_slice() {
            Some(HeadNumber::Lost)
        } else {
            None
        }
    }

    // The least and the greatest that it may be.
    fn range(self) -> (u64, u64)
        ensures low { result.0 ≡ least_number self }
        ensures high { result.1 ≡ greatest_number self }
        ensures ordered { result.0 ≤ result.1 }
        ensures most { result.1 ≤ most_head_ticks }
    {
        match self {
            HeadNumber::Unit => (1, MOST_HEAD_TICKS),
            HeadNumber::Drift => (0, 1000),
            HeadNumber::Error => (0, MOST_HEAD_TICKS),
            HeadNumber::Jitter => (0, MOST_HEAD_TICKS),
            HeadNumber::Since => (0, 199_998),
            HeadNumber::Flutter => (0, MOST_HEAD_TICKS),
            HeadNumber::Lost => (0, 14),
        }
    }

    // Its place in a table of these numbers.
    pub(crate) fn place(self) -> usize
        ensures value { result ≡ head_place self }
        ensures low { result ≤ 6 }
    {
        self as usize
    }
}

/// What a record says, or the least of the reasons that it shows by itself: Shape, UnknownName, NotNumber,
/// OutOfRange. `AllocError` where memory ran out.
#[tactic(auto, unfolding(crate::specs::Rows::log_row_of))]
pub fn read_row(alloc: Global, row: &Record<'_>) -> Result<Result<Row, Reason>, AllocError>
    ensures said { IfOk result (λ said. said ≡ log_row_of (fields_of row.now)) }
    ensures proper { IfOk result (λ said. IfOk said IsProperLogRow) }
{
    match Fields::of(row) {
        Some(fields) => read_fields(alloc, &fields),
        None => Ok(Err(Reason::Shape)),
    }
}

fn read_fields(alloc: Global, row: &Fields<'_>) -> Result<Result<Row, Reason>, AllocError>
    ensures said { IfOk result (λ said. said ≡ log_file_row (log_fields row.now)) }
    ensures proper { IfOk result (λ said. IfOk said IsProperLogRow) }
{
    match HeadNumber::spelt(row.kind) {
        Some(name) => Ok(read_number(name, row)),
        None => read_other(alloc, row),
    }
}

fn read_number(name: HeadNumber, row: &Fields<'_>) -> Result<Row, Reason>
    ensures said { result ≡ number_row name (log_fields row.now) }
    ensures proper { IfOk result IsProperLogRow }
{
    if !row.is_alone() {
        return Err(Reason::Shape);
    }
    let (low, high) = name.range();
    match natural(row.number, low, high) {
        Ok(number) => Ok(Row::Number(name, number)),
        Err(fault) => Err(reason_of(fault)),
    }
}

fn read_other(alloc: Global, row: &Fields<'_>) -> Result<Result<Row, Reason>, AllocError>
    ensures said { IfOk result (λ said. said ≡ other_row (log_fields row.now)) }
    ensures proper { IfOk result (λ said. IfOk said IsProperLogRow) }
{
    let kind = row.kind;
    if kind == b"whole".as_slice() {
        Ok(read_whole(row))
    } else if kind == b"arbitrary".as_slice() {
        Ok(read_arbitrary(row))
    } else if kind == b"delay".as_slice() {
        Ok(read_delay(row))
    } else if kind == b"frame".as_slice() {
        read_entry(alloc, EntryKind::Frame, row)
    } else if kind == b"head".as_slice() {
        read_entry(alloc, EntryKind::Head, row)
    } else {
        Ok(Err(Reason::UnknownName))
    }
}

fn read_whole(row: &Fields<'_>) -> Result<Row, Reason>
    ensures said { result ≡ whole_row (log_fields row.now) }
    ensures proper { IfOk result IsProperLogRow }
{
    if !row.number.is_empty() || !row.is_alone() {
        return Err(Reason::Shape);
    }
    Ok(Row::Whole)
}

fn read_arbitrary(row: &Fields<'_>) -> Result<Row, Reason>
    ensures said { result ≡ log_node_row (log_fields row.now) }
    ensures proper { IfOk result IsProperLogRow }
{
    if !row.is_alone() {
        return Err(Reason::Shape);
    }
    match natural(row.number, 1, 64) {
        Ok(node) => Ok(Row::Arbitrary(NodeId(node as u8))),
        Err(fault) => Err(reason_of(fault)),
    }
}

fn read_delay(row: &Fields<'_>) -> Result<Row, Reason>
    ensures said { result ≡ log_delay_row (log_fields row.now) }
    ensures proper { IfOk result IsProperLogRow }
{
    if !row.number.is_empty() && !row.channel.is_empty() {
        read_link(row)
    } else if row.number.is_empty() && row.channel.is_empty() {
        read_each(row)
    } else {
        Err(Reason::Shape)
    }
}

fn read_link(row: &Fields<'_>) -> Result<Row, Reason>
    ensures said { result ≡ link_row (log_fields row.now) }
    ensures proper { IfOk result IsProperLogRow }
{
    match both(natural(row.number, 1, 64), read_limits(row)) {
        Ok((node, limits)) => Ok(Row::Delay(DelayRow {
            node: NodeId(node as u8),
            channel: Channel::spelt(row.channel),
            limits,
        })),
        Err(fault) => Err(reason_of(fault)),
    }
}

fn read_each(row: &Fields<'_>) -> Result<Row, Reason>
    ensures said { result ≡ each_row (log_fields row.now) }
    ensures proper { IfOk result IsProperLogRow }
{
    match read_limits(row) {
        Ok(limits) => Ok(Row::EachDelay(limits)),
        Err(fault) => Err(reason_of(fault)),
    }
}

fn read_limits(row: &Fields<'_>) -> Result<DelayLimits, NumberFault>
    ensures said { result ≡ limits_in (log_fields row.now) }
    ensures proper { IfOk result (λ limits. limits.high ≤ most_delay) }
{
    let (low, high) = both(
        natural(row.low_or_bytes, 0, MOST_DELAY),
        natural(row.high, 0, MOST_DELAY),
    )?;
    Ok(DelayLimits { low, high })
}

fn read_entry(
    alloc: Global,
    kind: EntryKind,
    row: &Fields<'_>,
) -> Result<Result<Row, Reason>, AllocError>
    ensures said { IfOk result (λ said. said ≡ entry_row kind (log_fields row.now)) }
    ensures proper { IfOk result (λ said. IfOk said IsProperLogRow) }
{
    if !row.high.is_empty() {
        return Ok(Err(Reason::Shape));
    }
    match both(
        natural(row.number, 0, LAST_STAMP),
        hex_digits(row.low_or_bytes),
    ) {
        Err(fault) => Ok(Err(reason_of(fault))),
        Ok((stamp, _)) => {
            let bytes = read_bytes(alloc, row.low_or_bytes)?;
            Ok(Ok(Row::Came(EntryRow {
                kind,
                stamp,
                channel: Channel::spelt(row.channel),
                bytes,
            })))
        }
    }
}

// The bytes that a text writes; None where it is not hexadecimal. `AllocError` where memory ran out.
fn read_bytes(alloc: Global, text: &[u8]) -> Result<Option<EntryBytes>, AllocError>
    requires { length text.now ≤ 524 }
    ensures said { IfOk result (λ bytes. bytes ≡ entry_bytes_in text.now) }
    ensures proper { IfOk result (λ bytes. IfSome bytes AreEntryBytes) }
{
    match hex::decode(alloc, text) {
        Ok(bytes) => Ok(Some(EntryBytes::of(bytes))),
        Err(FromHexError::OutOfMemory) => Err(AllocError),
        Err(_) => Ok(None),
    }
}
