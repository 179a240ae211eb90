ghost use Rattle.std.specs.Prelude.{◌≡◌, ◌≤ℤ◌, ◌&&◌, pos, negsuc, IfOk};
ghost use Rattle.csv.specs.Records.{fields_of};
ghost use Rattle.fr_text.specs.Fields.{is_blank};
ghost use Rattle.fr_drift.specs.Rows.{IsProperDriftRow, delay_row, doubles_row, drift_file_row, length_row, rate_in, drift_row_of, start_row};

use csv::ByteRecord;
use fr_base::{Channel, NodeId, NumberFault, Reason, number};
use fr_text::{both, field, natural, reason_of};

/// Where a node's clock starts, in ticks, and its first rate term, in microticks.
#[derive(Clone, Copy, Debug, PartialEq, Eq)]
pub struct Start {
    pub ticks: i64,
    pub rate: i32,
}

/// A node's start.
#[derive(Clone, Copy, Debug, PartialEq, Eq)]
pub struct StartRow {
    pub node: NodeId,
    pub start: Start,
}

/// How many ticks a microtick of a node lasts from a cycle on.
#[derive(Clone, Copy, Debug, PartialEq, Eq)]
pub struct LengthRow {
    pub node: NodeId,
    pub from: u32,
    pub ticks: i64,
}

/// How many ticks a frame travels over a link from a cycle on. The channel is None where the field names
/// none: whether the nodes are known is asked before.
#[derive(Clone, Copy, Debug, PartialEq, Eq)]
pub struct DelayRow {
    pub sender: NodeId,
    pub receiver: NodeId,
    pub channel: Option<Channel>,
    pub from: u32,
    pub ticks: i64,
}

/// What a record of a drift file says by itself.
#[derive(Clone, Copy, Debug, PartialEq, Eq)]
pub enum Row {
    /// How many double cycles the run has.
    Doubles(u32),
    /// A node's start.
    Start(StartRow),
    /// The length of a node's microticks.
    Length(LengthRow),
    /// The delay of a link.
    Delay(DelayRow),
}

/// What a record says, or the least of the reasons that it shows by itself: Shape, UnknownName,
/// NotNumber, OutOfRange.
pub fn read_row(row: &ByteRecord) -> Result<Row, Reason>
    ensures said { result ≡ drift_row_of (fields_of row.now) }
    ensures proper { IfOk result (λ said. IsProperDriftRow said) }
{
    if row.len() != 6 {
        return Err(Reason::Shape);
    }
    read_kind(
        field(row, 0),
        field(row, 1),
        field(row, 2),
        field(row, 3),
        field(row, 4),
        field(row, 5),
    )
}

fn read_kind(
    kind: &[u8],
    first: &[u8],
    second: &[u8],
    third: &[u8],
    fourth: &[u8],
    fifth: &[u8],
) -> Result<Row, Reason>
    ensures said { result ≡ drift_file_row kind.now first.now second.now third.now fourth.now fifth.now }
    ensures proper { IfOk result (λ said. IsProperDriftRow said) }
{
    if kind == b"doubles".as_slice() {
        if !are_empty(second, third) || !are_empty(fourth, fifth) {
            return Err(Reason::Shape);
        }
        read_doubles(first)
    } else if kind == b"start".as_slice() {
        if !are_empty(fourth, fifth) {
            return Err(Reason::Shape);
        }
        read_start(first, second, third)
    } else if kind == b"length".as_slice() {
        if !are_empty(fourth, fifth) {
            return Err(Reason::Shape);
        }
        read_length(first, second, third)
    } else if kind == b"delay".as_slice() {
        read_delay(first, second, third, fourth, fifth)
    } else {
        Err(Reason::UnknownName)
    }
}

fn are_empty(first: &[u8], second: &[u8]) -> bool
    ensures { result ≡ (is_blank first.now && is_blank second.now) }
{
    first.is_empty() && second.is_empty()
}

fn read_doubles(count: &[u8]) -> Result<Row, Reason>
    ensures said { result ≡ doubles_row count.now }
    ensures proper { IfOk result (λ said. IsProperDriftRow said) }
{
    match natural(count, 1, 100_000) {
        Ok(count) => Ok(Row::Doubles(count as u32)),
        Err(fault) => Err(reason_of(fault)),
    }
}

#[tactic(auto, unfolding(crate::specs::Rows::rate_in))]
fn read_rate(text: &[u8]) -> Result<i32, NumberFault>
    ensures said { result ≡ rate_in text.now }
    ensures range { IfOk result (λ rate. (negsuc 1999 ≤ℤ rate) × (rate ≤ℤ pos 2000)) }
{
    let rate = number(text, -2000, 2000)?;
    Ok(rate as i32)
}

fn read_start(node: &[u8], ticks: &[u8], rate: &[u8]) -> Result<Row, Reason>
    ensures said { result ≡ start_row node.now ticks.now rate.now }
    ensures proper { IfOk result (λ said. IsProperDriftRow said) }
{
    match both(
        natural(node, 1, 64),
        both(number(ticks, 0, 1_000_000_000_000), read_rate(rate)),
    ) {
        Err(fault) => Err(reason_of(fault)),
        Ok((node, (ticks, rate))) => Ok(Row::Start(StartRow {
            node: NodeId(node as u8),
            start: Start { ticks, rate },
        })),
    }
}

fn read_length(node: &[u8], from: &[u8], ticks: &[u8]) -> Result<Row, Reason>
    ensures said { result ≡ length_row node.now from.now ticks.now }
    ensures proper { IfOk result (λ said. IsProperDriftRow said) }
{
    match both(
        natural(node, 1, 64),
        both(natural(from, 0, 199_999), number(ticks, 500_000, 1_500_000)),
    ) {
        Err(fault) => Err(reason_of(fault)),
        Ok((node, (from, ticks))) => Ok(Row::Length(LengthRow {
            node: NodeId(node as u8),
            from: from as u32,
            ticks,
        })),
    }
}

fn read_delay(
    sender: &[u8],
    receiver: &[u8],
    channel: &[u8],
    from: &[u8],
    ticks: &[u8],
) -> Result<Row, Reason>
    ensures said { result ≡ delay_row sender.now receiver.now channel.now from.now ticks.now }
    ensures proper { IfOk result (λ said. IsProperDriftRow said) }
{
    match both(
        both(natural(sender, 1, 64), natural(receiver, 1, 64)),
        both(natural(from, 0, 199_999), number(ticks, 0, 1_000_000_000)),
    ) {
        Err(fault) => Err(reason_of(fault)),
        Ok(((sender, receiver), (from, ticks))) => Ok(Row::Delay(DelayRow {
            sender: NodeId(sender as u8),
            receiver: NodeId(receiver as u8),
            channel: Channel::spelt(channel),
            from: from as u32,
            ticks,
        })),
    }
}
