ghost use Rattle.std.specs.Prelude.{◌≡◌, ◌≤ℤ◌, false, true, codes, pos, negsuc, IfOk, IfSome};
ghost use Rattle.std.specs.Str.{bytes_eq};
ghost use Rattle.fr_base.specs.Channels.{channel_of};
ghost use Rattle.fr_text.specs.Plain.{fields_of};
ghost use Rattle.fr_trace.specs.Rows.{IsProperHeard, IsProperTraceRow, heard_fields, heard_said, is_heard_record, traced_arbitrary_row, are_blank, traced_join_row, AreProperTerms, IsProperSpan, clock_in, clock_row, offset_in, traced_rate_in, run_row, span_in, state_of, terms_in, trace_fields, trace_row_of, value_in};

use crate::fields::Fields;
use crate::trace::TracedJoin;
use fr_base::{Channel, NodeId, NodeRow, NumberFault, Reason, Slot, State, number};
use fr_cluster::Join;
use fr_text::{Record, both, natural, reason_of};

/// A deviation that a record says. The channel is None where the field names none: whether the nodes are
/// known is asked before.
#[derive(Clone, Copy)]
pub struct HeardRow {
    /// The cycle.
    pub cycle: u32,
    /// The node that measured it.
    pub receiver: NodeId,
    /// The key slot in which the frame was sent.
    pub slot: Slot,
    /// The channel on which it came.
    pub channel: Option<Channel>,
    /// The deviation in microticks of the receiver.
    pub value: i32,
}

/// What a record of a trace says by itself.
#[derive(Clone, Copy)]
pub enum Row {
    /// How many double cycles the trace has.
    Run(u32),
    /// A node that is arbitrary.
    Arbitrary(NodeId),
    /// That a node joins the running cluster.
    Join(TracedJoin),
    /// A node's cycle, by the number of the cycle; how many terms were cut is not told, and 0 stands for it.
    Clock(u32, NodeRow),
    /// A deviation.
    Heard(HeardRow),
}

/// Whether a record has the form of a deviation: eight fields, of which the first says so.
pub fn is_heard(row: &Record<'_>) -> bool
    ensures { result ≡ is_heard_record (fields_of row.now) }
{
    row.len() == 8 && is_dev(row.field(0))
}

// Whether a field is `dev`. Its bytes are asked one by one, since most records are deviations.
fn is_dev(field: &[u8]) -> bool
    ensures { result ≡ bytes_eq field.now (codes "dev") }
{
    field.len() == 3 && field[0] == b'd' && field[1] == b'e' && field[2] == b'v'
}

/// The deviation that a record of this form says, or the least of the reasons that it shows by itself: Shape,
/// NotNumber, OutOfRange. It is read apart from other rows, since most records are deviations.
#[tactic(auto, unfolding(crate::specs::Rows::trace_row_of))]
pub fn read_heard(row: &Record<'_>) -> Result<HeardRow, Reason>
    requires { is_heard_record (fields_of row.now) ≡ true }
    ensures said { heard_said result ≡ trace_row_of (fields_of row.now) }
    ensures proper { IfOk result IsProperHeard }
{
    match Fields::of(row) {
        Some(fields) => read_fields(&fields),
        None => Err(Reason::Shape),
    }
}

/// What a record of another form says, or the least of the reasons that it shows by itself: Shape, UnknownName,
/// NotNumber, OutOfRange.
#[tactic(auto, unfolding(crate::specs::Rows::trace_row_of))]
pub fn read_row(row: &Record<'_>) -> Result<Row, Reason>
    requires { is_heard_record (fields_of row.now) ≡ false }
    ensures said { result ≡ trace_row_of (fields_of row.now) }
    ensures proper { IfOk result (λ said. IsProperTraceRow said) }
{
    match Fields::of(row) {
        Some(fields) => read_kind(&fields),
        None => Err(Reason::Shape),
    }
}

#[tactic(auto, unfolding(crate::specs::Rows::trace_row_of))]
fn read_kind(row: &Fields<'_>) -> Result<Row, Reason>
    requires { bytes_eq row.now.kind.now (codes "dev") ≡ false }
    ensures said { result ≡ trace_row_of (trace_fields row.now) }
    ensures proper { IfOk result (λ said. IsProperTraceRow said) }
{
    if row.kind == b"run".as_slice() {
        if !are_empty(row.node, row.start_or_slot, row.length_or_channel)
            || !are_empty(row.rate_or_value, row.offset, row.state)
        {
            return Err(Reason::Shape);
        }
        read_run(row.number)
    } else if row.kind == b"arbitrary".as_slice() {
        if !are_empty(row.node, row.start_or_slot, row.length_or_channel)
            || !are_empty(row.rate_or_value, row.offset, row.state)
        {
            return Err(Reason::Shape);
        }
        read_arbitrary(row.number)
    } else if row.kind == b"join".as_slice() {
        if !are_empty(row.length_or_channel, row.rate_or_value, row.offset)
            || !row.state.is_empty()
        {
            return Err(Reason::Shape);
        }
        read_join(row.number, row.node, row.start_or_slot)
    } else if row.kind == b"cycle".as_slice() {
        read_clock(row)
    } else {
        Err(Reason::UnknownName)
    }
}

fn are_empty(first: &[u8], second: &[u8], third: &[u8]) -> bool
    ensures { result ≡ are_blank first.now second.now third.now }
{
    first.is_empty() && second.is_empty() && third.is_empty()
}

fn read_run(doubles: &[u8]) -> Result<Row, Reason>
    ensures said { result ≡ run_row doubles.now }
    ensures proper { IfOk result (λ said. IsProperTraceRow said) }
{
    match natural(doubles, 1, 100_000) {
        Ok(doubles) => Ok(Row::Run(doubles as u32)),
        Err(fault) => Err(reason_of(fault)),
    }
}

fn read_arbitrary(node: &[u8]) -> Result<Row, Reason>
    ensures said { result ≡ traced_arbitrary_row node.now }
    ensures proper { IfOk result (λ said. IsProperTraceRow said) }
{
    match natural(node, 1, 64) {
        Ok(node) => Ok(Row::Arbitrary(NodeId(node as u8))),
        Err(fault) => Err(reason_of(fault)),
    }
}

fn read_join(node: &[u8], reference: &[u8], double: &[u8]) -> Result<Row, Reason>
    ensures said { result ≡ traced_join_row node.now reference.now double.now }
    ensures proper { IfOk result (λ said. IsProperTraceRow said) }
{
    match both(
        both(natural(node, 1, 64), natural(reference, 1, 64)),
        natural(double, 0, 99_999),
    ) {
        Err(fault) => Err(reason_of(fault)),
        Ok(((node, reference), double)) => Ok(Row::Join(TracedJoin {
            node: NodeId(node as u8),
            join: Join {
                double: double as u32,
                reference: NodeId(reference as u8),
            },
        })),
    }
}

fn read_clock(row: &Fields<'_>) -> Result<Row, Reason>
    ensures said { result ≡ clock_row row.now.number.now row.now.node.now row.now.start_or_slot.now
        row.now.length_or_channel.now row.now.rate_or_value.now row.now.offset.now row.now.state.now }
    ensures proper { IfOk result (λ said. IsProperTraceRow said) }
{
    match read_state(row.state) {
        None => Err(Reason::UnknownName),
        Some(state) => read_clock_in(state, row),
    }
}

fn read_clock_in(state: State, row: &Fields<'_>) -> Result<Row, Reason>
    ensures said { result ≡ clock_in row.now.number.now row.now.node.now row.now.start_or_slot.now
        row.now.length_or_channel.now row.now.rate_or_value.now row.now.offset.now state }
    ensures proper { IfOk result (λ said. IsProperTraceRow said) }
{
    match both(
        both(natural(row.number, 0, 199_999), natural(row.node, 1, 64)),
        both(
            read_span(row.start_or_slot, row.length_or_channel),
            read_terms(row.rate_or_value, row.offset),
        ),
    ) {
        Err(fault) => Err(reason_of(fault)),
        Ok(((cycle, node), (span, terms))) => Ok(Row::Clock(
            cycle as u32,
            NodeRow {
                node: NodeId(node as u8),
                start: span.0,
                length: span.1,
                rate: terms.0,
                offset: terms.1,
                state,
                cut: 0,
            },
        )),
    }
}

// A start and the length of a microtick.
fn read_span(start: &[u8], length: &[u8]) -> Result<(i64, i64), NumberFault>
    ensures said { result ≡ span_in start.now length.now }
    ensures range { IfOk result (λ span. IsProperSpan span) }
{
    both(
        number(start, 0, 900_000_000_000_000_000),
        number(length, 500_000, 1_500_000),
    )
}

// A rate term and an offset term.
fn read_terms(rate: &[u8], offset: &[u8]) -> Result<(i32, i32), NumberFault>
    ensures said { result ≡ terms_in rate.now offset.now }
    ensures range { IfOk result (λ terms. AreProperTerms terms) }
{
    both(read_rate(rate), read_offset(offset))
}

fn read_state(text: &[u8]) -> Option<State>
    ensures { result ≡ state_of text.now }
{
    if text == b"active".as_slice() {
        Some(State::Active)
    } else if text == b"passive".as_slice() {
        Some(State::Passive)
    } else if text == b"halt".as_slice() {
        Some(State::Halt)
    } else {
        None
    }
}

#[tactic(auto, unfolding(crate::specs::Rows::traced_rate_in))]
fn read_rate(text: &[u8]) -> Result<i32, NumberFault>
    ensures said { result ≡ traced_rate_in text.now }
    ensures range { IfOk result (λ rate. (negsuc 1999 ≤ℤ rate) × (rate ≤ℤ pos 2000)) }
{
    let rate = number(text, -2000, 2000)?;
    Ok(rate as i32)
}

#[tactic(auto, unfolding(crate::specs::Rows::offset_in))]
fn read_offset(text: &[u8]) -> Result<i32, NumberFault>
    ensures said { result ≡ offset_in text.now }
    ensures range { IfOk result (λ offset. (negsuc 15_999 ≤ℤ offset) × (offset ≤ℤ pos 16_000)) }
{
    let offset = number(text, -16_000, 16_000)?;
    Ok(offset as i32)
}

#[tactic(auto, unfolding(crate::specs::Rows::value_in))]
fn read_value(text: &[u8]) -> Result<i32, NumberFault>
    ensures said { result ≡ value_in text.now }
    ensures range { IfOk result (λ value. (negsuc 999_999 ≤ℤ value) × (value ≤ℤ pos 1_000_000)) }
{
    let value = number(text, -1_000_000, 1_000_000)?;
    Ok(value as i32)
}

// A deviation of these fields, of which the last two are to be empty.
fn read_fields(row: &Fields<'_>) -> Result<HeardRow, Reason>
    ensures said { heard_said result ≡
        heard_fields row.now.number.now row.now.node.now row.now.start_or_slot.now row.now.length_or_channel.now
        row.now.rate_or_value.now row.now.offset.now row.now.state.now }
    ensures proper { IfOk result IsProperHeard }
{
    if !row.offset.is_empty() || !row.state.is_empty() {
        return Err(Reason::Shape);
    }
    match both(
        both(natural(row.number, 0, 199_999), natural(row.node, 1, 64)),
        both(
            natural(row.start_or_slot, 1, 1023),
            read_value(row.rate_or_value),
        ),
    ) {
        Err(fault) => Err(reason_of(fault)),
        Ok(((cycle, receiver), (slot, value))) => Ok(HeardRow {
            cycle: cycle as u32,
            receiver: NodeId(receiver as u8),
            slot: Slot(slot as u16),
            channel: channel_of(row.length_or_channel),
            value,
        }),
    }
}

// The channel that a field names.
fn channel_of(field: &[u8]) -> Option<Channel>
    ensures { result ≡ channel_of field.now }
{
    match field {
        [b'A'] => Some(Channel::A),
        [b'B'] => Some(Channel::B),
        _ => None,
    }
}
