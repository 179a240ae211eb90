ghost use Rattle.std.specs.Prelude.{◌≡◌, ◌<◌, IfOk};
ghost use Rattle.fr_text.specs.Plain.{fields_of};
ghost use Rattle.fr_script.specs.Columns.{as_record, deed_row, passage_in};
ghost use Rattle.fr_script.specs.Rows.{IsProperScriptRow, arbitrary_row, is_node_alone, is_reference_last, join_in, join_row, row_of_no_deed, script_file_row, script_row_of};

use crate::deed::{Deed, read_deed};
use crate::deeds::Passage;
use crate::fields::Fields;
use fr_base::{Channel, NodeId, NumberFault, Reason};
use fr_cluster::Join;
use fr_text::{Record, both, natural, reason_of};
use std::alloc::{AllocError, Global};

/// What a record says of the frames of a passage.
#[derive(Drop)]
pub struct DeedRow {
    pub passage: Passage,
    /// None where its field names none.
    pub channel: Option<Channel>,
    /// None where a frame is to be said, and its bytes are not hexadecimal.
    pub deed: Option<Deed>,
}

/// What a record says of a node that joins the running cluster.
#[derive(Clone, Copy)]
pub struct JoinRow {
    pub node: NodeId,
    pub join: Join,
}

/// What a record of a script says by itself.
#[derive(Drop)]
pub enum Row {
    /// The node is arbitrary.
    Arbitrary(NodeId),
    /// What becomes of the frames of a passage.
    Deed(DeedRow),
    /// The node joins the running cluster.
    Join(JoinRow),
}

/// What a record says, or the least of the reasons that it shows by itself: Shape, UnknownName, NotNumber,
/// OutOfRange. `AllocError` where memory ran out.
#[tactic(auto, unfolding(crate::specs::Rows::script_row_of))]
pub fn read_row(alloc: Global, row: &Record<'_>) -> Result<Result<Row, Reason>, AllocError>
    ensures said { IfOk result (λ said. said ≡ script_row_of (fields_of row.now)) }
    ensures proper { IfOk result (λ said. IfOk said IsProperScriptRow) }
{
    match Fields::of(row) {
        Some(fields) => read_kind(alloc, &fields),
        None => Ok(Err(Reason::Shape)),
    }
}

fn read_kind(alloc: Global, row: &Fields<'_>) -> Result<Result<Row, Reason>, AllocError>
    ensures said { IfOk result (λ said. said ≡ script_file_row (as_record row.now)) }
    ensures proper { IfOk result (λ said. IfOk said IsProperScriptRow) }
{
    if row.kind == b"arbitrary".as_slice() {
        return Ok(read_arbitrary(row));
    }
    match read_deed(alloc, row)? {
        Some(said) => Ok(said),
        None => Ok(read_other(row)),
    }
}

fn read_other(row: &Fields<'_>) -> Result<Row, Reason>
    ensures said { result ≡ row_of_no_deed (as_record row.now) }
    ensures proper { IfOk result IsProperScriptRow }
{
    if row.kind == b"join".as_slice() {
        read_join(row)
    } else {
        Err(Reason::UnknownName)
    }
}

fn read_arbitrary(row: &Fields<'_>) -> Result<Row, Reason>
    ensures said { result ≡ arbitrary_row (as_record row.now) }
    ensures proper { IfOk result IsProperScriptRow }
{
    if !is_node_alone(row) {
        return Err(Reason::Shape);
    }
    match natural(row.first, 1, 64) {
        Ok(node) => Ok(Row::Arbitrary(NodeId(node as u8))),
        Err(fault) => Err(reason_of(fault)),
    }
}

fn is_node_alone(row: &Fields<'_>) -> bool
    ensures { result ≡ is_node_alone (as_record row.now) }
{
    row.sender.is_empty() && row.receiver.is_empty() && is_reference_last(row)
}

fn read_join(row: &Fields<'_>) -> Result<Row, Reason>
    ensures said { result ≡ join_row (as_record row.now) }
    ensures proper { IfOk result IsProperScriptRow }
{
    if !is_reference_last(row) {
        return Err(Reason::Shape);
    }
    match read_joining(row) {
        Ok(said) => Ok(Row::Join(said)),
        Err(fault) => Err(reason_of(fault)),
    }
}

fn is_reference_last(row: &Fields<'_>) -> bool
    ensures { result ≡ is_reference_last (as_record row.now) }
{
    row.channel.is_empty() && row.number.is_empty() && row.bytes.is_empty()
}

fn read_joining(row: &Fields<'_>) -> Result<JoinRow, NumberFault>
    ensures said { result ≡ join_in (as_record row.now) }
    ensures proper { IfOk result (λ said. said.join.double < 100_000) }
{
    let (double, (node, reference)) = both(
        natural(row.first, 0, 99_999),
        both(natural(row.sender, 1, 64), natural(row.receiver, 1, 64)),
    )?;
    Ok(JoinRow {
        node: NodeId(node as u8),
        join: Join {
            double: double as u32,
            reference: NodeId(reference as u8),
        },
    })
}

pub(crate) fn deed_of(row: &Fields<'_>, passage: Passage, deed: Option<Deed>) -> Row
    ensures { result ≡ deed_row (as_record row.now) passage deed }
{
    Row::Deed(DeedRow {
        passage,
        channel: Channel::spelt(row.channel),
        deed,
    })
}

pub(crate) fn read_passage(row: &Fields<'_>) -> Result<Passage, NumberFault>
    ensures { result ≡ passage_in (as_record row.now) }
{
    let (cycle, (sender, receiver)) = both(
        natural(row.first, 0, 199_999),
        both(natural(row.sender, 1, 64), natural(row.receiver, 1, 64)),
    )?;
    Ok(Passage {
        sender: NodeId(sender as u8),
        receiver: NodeId(receiver as u8),
        cycle: cycle as u32,
    })
}
