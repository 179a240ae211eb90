ghost use Rattle.std.specs.Prelude.{◌≡◌, ◌<◌, ◌≤◌, ℕ, List, [], length, pos, ◌≤ℤ◌, slice_index_or, codes, IfOk, IfSome};
ghost use Rattle.csv.specs.Records.{fields_of};
ghost use Rattle.fr_cluster.specs.Ranges.{greatest, least, IsProperNode, IsProperSlot};
ghost use Rattle.fr_params.specs.Rows.{IsProperParamRow, channels_of, key_of, param_file_row, param_node_row, param_row, param_row_of, slot_row, version_row};
ghost use Rattle.fr_params.specs.Versions.{version_by};

use crate::names::{Version, greatest_of, least_of, name_of};
use csv::ByteRecord;
use fr_base::{NodeId, NumberFault, Reason, Slot, number};
use fr_cluster::{NodeSpec, ParamName, SlotSpec};
use fr_text::{both, field, natural, reason_of};

/// What a record of a parameter file says by itself.
#[derive(Clone, Copy)]
pub enum Row {
    /// That the file is of version 2.
    Version,
    /// The value of a parameter.
    Param(ParamName, i64),
    /// A node.
    Node(NodeSpec),
    /// A further slot.
    Slot(SlotSpec),
}

/// The version of a file whose first record this is.
pub fn version_by(row: &ByteRecord) -> Version
    ensures { result ≡ version_by (fields_of row.now) }
{
    match read_row(Version::One, row) {
        Ok(Row::Version) => Version::Two,
        Ok(Row::Param(_, _)) => Version::One,
        Ok(Row::Node(_)) => Version::One,
        Ok(Row::Slot(_)) => Version::One,
        Err(_) => Version::One,
    }
}

/// What a record says in a file of a version, or the least of the reasons that it shows by itself: Shape,
/// UnknownName, NotNumber, OutOfRange, BadChannel.
pub fn read_row(version: Version, row: &ByteRecord) -> Result<Row, Reason>
    ensures said { result ≡ param_row_of version (fields_of row.now) }
    ensures proper { IfOk result (λ said. IsProperParamRow said) }
{
    if row.len() != 5 {
        return Err(Reason::Shape);
    }
    read_kind(
        version,
        field(row, 0),
        field(row, 1),
        field(row, 2),
        field(row, 3),
        field(row, 4),
    )
}

fn read_kind(
    version: Version,
    kind: &[u8],
    first: &[u8],
    second: &[u8],
    third: &[u8],
    fourth: &[u8],
) -> Result<Row, Reason>
    ensures said { result ≡ param_file_row version kind.now first.now second.now third.now fourth.now }
    ensures proper { IfOk result (λ said. IsProperParamRow said) }
{
    if kind == b"version".as_slice() {
        if !second.is_empty() || !third.is_empty() || !fourth.is_empty() {
            return Err(Reason::Shape);
        }
        read_version(first)
    } else if kind == b"param".as_slice() {
        if !third.is_empty() || !fourth.is_empty() {
            return Err(Reason::Shape);
        }
        read_param(version, first, second)
    } else if kind == b"node".as_slice() {
        read_node(first, second, third, fourth)
    } else if kind == b"slot".as_slice() {
        read_slot(first, second, third, fourth)
    } else {
        Err(Reason::UnknownName)
    }
}

fn read_version(value: &[u8]) -> Result<Row, Reason>
    ensures said { result ≡ version_row value.now }
    ensures proper { IfOk result (λ said. IsProperParamRow said) }
{
    match number(value, 2, 2) {
        Ok(_) => Ok(Row::Version),
        Err(fault) => Err(reason_of(fault)),
    }
}

fn read_param(version: Version, word: &[u8], value: &[u8]) -> Result<Row, Reason>
    ensures said { result ≡ param_row version word.now value.now }
    ensures proper { IfOk result (λ said. IsProperParamRow said) }
{
    let Some(name) = name_of(version, word) else {
        return Err(Reason::UnknownName);
    };
    match number(value, least_of(name), greatest_of(name)) {
        Ok(value) => Ok(Row::Param(name, value)),
        Err(fault) => Err(reason_of(fault)),
    }
}

fn read_node(id: &[u8], key: &[u8], channels: &[u8], coldstart: &[u8]) -> Result<Row, Reason>
    ensures said { result ≡ param_node_row id.now key.now channels.now coldstart.now }
    ensures proper { IfOk result (λ said. IsProperParamRow said) }
{
    match both(
        natural(id, 1, 64),
        both(read_key(key), natural(coldstart, 0, 1)),
    ) {
        Err(fault) => Err(reason_of(fault)),
        Ok((id, (key, coldstart))) => match read_channels(channels) {
            None => Err(Reason::BadChannel),
            Some((on_a, on_b)) => Ok(Row::Node(NodeSpec {
                id: NodeId(id as u8),
                key,
                on_a,
                on_b,
                coldstart: coldstart == 1,
            })),
        },
    }
}

fn read_key(text: &[u8]) -> Result<Option<Slot>, NumberFault>
    ensures said { result ≡ key_of text.now }
    ensures range { IfOk result (λ key. IfSome key (λ slot. (1 ≤ slot) × (slot ≤ 1023))) }
{
    if text.is_empty() {
        return Ok(None);
    }
    let slot = natural(text, 1, 1023)?;
    Ok(Some(Slot(slot as u16)))
}

fn read_channels(text: &[u8]) -> Option<(bool, bool)>
    ensures { result ≡ channels_of text.now }
{
    if text == b"A".as_slice() {
        Some((true, false))
    } else if text == b"B".as_slice() {
        Some((false, true))
    } else if text == b"AB".as_slice() {
        Some((true, true))
    } else {
        None
    }
}

fn read_slot(slot: &[u8], node: &[u8], base: &[u8], repetition: &[u8]) -> Result<Row, Reason>
    ensures said { result ≡ slot_row slot.now node.now base.now repetition.now }
    ensures proper { IfOk result (λ said. IsProperParamRow said) }
{
    match both(
        both(natural(slot, 1, 1023), natural(node, 1, 64)),
        both(natural(base, 0, 63), natural(repetition, 1, 64)),
    ) {
        Err(fault) => Err(reason_of(fault)),
        Ok(((slot, node), (base, repetition))) => Ok(Row::Slot(SlotSpec {
            slot: Slot(slot as u16),
            node: NodeId(node as u8),
            base: base as u8,
            repetition: repetition as u8,
        })),
    }
}
