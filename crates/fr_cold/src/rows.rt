ghost use Rattle.std.specs.Prelude.{◌≡◌, IfOk};
ghost use Rattle.csv.specs.Records.{fields_of};
ghost use Rattle.fr_cold.specs.Rows.{IsProperPowerRow, cycles_row, power_file_row, power_row_of, switch_row};

use crate::Switch;
use csv::ByteRecord;
use fr_base::{NodeId, Reason};
use fr_text::{both, field, natural, reason_of};

/// A node that is switched at a macrotick.
#[derive(Clone, Copy, Debug, PartialEq, Eq)]
pub struct SwitchRow {
    pub node: NodeId,
    pub at: u32,
    pub switch: Switch,
}

/// What a record of a power file says by itself.
#[derive(Clone, Copy, Debug, PartialEq, Eq)]
pub enum Row {
    /// How many cycles the run has.
    Cycles(u32),
    /// A switch of a node.
    Switched(SwitchRow),
}

/// What a record says, or the least of the reasons that it shows by itself: Shape, UnknownName,
/// NotNumber, OutOfRange.
pub fn read_row(row: &ByteRecord) -> Result<Row, Reason>
    ensures said { result ≡ power_row_of (fields_of row.now) }
    ensures proper { IfOk result (λ said. IsProperPowerRow said) }
{
    if row.len() != 3 {
        return Err(Reason::Shape);
    }
    read_kind(field(row, 0), field(row, 1), field(row, 2))
}

fn read_kind(kind: &[u8], first: &[u8], second: &[u8]) -> Result<Row, Reason>
    ensures said { result ≡ power_file_row kind.now first.now second.now }
    ensures proper { IfOk result (λ said. IsProperPowerRow said) }
{
    if kind == b"cycles".as_slice() {
        if !second.is_empty() {
            return Err(Reason::Shape);
        }
        read_cycles(first)
    } else if kind == b"on".as_slice() {
        read_switch(Switch::On, first, second)
    } else if kind == b"off".as_slice() {
        read_switch(Switch::Off, first, second)
    } else {
        Err(Reason::UnknownName)
    }
}

fn read_cycles(count: &[u8]) -> Result<Row, Reason>
    ensures said { result ≡ cycles_row count.now }
    ensures proper { IfOk result (λ said. IsProperPowerRow said) }
{
    match natural(count, 1, 1000) {
        Ok(count) => Ok(Row::Cycles(count as u32)),
        Err(fault) => Err(reason_of(fault)),
    }
}

fn read_switch(switch: Switch, node: &[u8], at: &[u8]) -> Result<Row, Reason>
    ensures said { result ≡ switch_row switch node.now at.now }
    ensures proper { IfOk result (λ said. IsProperPowerRow said) }
{
    match both(natural(node, 1, 64), natural(at, 0, 16_000_000)) {
        Err(fault) => Err(reason_of(fault)),
        Ok((node, at)) => Ok(Row::Switched(SwitchRow {
            node: NodeId(node as u8),
            at: at as u32,
            switch,
        })),
    }
}
