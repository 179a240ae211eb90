ghost use Rattle.std.specs.Prelude.{◌≡◌, [], ◌&&◌, ◌≤◌, nat_lt, Some, None, if◌then◌else◌};
ghost use Rattle.csv.specs.Records.{fields_of};
ghost use Rattle.fr_base.specs.declared.reason.Reason.TheVariants as reason;
ghost use Rattle.fr_cluster.specs.Ranges.{InRange, IsProperNode, IsProperSlot, is_keyless_starter, is_repetition};
ghost use Rattle.fr_params.specs.declared.names.Version.{Version as Of};
ghost use Rattle.fr_params.specs.Reasons.{param_reason_after};
ghost use Rattle.fr_params.specs.Draft.{AreTables, IsParamsDraft, TakesParamRow, version_after, version_told};
ghost use Rattle.fr_params.specs.declared.rows.Row.TheVariants as said;

use crate::names::{Version, place_of};
use crate::rows::{Row, read_row, version_by};
use csv::ByteRecord;
use fr_base::{NodeId, Reason, Slot};
use fr_cluster::{NodeSpec, ParamName, SlotSpec};
use fr_text::Table;
use std::alloc::AllocError;

// What the records so far say: the version that the first of them says, none before it, and the tables.
#[derive(Drop)]
pub(crate) struct Draft {
    pub(crate) version: Option<Version>,
    pub(crate) tables: Tables,
}

// The values by the place of their name, the nodes and the slots by their number. The places 0 of the last
// two stay empty.
#[derive(Drop)]
pub(crate) struct Tables {
    pub(crate) values: [Option<i64>; 21],
    pub(crate) nodes: [Option<NodeSpec>; 65],
    pub(crate) slots: [Option<SlotSpec>; 1024],
}

impl Draft {
    pub(crate) fn new() -> Draft
        ensures { IsParamsDraft result [] }
    {
        Draft {
            version: None,
            tables: Tables::new(),
        }
    }

    // The version of the file, where these are all its records.
    pub(crate) fn version_told(&self) -> Version
        ensures { result ≡ version_told self.now.version }
    {
        match self.version {
            Some(version) => version,
            None => Version::One,
        }
    }

    // The version of the file, where this record follows.
    fn version_after(&self, row: &ByteRecord) -> Version
        ensures { result ≡ version_after self.now.version (fields_of row.now) }
    {
        match self.version {
            Some(version) => version,
            None => version_by(row),
        }
    }
}

impl Tables {
    fn new() -> Tables
        ensures { (version : Of) → AreTables version result [] }
    {
        Tables {
            values: [None; 21],
            nodes: [None; 65],
            slots: [None; 1024],
        }
    }

    fn take_value(&mut self, name: ParamName, value: i64) -> Option<Reason>
        requires { InRange name value }
        ensures { TakesParamRow self.old self.new (said.Param name value) result }
    {
        let place = place_of(name);
        if self.values[place].is_some() {
            return Some(Reason::Repeated);
        }
        self.values[place] = Some(value);
        None
    }

    fn take_node(&mut self, node: NodeSpec) -> Option<Reason>
        requires { IsProperNode node }
        ensures { TakesParamRow self.old self.new (said.Node node) result }
    {
        if starts_without_key(&node) {
            return Some(Reason::Role);
        }
        let place = node_place(&node.id);
        if self.nodes[place].is_some() {
            return Some(Reason::Repeated);
        }
        self.nodes[place] = Some(node);
        None
    }

    fn take_slot(&mut self, slot: SlotSpec) -> Option<Reason>
        requires { IsProperSlot slot }
        ensures { TakesParamRow self.old self.new (said.Slot slot) result }
    {
        let node = node_place(&slot.node);
        if self.nodes[node].is_none() {
            return Some(Reason::UnknownNode);
        }
        if !goes_together(slot.base, slot.repetition) {
            return Some(Reason::Role);
        }
        let place = slot_place(&slot.slot);
        if self.slots[place].is_some() {
            return Some(Reason::Repeated);
        }
        self.slots[place] = Some(slot);
        None
    }
}

fn starts_without_key(node: &NodeSpec) -> bool
    ensures { result ≡ is_keyless_starter node.now }
{
    node.coldstart && node.key.is_none()
}

fn node_place(id: &NodeId) -> usize
    ensures value { result ≡ id.now }
    ensures most { result ≤ 64 }
{
    usize::from(id.0)
}

fn slot_place(slot: &Slot) -> usize
    ensures value { result ≡ slot.now }
    ensures most { result ≤ 1023 }
{
    usize::from(slot.0)
}

fn goes_together(base: u8, repetition: u8) -> bool
    ensures { result ≡ (is_repetition repetition && nat_lt base repetition) }
{
    matches!(repetition, 1 | 2 | 4 | 8 | 16 | 32 | 64) && base < repetition
}

// The reason of a record that says the version of its file.
fn role_of_version(is_first: bool) -> Option<Reason>
    ensures { result ≡ (if is_first then None else Some reason.Role) }
{
    if is_first { None } else { Some(Reason::Role) }
}

impl Table for Draft {
    ghost reason = { λ _. param_reason_after };

    ghost holds = { λ draft records. IsParamsDraft draft records };

    fn add(&mut self, row: &ByteRecord) -> Result<Option<Reason>, AllocError> {
        let version = self.version_after(row);
        let is_first = self.version.is_none();
        self.version = Some(version);
        match read_row(version, row) {
            Err(why) => Ok(Some(why)),
            Ok(Row::Version) => Ok(role_of_version(is_first)),
            Ok(Row::Param(name, value)) => Ok(self.tables.take_value(name, value)),
            Ok(Row::Node(node)) => Ok(self.tables.take_node(node)),
            Ok(Row::Slot(slot)) => Ok(self.tables.take_slot(slot)),
        }
    }
}
