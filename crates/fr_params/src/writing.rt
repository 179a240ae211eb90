ghost use Rattle.std.specs.Prelude.{◌≡◌, ◌<◌, ◌++◌, Some, drop, length, map, slice_get};
ghost use Rattle.fr_base.specs.Device.{Puts};
ghost use Rattle.fr_text.specs.Pieces.{Spells};
ghost use Rattle.fr_text.specs.Texts.{line_of_record, text_of_records};
ghost use Rattle.fr_params.specs.Texts.{channels_text, coldstart_text, key_text, node_record, param_record, slot_record, upgraded_text};

use crate::names::{NAMES_OF_TWO, word_of};
use fr_base::{PutFault, Sink, Slot};
use fr_cluster::{NodeList, NodeSpec, ParamName, Params, SlotList, SlotSpec};
use fr_text::Piece::{Natural, Word};
use fr_text::{Line, Piece, put_line, put_text, row_of};

/// Writes the parameters as the text of a file of version 2: the version, each value in the order of the table, the
/// nodes and the further slots in ascending order. Puts have whole lines. A fault comes only where the sink counted
/// it, and then a front of the text was put. It takes no memory but what the sink does.
///
/// Where the parameters were read from a file of either version, a law says that the text is accepted as a file and
/// stands for the same parameters.
pub fn write<O: Sink>(params: &Params, out: &mut O) -> Result<(), PutFault>
    ensures { Puts result (O.state out.old) (O.state out.new) (upgraded_text params.now) }
{
    put_text(b"version,2,,,\n", out)?;
    put_values(params, &NAMES_OF_TWO, out)?;
    put_lists(&params.nodes, &params.slots, out)
}

// The records of the nodes, and then of the further slots.
fn put_lists<O: Sink>(nodes: &NodeList, slots: &SlotList, out: &mut O) -> Result<(), PutFault>
    ensures { Puts result (O.state out.old) (O.state out.new)
        (text_of_records (map node_record nodes.now) ++ text_of_records (map slot_record slots.now)) }
{
    put_nodes(nodes, 0, out)?;
    put_slots(slots, 0, out)
}

// The records of the values of some names.
fn put_values<O: Sink>(params: &Params, names: &[ParamName], out: &mut O) -> Result<(), PutFault>
    ensures { Puts result (O.state out.old) (O.state out.new)
        (text_of_records (map (param_record params.now) names.now)) }
{
    match names.split_first() {
        Some((name, rest)) => {
            put_value(params, *name, out)?;
            put_values(params, rest, out)
        }
        None => Ok(()),
    }
}

fn put_value<O: Sink>(params: &Params, name: ParamName, out: &mut O) -> Result<(), PutFault>
    ensures { Puts result (O.state out.old) (O.state out.new) (line_of_record (param_record params.now name)) }
{
    put_line(&value_line(params, name), out)
}

fn value_line(params: &Params, name: ParamName) -> Line
    ensures { result ≡ line_of_record (param_record params.now name) }
{
    row_of(
        b"param",
        &[
            Word(word_of(name)),
            Natural(params.natural(name)),
            Word(b""),
            Word(b""),
        ],
    )
}

// The records of the nodes from a place on.
fn put_nodes<O: Sink>(nodes: &NodeList, place: usize, out: &mut O) -> Result<(), PutFault>
    ensures { Puts result (O.state out.old) (O.state out.new)
        (text_of_records (map node_record (drop place nodes.now))) }
{
    if place >= nodes.len() {
        return Ok(());
    }
    put_node(nodes.node_at(place), out)?;
    put_nodes(nodes, place + 1, out)
}

fn put_node<O: Sink>(node: &NodeSpec, out: &mut O) -> Result<(), PutFault>
    ensures { Puts result (O.state out.old) (O.state out.new) (line_of_record (node_record node.now)) }
{
    put_line(&node_line(node), out)
}

fn node_line(node: &NodeSpec) -> Line
    ensures { result ≡ line_of_record (node_record node.now) }
{
    row_of(
        b"node",
        &[
            Natural(u64::from(node.id.0)),
            key_field(node.key),
            channels_field(node.on_a, node.on_b),
            coldstart_field(node.coldstart),
        ],
    )
}

fn key_field(key: Option<Slot>) -> Piece<'static>
    ensures { Spells result (key_text key) 20 }
{
    match key {
        Some(slot) => Natural(u64::from(slot.0)),
        None => Word(b""),
    }
}

fn channels_field(on_a: bool, on_b: bool) -> Piece<'static>
    ensures { Spells result (channels_text on_a on_b) 2 }
{
    match (on_a, on_b) {
        (true, true) => Word(b"AB"),
        (true, false) => Word(b"A"),
        (false, true) => Word(b"B"),
        (false, false) => Word(b""),
    }
}

fn coldstart_field(coldstart: bool) -> Piece<'static>
    ensures { Spells result (coldstart_text coldstart) 1 }
{
    if coldstart { Word(b"1") } else { Word(b"0") }
}

// The records of the further slots from a place on.
fn put_slots<O: Sink>(slots: &SlotList, place: usize, out: &mut O) -> Result<(), PutFault>
    ensures { Puts result (O.state out.old) (O.state out.new)
        (text_of_records (map slot_record (drop place slots.now))) }
{
    if place >= slots.len() {
        return Ok(());
    }
    put_slot(slot_at(slots, place), out)?;
    put_slots(slots, place + 1, out)
}

fn put_slot<O: Sink>(slot: &SlotSpec, out: &mut O) -> Result<(), PutFault>
    ensures { Puts result (O.state out.old) (O.state out.new) (line_of_record (slot_record slot.now)) }
{
    put_line(&slot_line(slot), out)
}

fn slot_line(slot: &SlotSpec) -> Line
    ensures { result ≡ line_of_record (slot_record slot.now) }
{
    row_of(
        b"slot",
        &[
            Natural(u64::from(slot.slot.0)),
            Natural(u64::from(slot.node.0)),
            Natural(u64::from(slot.base)),
            Natural(u64::from(slot.repetition)),
        ],
    )
}

fn slot_at(slots: &SlotList, place: usize) -> &SlotSpec
    requires { place < length slots.now }
    ensures { slice_get slots.now place ≡ Some result.now }
{
    match slots.get(place) {
        Some(slot) => slot,
        None => unreachable!(),
    }
}
