ghost use Rattle.std.specs.Prelude.{◌≡◌, ◌==◌, map, count_by, nat_lt, IfOk};
ghost use Rattle.std.specs.Option.{option_copied};
ghost use Rattle.std.specs.List.{list_any, range_with_len};
ghost use Rattle.fr_cluster.specs.Constraints.{key_slots};
ghost use Rattle.fr_cluster.specs.Searches.{is_key, key_index_in, key_node_in, node_in, slot_in};

use fr_cluster::{NodeList, NodeSpec, SlotList, SlotSpec};
use std::alloc::{AllocError, Global};

// The list of these nodes.
pub(crate) fn node_list(alloc: Global, nodes: Vec<NodeSpec>) -> Result<NodeList, AllocError>
    ensures { IfOk result (λ list. list ≡ nodes.items) }
{
    let by_id = nodes_by_id(alloc, &nodes)?;
    let by_key = nodes_by_key(alloc, &nodes)?;
    let indices = indices_by_key(alloc, &nodes)?;
    Ok(NodeList::new(nodes, by_id, by_key, indices))
}

// The list of these further slots.
pub(crate) fn slot_list(alloc: Global, slots: Vec<SlotSpec>) -> Result<SlotList, AllocError>
    ensures { IfOk result (λ list. list ≡ slots.items) }
{
    let by_number = slots_by_number(alloc, &slots)?;
    Ok(SlotList::new(slots, by_number))
}

// The node of each number from 0 to 64.
fn nodes_by_id(alloc: Global, nodes: &[NodeSpec]) -> Result<Vec<Option<NodeSpec>>, AllocError>
    ensures { IfOk result (λ found. found.items ≡ map (node_in nodes.now) (range_with_len 0 65)) }
{
    (0..65).map(|id| node_of(nodes, id).copied()).collect(alloc)
}

// The node of each slot from 0 to 1023 that is a key slot.
fn nodes_by_key(alloc: Global, nodes: &[NodeSpec]) -> Result<Vec<Option<NodeSpec>>, AllocError>
    ensures { IfOk result (λ found. found.items ≡ map (key_node_in nodes.now) (range_with_len 0 1024)) }
{
    (0..1024)
        .map(|slot| key_node_of(nodes, slot).copied())
        .collect(alloc)
}

// The place among the key slots of each slot from 0 to 1023 that is one.
fn indices_by_key(alloc: Global, nodes: &[NodeSpec]) -> Result<Vec<Option<usize>>, AllocError>
    ensures { IfOk result (λ found. found.items ≡ map (key_index_in nodes.now) (range_with_len 0 1024)) }
{
    (0..1024)
        .map(|slot| key_index_of(nodes, slot))
        .collect(alloc)
}

// The further slot of each number from 0 to 1023.
fn slots_by_number(alloc: Global, slots: &[SlotSpec]) -> Result<Vec<Option<SlotSpec>>, AllocError>
    ensures { IfOk result (λ found. found.items ≡ map (slot_in slots.now) (range_with_len 0 1024)) }
{
    (0..1024)
        .map(|number| slot_of(slots, number).copied())
        .collect(alloc)
}

fn node_of(nodes: &[NodeSpec], wanted: u16) -> Option<&NodeSpec>
    ensures { option_copied result ≡ node_in nodes.now wanted }
{
    nodes.iter().find(|node| u16::from(node.id.0) == wanted)
}

fn key_node_of(nodes: &[NodeSpec], wanted: u16) -> Option<&NodeSpec>
    ensures { option_copied result ≡ key_node_in nodes.now wanted }
{
    nodes.iter().find(|node| has_key(node, wanted))
}

fn has_key(node: &NodeSpec, wanted: u16) -> bool
    ensures { result ≡ is_key node.now.key wanted }
{
    match node.key {
        None => false,
        Some(key) => key.0 == wanted,
    }
}

fn key_index_of(nodes: &[NodeSpec], wanted: u16) -> Option<usize>
    ensures { result ≡ key_index_in nodes.now wanted }
{
    if is_key_slot(nodes, wanted) {
        Some(keys_below(nodes, wanted))
    } else {
        None
    }
}

fn is_key_slot(nodes: &[NodeSpec], wanted: u16) -> bool
    ensures { result ≡ list_any (λ key. key == wanted) (key_slots nodes.now) }
{
    nodes
        .iter()
        .filter_map(|node| node.key)
        .any(|key| key.0 == wanted)
}

fn keys_below(nodes: &[NodeSpec], wanted: u16) -> usize
    ensures { result ≡ count_by (λ key. nat_lt key wanted) (key_slots nodes.now) }
{
    nodes
        .iter()
        .filter_map(|node| node.key)
        .filter(|key| key.0 < wanted)
        .count()
}

fn slot_of(slots: &[SlotSpec], wanted: u16) -> Option<&SlotSpec>
    ensures { option_copied result ≡ slot_in slots.now wanted }
{
    slots.iter().find(|spec| spec.slot.0 == wanted)
}
