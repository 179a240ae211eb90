ghost use Rattle.std.specs.Prelude.{◌≡◌, ◌<◌, Some, length, map, slice_get};
ghost use Rattle.std.specs.List.{range_with_len};
ghost use Rattle.std.specs.Option.{option_copied};
ghost use Rattle.std.specs.Slice.{IsItemAt};
ghost use Rattle.fr_cluster.specs.Searches.{AreFound, key_index_in, key_node_in, node_in, slot_in};

use crate::nodes::{NodeSpec, SlotSpec};
use fr_base::{NodeId, Slot};
use std::marker::Model;

/// The nodes of a cluster, seen as a list. That of a `Params` is in ascending order of id.
/// What a search by number or by key slot finds is kept beside it, so that an answer reads one place.
pub struct NodeList {
    nodes: Vec<NodeSpec>,
    by_id: Vec<Option<NodeSpec>>,
    by_key: Vec<Option<NodeSpec>>,
    indices: Vec<Option<usize>>,
}

impl Model for NodeList {
    ghost use Rattle.std.specs.Prelude.{List};
    ghost use Rattle.fr_cluster.specs.declared.nodes.NodeSpec.{NodeSpec};

    ghost Value = { List NodeSpec };

    ghost use Rattle.fr_cluster.specs.Searches.{AreFound};

    ghost view = { λ a. a.nodes.items };

    ghost invariant = { λ a. AreFound a.nodes.items a.by_id.items a.by_key.items a.indices.items };
}

// One call: a derived drop is opened in each function that drops a value, and proved there.
impl Drop for NodeList {
    fn drop(self) {
        let NodeList {
            nodes: _,
            by_id: _,
            by_key: _,
            indices: _,
        } = self;
    }
}

impl NodeList {
    /// The list of these nodes, with the node of each number from 0 to 64 and of each key slot from 0 to 1023, and
    /// the place among the key slots of each that is one.
    pub fn new(
        nodes: Vec<NodeSpec>,
        by_id: Vec<Option<NodeSpec>>,
        by_key: Vec<Option<NodeSpec>>,
        indices: Vec<Option<usize>>,
    ) -> NodeList
        requires { AreFound nodes.items by_id.items by_key.items indices.items }
        ensures { result ≡ nodes.items }
    {
        NodeList {
            nodes,
            by_id,
            by_key,
            indices,
        }
    }

    pub(crate) fn with_id(&self, id: NodeId) -> Option<&NodeSpec>
        ensures { option_copied result ≡ node_in self.now id }
    {
        self.by_id[usize::from(id.0)].as_ref()
    }

    pub(crate) fn with_key(&self, slot: Slot) -> Option<&NodeSpec>
        ensures { option_copied result ≡ key_node_in self.now slot }
    {
        self.by_key[usize::from(slot.0)].as_ref()
    }

    pub(crate) fn key_index(&self, slot: Slot) -> Option<usize>
        ensures { result ≡ key_index_in self.now slot }
    {
        self.indices[usize::from(slot.0)]
    }

    /// How many nodes there are.
    pub fn len(&self) -> usize
        ensures { result ≡ length self.now }
    {
        self.nodes.len()
    }

    /// The node at a place, counted from 0; None exactly past the end.
    pub fn get(&self, place: usize) -> Option<&NodeSpec>
        ensures { IsItemAt self.now place result }
    {
        self.nodes.get(place)
    }

    /// The node at a place where there is one.
    pub fn node_at(&self, place: usize) -> &NodeSpec
        requires { place < length self.now }
        ensures { slice_get self.now place ≡ Some result.now }
    {
        match self.get(place) {
            Some(node) => node,
            None => unreachable!(),
        }
    }
}

/// The further slots of a cluster, seen as a list. That of a `Params` is in ascending order of slot.
/// What a search by number finds is kept beside it, so that an answer reads one place.
pub struct SlotList {
    slots: Vec<SlotSpec>,
    by_number: Vec<Option<SlotSpec>>,
}

impl Model for SlotList {
    ghost use Rattle.std.specs.Prelude.{List};
    ghost use Rattle.fr_cluster.specs.declared.nodes.SlotSpec.{SlotSpec};

    ghost Value = { List SlotSpec };

    ghost use Rattle.std.specs.Prelude.{◌≡◌, map};
    ghost use Rattle.std.specs.List.{range_with_len};
    ghost use Rattle.fr_cluster.specs.Searches.{slot_in};

    ghost view = { λ a. a.slots.items };

    ghost invariant = { λ a. a.by_number.items ≡ map (slot_in a.slots.items) (range_with_len 0 1024) };
}

// One call: a derived drop is opened in each function that drops a value, and proved there.
impl Drop for SlotList {
    fn drop(self) {
        let SlotList {
            slots: _,
            by_number: _,
        } = self;
    }
}

impl SlotList {
    /// The list of these slots, with the slot of each number from 0 to 1023.
    pub fn new(slots: Vec<SlotSpec>, by_number: Vec<Option<SlotSpec>>) -> SlotList
        requires { by_number.items ≡ map (slot_in slots.items) (range_with_len 0 1024) }
        ensures { result ≡ slots.items }
    {
        SlotList { slots, by_number }
    }

    pub(crate) fn with_number(&self, slot: Slot) -> Option<&SlotSpec>
        ensures { option_copied result ≡ slot_in self.now slot }
    {
        self.by_number[usize::from(slot.0)].as_ref()
    }

    /// How many further slots there are.
    pub fn len(&self) -> usize
        ensures { result ≡ length self.now }
    {
        self.slots.len()
    }

    /// The slot at a place, counted from 0; None exactly past the end.
    pub fn get(&self, place: usize) -> Option<&SlotSpec>
        ensures { IsItemAt self.now place result }
    {
        self.slots.get(place)
    }
}
