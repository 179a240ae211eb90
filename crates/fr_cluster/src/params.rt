ghost use Rattle.std.specs.Prelude.{pos, ◌≤ℤ◌, ◌≡◌, ◌≤◌, ◌<◌, ◌+◌, ◌*◌, IfSome, Some, is_none, length, slice_get};
ghost use Rattle.std.specs.Option.{option_copied};
ghost use Rattle.fr_cluster.specs.Ranges.{greatest, least, InRange, IsProperSlot};
ghost use Rattle.fr_cluster.specs.Values.{amount, figure};
ghost use Rattle.fr_cluster.specs.Numbers.{AreInRange, amount_in, number_in};
ghost use Rattle.fr_cluster.specs.Constraints.{AllHold, key_slots};
ghost use Rattle.fr_cluster.specs.Sane.{AreSaneLists, IsSane};
ghost use Rattle.fr_cluster.specs.Searches.{key_node_in, slot_in};
ghost use Rattle.fr_cluster.specs.Questions.{compensation_of, has_channel, is_coldstart, is_common, is_known, key_index_of, node_of, own_index, own_key, widest_compensation_of};
ghost use Rattle.fr_cluster.specs.declared.names.ParamName.{ParamName as Name};
ghost use Rattle.fr_cluster.specs.declared.names.ParamName.TheVariants as name;

use crate::lists::{NodeList, SlotList};
use crate::names::ParamName;
use crate::nodes::{NodeSpec, SlotSpec};
use fr_base::{Channel, NodeId, Slot};
use std::marker::Model;

/// The parameters of a cluster, as an accepted file has them: each number lies in its range, and the
/// numbers, nodes and slots meet the eight constraints.
pub struct Params {
    /// Macroticks per cycle.
    pub macros: i64,
    /// Microticks per cycle before correction.
    pub micros: i64,
    /// Static slots per cycle.
    pub static_slots: i64,
    /// Macroticks per static slot.
    pub slot_macros: i64,
    /// Macroticks from the start of a static slot to its action point.
    pub action_offset: i64,
    /// Macroticks of the rest of the cycle after the static slots.
    pub idle_macros: i64,
    /// Two-byte words of payload per static frame.
    pub words: i64,
    /// The macrotick at which the offset correction starts.
    pub correction: i64,
    /// Double cycles without correction until a node is passive.
    pub max_passive: i64,
    /// Double cycles without correction until a node may halt.
    pub max_fatal: i64,
    /// Whether a node may halt, 0 or 1.
    pub halt_allowed: i64,
    /// Good double cycles until a passive node is active; 0: never.
    pub to_active: i64,
    /// Microticks by which the rate term is damped.
    pub damping: i64,
    /// Limit of the offset term in microticks.
    pub offset_limit: i64,
    /// Limit of the rate term in microticks.
    pub rate_limit: i64,
    /// Microticks that are taken off each arrival measured on channel A.
    pub compensation_a: i64,
    /// Microticks that are taken off each arrival measured on channel B.
    pub compensation_b: i64,
    /// Greatest distance of a microtick's length from nominal, in ticks.
    pub rate_bound: i64,
    /// Greatest change of that length from one cycle to the next, in ticks.
    pub change_bound: i64,
    /// Greatest distance of a delay from its channel's compensation, in ticks.
    pub delay_error: i64,
    /// The nodes, in ascending order of id.
    pub nodes: NodeList,
    /// The further slots, in ascending order of slot.
    pub slots: SlotList,
}

impl Model for Params {
    ghost use Rattle.fr_cluster.specs.Values.{Values};

    ghost Value = { Values };

    ghost use Rattle.fr_cluster.specs.View.{values_of_params};
    ghost use Rattle.fr_cluster.specs.Sane.{IsSane};

    ghost view = { values_of_params };

    ghost invariant = { λ a. IsSane (values_of_params a) };
}

// One call: a derived drop is opened in each function that drops a value, and proved there.
impl Drop for Params {
    fn drop(self) {
        let Params {
            macros: _,
            micros: _,
            static_slots: _,
            slot_macros: _,
            action_offset: _,
            idle_macros: _,
            words: _,
            correction: _,
            max_passive: _,
            max_fatal: _,
            halt_allowed: _,
            to_active: _,
            damping: _,
            offset_limit: _,
            rate_limit: _,
            compensation_a: _,
            compensation_b: _,
            rate_bound: _,
            change_bound: _,
            delay_error: _,
            nodes: _,
            slots: _,
        } = self;
    }
}

impl Params {
    /// The parameters of these numbers, in the order of the second version's table, of these nodes and further
    /// slots. A cluster with one delay compensation for both channels has it twice.
    pub fn new(numbers: &[i64; 20], nodes: NodeList, slots: SlotList) -> Params
        requires ranged { AreInRange numbers.now }
        requires constraints { AllHold (amount_in numbers.now) (key_slots nodes) slots }
        requires lists { AreSaneLists nodes slots }
        ensures figures { (n : Name) → figure result n ≡ number_in numbers.now n }
        ensures nodes { result.nodes ≡ nodes }
        ensures slots { result.slots ≡ slots }
        ensures sane { IsSane result }
    {
        Params {
            macros: numbers[0],
            micros: numbers[1],
            static_slots: numbers[2],
            slot_macros: numbers[3],
            action_offset: numbers[4],
            idle_macros: numbers[5],
            words: numbers[6],
            correction: numbers[7],
            max_passive: numbers[8],
            max_fatal: numbers[9],
            halt_allowed: numbers[10],
            to_active: numbers[11],
            damping: numbers[12],
            offset_limit: numbers[13],
            rate_limit: numbers[14],
            compensation_a: numbers[15],
            compensation_b: numbers[16],
            rate_bound: numbers[17],
            change_bound: numbers[18],
            delay_error: numbers[19],
            nodes,
            slots,
        }
    }

    /// The number of a name, which lies in its range; and so do all others.
    pub fn value(&self, name: ParamName) -> i64
        ensures value { result ≡ figure self.now name }
        ensures range { InRange name result }
        ensures sane { IsSane self.now }
    {
        let _nodes = &self.nodes;
        self.figure(name)
    }

    /// The number of a name as a natural, in its range: what computes with the parameters stands on it.
    pub fn natural(&self, name: ParamName) -> u64
        ensures value { result ≡ amount self.now name }
        ensures from { least name ≤ result }
        ensures to { result ≤ greatest name }
    {
        self.value(name) as u64
    }

    /// The delay compensation of a channel in microticks: what is taken off each arrival that is measured
    /// there.
    pub fn compensation(&self, channel: Channel) -> i64
        ensures value { result ≡ compensation_of self.now channel }
        ensures from { pos 0 ≤ℤ result }
        ensures to { result ≤ℤ pos 200 }
    {
        match channel {
            Channel::A => self.value(ParamName::pDelayCompensationA),
            Channel::B => self.value(ParamName::pDelayCompensationB),
        }
    }

    /// The greater of the compensations of both channels, in microticks.
    pub fn widest_compensation(&self) -> i64
        ensures value { result ≡ widest_compensation_of self.now }
        ensures from { pos 0 ≤ℤ result }
        ensures to { result ≤ℤ pos 200 }
    {
        self.compensation(Channel::A)
            .max(self.compensation(Channel::B))
    }

    /// The node of a number; None exactly where there is none. It reads one place of a table, in
    /// constant time and without memory.
    pub fn node(&self, id: NodeId) -> Option<&NodeSpec>
        ensures value { option_copied result ≡ node_of self.now id }
    {
        self.nodes.with_id(id)
    }

    /// The place of a slot among the key slots in ascending order, from 0; None exactly where it is none.
    /// It reads one place of a table, in constant time and without memory.
    pub fn key_index(&self, slot: Slot) -> Option<usize>
        ensures value { result ≡ key_index_of self.now slot }
        ensures most { IfSome result (λ index. index < 15) }
    {
        self.nodes.key_index(slot)
    }

    /// The node whose key slot a slot is; None exactly where it is no key slot. It reads one place of a
    /// table, in constant time and without memory.
    pub fn key_node(&self, slot: Slot) -> Option<&NodeSpec>
        ensures { option_copied result ≡ key_node_in self.now.nodes slot }
    {
        self.nodes.with_key(slot)
    }

    /// The further slot of a number; None exactly where there is none. It reads one place of a table, in
    /// constant time and without memory.
    pub fn further_slot(&self, slot: Slot) -> Option<&SlotSpec>
        ensures value { option_copied result ≡ slot_in self.now.slots slot }
        ensures proper { IfSome result (λ spec. IsProperSlot spec.now) }
    {
        self.slots.with_number(slot)
    }

    /// The place of a node's own key slot among the key slots, if it has one.
    pub fn own_key_index(&self, id: NodeId) -> Option<usize>
        ensures { result ≡ own_index self.now id }
    {
        match self.node(id) {
            None => None,
            Some(node) => match node.key {
                None => None,
                Some(slot) => self.key_index(slot),
            },
        }
    }

    /// Whether there is such a node.
    pub fn is_known(&self, id: NodeId) -> bool
        ensures { result ≡ is_known self.now id }
    {
        self.node(id).is_some()
    }

    /// Whether a node has no key slot; true where there is no such node.
    pub fn lacks_key(&self, id: NodeId) -> bool
        ensures { result ≡ is_none (own_key self.now id) }
    {
        match self.node(id) {
            Some(node) => node.key.is_none(),
            None => true,
        }
    }

    /// Whether a node is a coldstart node; false where there is no such node.
    pub fn is_coldstart(&self, id: NodeId) -> bool
        ensures { result ≡ is_coldstart self.now id }
    {
        match self.node(id) {
            None => false,
            Some(node) => node.coldstart,
        }
    }

    /// How many nodes there are.
    pub fn node_count(&self) -> usize
        ensures value { result ≡ length self.now.nodes }
        ensures few { result ≤ 64 }
    {
        self.nodes.len()
    }

    /// The node at a place, of so many.
    pub fn node_at(&self, place: usize) -> &NodeSpec
        requires { place < length self.now.nodes }
        ensures { slice_get self.now.nodes place ≡ Some result.now }
    {
        self.nodes.node_at(place)
    }

    /// Whether the node is there and has the channel. It reads a place of a table, in constant time.
    pub fn has_channel(&self, node: NodeId, channel: Channel) -> bool
        ensures { result ≡ has_channel (node_of self.now node) channel }
    {
        match self.node(node) {
            None => false,
            Some(node) => node.has_channel(channel),
        }
    }

    /// Whether both nodes are there and have the channel. It reads a place of a table for each, in
    /// constant time and without memory.
    pub fn common(&self, a: NodeId, b: NodeId, channel: Channel) -> bool
        ensures { result ≡ is_common self.now a b channel }
    {
        self.has_channel(a, channel) && self.has_channel(b, channel)
    }

    /// How many bytes a frame of the cluster has: 5 header bytes, 3 trailer bytes and the payload.
    pub fn frame_bytes(&self) -> usize
        ensures value { result ≡ 8 + 2 * amount self.now name.gPayloadLengthStatic }
        ensures most { result ≤ 262 }
    {
        8 + 2 * self.natural(ParamName::gPayloadLengthStatic) as usize
    }

    fn figure(&self, name: ParamName) -> i64
        ensures { result ≡ figure self.now name }
    {
        match name {
            ParamName::gMacroPerCycle => self.macros,
            ParamName::pMicroPerCycle => self.micros,
            ParamName::gNumberOfStaticSlots => self.static_slots,
            ParamName::gdStaticSlot => self.slot_macros,
            ParamName::gdActionPointOffset => self.action_offset,
            ParamName::gdNIT => self.idle_macros,
            ParamName::gPayloadLengthStatic => self.words,
            ParamName::gOffsetCorrectionStart => self.correction,
            ParamName::gMaxWithoutClockCorrectionPassive => self.max_passive,
            ParamName::gMaxWithoutClockCorrectionFatal => self.max_fatal,
            ParamName::pAllowHaltDueToClock => self.halt_allowed,
            ParamName::pAllowPassiveToActive => self.to_active,
            ParamName::pClusterDriftDamping => self.damping,
            ParamName::pOffsetCorrectionOut => self.offset_limit,
            ParamName::pRateCorrectionOut => self.rate_limit,
            ParamName::pDelayCompensation => self.compensation_a.max(self.compensation_b),
            ParamName::pDelayCompensationA => self.compensation_a,
            ParamName::pDelayCompensationB => self.compensation_b,
            ParamName::xRateBound => self.rate_bound,
            ParamName::xChangeBound => self.change_bound,
            ParamName::xDelayError => self.delay_error,
        }
    }
}
