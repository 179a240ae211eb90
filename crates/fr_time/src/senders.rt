ghost use Rattle.std.specs.Prelude.{◌≡◌, ◌<◌, ◌↔◌, IsNone};
ghost use Rattle.std.specs.Option.{option_map};
ghost use Rattle.fr_time.specs.Senders.{further_kind, further_sending, further_slot_of, sender_of, IsUnused};

use crate::cycles::cycle_count;
use fr_base::{NodeId, Slot};
use fr_cluster::{Params, SlotSpec};

/// The kind of a frame that a node sends in a static slot.
#[derive(Clone, Copy, Debug, PartialEq, Eq)]
pub enum Kind {
    /// A sync frame: the one of a key slot.
    SyncFrame,
    /// A frame with valid payload in a further slot.
    ValidFrame,
    /// A null frame in a further slot.
    NullFrame,
}

/// Who sends in a static slot of a cycle, and what kind of frame.
#[derive(Clone, Copy, Debug, PartialEq, Eq)]
pub struct Sending {
    pub node: NodeId,
    pub kind: Kind,
}

/// Who sends in a static slot of a cycle (chapter 5): in a key slot its node sends a sync frame in every
/// cycle; in a further slot its node sends a frame with valid payload in the cycles whose count modulo the
/// repetition is the base, and a null frame in all others. None exactly where the slot is neither. It reads
/// two places of tables at most, in constant time and without memory.
pub fn sender(params: &Params, slot: Slot, cycle: u32) -> Option<Sending>
    ensures value { result ≡ sender_of params.now slot cycle }
    ensures none { IsNone result ↔ IsUnused params.now slot }
{
    match params.key_node(slot) {
        Some(node) => Some(Sending {
            node: node.id,
            kind: Kind::SyncFrame,
        }),
        None => further(params, slot, cycle),
    }
}

fn further(params: &Params, slot: Slot, cycle: u32) -> Option<Sending>
    ensures { result ≡ option_map (further_sending cycle) (further_slot_of params.now slot) }
{
    let spec = params.further_slot(slot)?;
    Some(Sending {
        node: spec.node,
        kind: kind_in(spec, cycle),
    })
}

// What a further slot carries in a cycle.
fn kind_in(spec: &SlotSpec, cycle: u32) -> Kind
    requires { 0 < spec.now.repetition }
    ensures { result ≡ further_kind spec.now cycle }
{
    if cycle_count(cycle) % spec.repetition == spec.base {
        Kind::ValidFrame
    } else {
        Kind::NullFrame
    }
}
