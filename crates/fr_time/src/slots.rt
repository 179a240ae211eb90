ghost use Rattle.std.specs.Prelude.{◌≡◌, ◌+◌, ◌≤◌, ◌<◌, pos};
ghost use Rattle.fr_cluster.specs.Values.{amount};
ghost use Rattle.fr_cluster.specs.declared.names.ParamName.TheVariants as name;
ghost use Rattle.fr_time.specs.Slots.{action_point_of, slot_end_of, slot_start_of, IsEarly};

use fr_base::Slot;
use fr_cluster::{ParamName, Params};

/// The macrotick of a static slot at which a node sends in it, from the start of the cycle (chapter 5).
pub fn action_point(params: &Params, slot: Slot) -> i64
    requires { slot ≤ amount params.now name.gNumberOfStaticSlots }
    ensures value { result ≡ pos (action_point_of params.now slot) }
    ensures early { IsEarly params.now result }
{
    let (start, _) = bounds(params, slot.0);
    (start + params.natural(ParamName::gdActionPointOffset)) as i64
}

/// The macroticks between which a static slot lies, from the start of the cycle (chapter 5): the one at
/// which it begins, and the one at which it ends and the next slot begins.
pub fn slot_bounds(params: &Params, slot: Slot) -> (i64, i64)
    requires { slot ≤ amount params.now name.gNumberOfStaticSlots }
    ensures value { result ≡ (pos (slot_start_of params.now slot), pos (slot_end_of params.now slot)) }
    ensures start { IsEarly params.now result.0 }
    ensures end { IsEarly params.now result.1 }
{
    let (start, end) = bounds(params, slot.0);
    (start as i64, end as i64)
}

fn bounds(params: &Params, slot: u16) -> (u64, u64)
    requires from { 1 ≤ slot }
    requires to { slot ≤ amount params.now name.gNumberOfStaticSlots }
    ensures value { result ≡ (slot_start_of params.now slot, slot_end_of params.now slot) }
    ensures acts { result.0 + amount params.now name.gdActionPointOffset < result.1 }
    ensures early { IsEarly params.now (pos result.1) }
{
    let length = params.value(ParamName::gdStaticSlot) as u64;
    let slot = u64::from(slot);
    ((slot - 1) * length, slot * length)
}
