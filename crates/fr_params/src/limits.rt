ghost use Rattle.std.specs.Prelude.{◌≡◌, ◌≢◌, ◌<◌, ◌≤◌, ◌↔◌, ℕ, IsTrue, IfSome, IfNone, IfOk, All, AllPairs, Contains};
ghost use Rattle.fr_cluster.specs.Ranges.{greatest};
ghost use Rattle.fr_cluster.specs.Numbers.{AreInRange, amount_in, number_in};
ghost use Rattle.fr_cluster.specs.Constraints.{ActsInSlot, AllHold, AreFreeSlots, AreKeySlots, CorrectsAfterSlots, FirstFails, HasSyncNodes, IsPassiveFirst, IsWholeCycle, LeavesMicroticks, key_slots, static_macros};
ghost use Rattle.fr_cluster.specs.declared.names.ParamName.TheVariants as name;

use crate::names::place_of;
use fr_base::Slot;
use fr_cluster::{NodeSpec, ParamName, SlotSpec};
use std::alloc::{AllocError, Global};
use std::cmp::Ordering;

const GREATER_COMPENSATION: usize = ParamName::pDelayCompensation as usize;

// The least number of a constraint that fails, None where all eight hold.
pub(crate) fn first_failing(numbers: &[i64; 20], keys: &[Slot], slots: &[SlotSpec]) -> Option<u8>
    requires { AreInRange numbers.now }
    ensures failing { IfSome result (λ number. FirstFails number (amount_in numbers.now) keys.now slots.now) }
    ensures all { IfNone result (AllHold (amount_in numbers.now) keys.now slots.now) }
{
    if !is_whole_cycle(numbers) {
        return Some(1);
    }
    if !acts_in_slot(numbers) {
        return Some(2);
    }
    if !corrects_after_slots(numbers) {
        return Some(3);
    }
    if !leaves_microticks(numbers) {
        return Some(4);
    }
    if !is_passive_first(numbers) {
        return Some(5);
    }
    if !has_sync_nodes(keys) {
        return Some(6);
    }
    if !are_key_slots(numbers, keys) {
        return Some(7);
    }
    if !are_free_slots(numbers, keys, slots) {
        return Some(8);
    }
    None
}

fn amount(numbers: &[i64; 20], name: ParamName) -> u64
    requires { AreInRange numbers.now }
    ensures value { result ≡ amount_in numbers.now name }
    ensures most { result ≤ greatest name }
{
    number(numbers, name) as u64
}

// The numbers stand in the order of the second version's table. It has no number for the greater of both
// compensations, so those after this name stand one place before their name's.
fn number(numbers: &[i64; 20], name: ParamName) -> i64
    ensures { result ≡ number_in numbers.now name }
{
    let place = place_of(name);
    match place.cmp(&GREATER_COMPENSATION) {
        Ordering::Less => numbers[place],
        Ordering::Equal => numbers[GREATER_COMPENSATION].max(numbers[GREATER_COMPENSATION + 1]),
        Ordering::Greater => numbers[place - 1],
    }
}

fn static_macros_of(numbers: &[i64; 20]) -> u64
    requires { AreInRange numbers.now }
    ensures value { result ≡ static_macros (amount_in numbers.now) }
    ensures most { result ≤ 1023000 }
{
    amount(numbers, ParamName::gNumberOfStaticSlots) * amount(numbers, ParamName::gdStaticSlot)
}

fn is_whole_cycle(numbers: &[i64; 20]) -> bool
    requires { AreInRange numbers.now }
    ensures { IsTrue result ↔ IsWholeCycle (amount_in numbers.now) }
{
    amount(numbers, ParamName::gMacroPerCycle)
        == static_macros_of(numbers) + amount(numbers, ParamName::gdNIT)
}

fn acts_in_slot(numbers: &[i64; 20]) -> bool
    requires { AreInRange numbers.now }
    ensures { IsTrue result ↔ ActsInSlot (amount_in numbers.now) }
{
    amount(numbers, ParamName::gdActionPointOffset) < amount(numbers, ParamName::gdStaticSlot)
}

fn corrects_after_slots(numbers: &[i64; 20]) -> bool
    requires { AreInRange numbers.now }
    ensures { IsTrue result ↔ CorrectsAfterSlots (amount_in numbers.now) }
{
    let start = amount(numbers, ParamName::gOffsetCorrectionStart);
    static_macros_of(numbers) < start && start < amount(numbers, ParamName::gMacroPerCycle)
}

fn leaves_microticks(numbers: &[i64; 20]) -> bool
    requires { AreInRange numbers.now }
    ensures { IsTrue result ↔ LeavesMicroticks (amount_in numbers.now) }
{
    let macros = amount(numbers, ParamName::gMacroPerCycle);
    let correction = macros.saturating_sub(amount(numbers, ParamName::gOffsetCorrectionStart));
    let micros = amount(numbers, ParamName::pMicroPerCycle).saturating_sub(amount(
        numbers,
        ParamName::pRateCorrectionOut,
    ));
    let offset = amount(numbers, ParamName::pOffsetCorrectionOut);
    macros * (correction + offset + 1) <= micros * correction
}

fn is_passive_first(numbers: &[i64; 20]) -> bool
    requires { AreInRange numbers.now }
    ensures { IsTrue result ↔ IsPassiveFirst (amount_in numbers.now) }
{
    amount(numbers, ParamName::gMaxWithoutClockCorrectionPassive)
        <= amount(numbers, ParamName::gMaxWithoutClockCorrectionFatal)
}

// The key slots of nodes, in their order.
pub(crate) fn key_slots_of(alloc: Global, nodes: &[NodeSpec]) -> Result<Vec<Slot>, AllocError>
    ensures { IfOk result (λ keys. keys.items ≡ key_slots nodes.now) }
{
    nodes.iter().filter_map(|node| node.key).collect(alloc)
}

fn has_sync_nodes(keys: &[Slot]) -> bool
    ensures { IsTrue result ↔ HasSyncNodes keys.now }
{
    1 <= keys.len() && keys.len() <= 15
}

fn are_key_slots(numbers: &[i64; 20], keys: &[Slot]) -> bool
    requires { AreInRange numbers.now }
    ensures { IsTrue result ↔ AreKeySlots (amount_in numbers.now name.gNumberOfStaticSlots) keys.now }
{
    let limit = amount(numbers, ParamName::gNumberOfStaticSlots);
    keys.iter().all(|key| u64::from(key.0) <= limit) && all_differ(keys)
}

fn all_differ(keys: &[Slot]) -> bool
    ensures { IsTrue result ↔ AllPairs (λ a b. a ≢ b) keys.now }
{
    for (place, key) in keys.iter().enumerate() {
        if is_among(&keys[..place], key) {
            return false;
        }
    }
    true
}

fn is_among(keys: &[Slot], key: &Slot) -> bool
    ensures { IsTrue result ↔ Contains keys.now key.now }
{
    keys.contains(key)
}

fn are_free_slots(numbers: &[i64; 20], keys: &[Slot], slots: &[SlotSpec]) -> bool
    requires { AreInRange numbers.now }
    ensures { IsTrue result ↔ AreFreeSlots (amount_in numbers.now name.gNumberOfStaticSlots) keys.now slots.now }
{
    let limit = amount(numbers, ParamName::gNumberOfStaticSlots);
    slots.iter().all(|slot| u64::from(slot.slot.0) <= limit && !is_among(keys, &slot.slot))
}
