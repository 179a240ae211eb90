ghost use Rattle.std.specs.Prelude.{◌≡◌, ◌-ℤ◌, ◌≤◌, pos, Ok, [], IfNone, IfSome, true};
ghost use Rattle.fr_base.specs.Timed.{IsTimed};
ghost use Rattle.fr_base.specs.Within.{IsBetween, IsWithin};
ghost use Rattle.fr_cluster.specs.Values.{amount};
ghost use Rattle.fr_cluster.specs.declared.names.ParamName.TheVariants as name;
ghost use Rattle.fr_frame.specs.Reading.{read_as};
ghost use Rattle.fr_time.specs.Instant.{IsInCycle, IsSlotOf};
ghost use Rattle.fr_time.specs.Position.{floor_of};
ghost use Rattle.fr_time.specs.Slots.{slot_end_of, slot_start_of};
ghost use Rattle.fr_reception.specs.Offers.{deviation_of};
ghost use Rattle.fr_node.specs.Arrivals.{offer_with, IfStored, LiesInSlot, LiesOutside, most_behind_start};
ghost use Rattle.fr_node.specs.Receptions.{answer_with, received_as};
ghost use Rattle.fr_measure.specs.Readings.{most_deviation};

use crate::quotients::{lies_between, quotient};
use fr_base::{Channel, NodeRow, Slot};
use fr_cluster::{ParamName, Params};
use fr_frame::{FrameFault, Header, decode};
use fr_reception::{Heard, Ignored};
use fr_time::{
    action_point, cycle_count, early_position, macros_of, micros_of, slot_bounds, slot_instants,
};

// As a rule no frame comes so many microticks before it is due.
const NEAR: i64 = 1024;

// Where and when a frame comes.
#[derive(Clone, Copy)]
pub(crate) struct Arrival {
    pub(crate) slot: Slot,
    pub(crate) channel: Channel,
    // The instant in ticks.
    pub(crate) at: i64,
}

// What the bytes are on the channel.
pub(crate) fn read(channel: Channel, bytes: &[u8]) -> Result<Header, FrameFault>
    ensures { result ≡ read_as channel bytes.now }
{
    match decode(channel, bytes) {
        Ok(frame) => Ok(frame.header),
        Err(fault) => Err(fault),
    }
}

// The length of a microtick, in ticks.
fn length_of(row: &NodeRow) -> u64
    requires { IsTimed row.now }
    ensures value { pos result ≡ row.now.length }
    ensures some { 1 ≤ result }
    ensures most { result ≤ 1_500_000 }
{
    row.length as u64
}

// The ticks from the start of a cycle to an instant in it.
fn ticks_until(row: &NodeRow, at: i64) -> u64
    requires timed { IsTimed row.now }
    requires at { IsInCycle row.now at }
    ensures value { pos result ≡ at -ℤ row.now.start }
    ensures most { result ≤ most_behind_start }
{
    (at - row.start) as u64
}

// From where the microticks of an arrival are counted: a frame that is due after so many comes behind it, as a rule.
fn before_due(due: i64) -> u64
    requires { IsBetween (pos 0) (pos 700_000) due }
    ensures { result ≤ 700_000 }
{
    if due < NEAR { 0 } else { (due - NEAR) as u64 }
}

// How many whole microticks lie between the start of a cycle and an instant in it, at which a frame comes that was
// due after so many.
fn microticks_until(row: &NodeRow, at: i64, due: i64) -> i64
    requires timed { IsTimed row.now }
    requires at { IsInCycle row.now at }
    requires due { IsBetween (pos 0) (pos 700_000) due }
    ensures value { result ≡ floor_of (at -ℤ row.now.start) row.now.length }
    ensures within { IsBetween (pos 0) (pos 700_000) result }
{
    let ticks = ticks_until(row, at);
    let length = length_of(row);
    quotient(ticks, length, before_due(due)) as i64
}

// The deviation of an arrival in its slot, in microticks.
fn deviation(params: &Params, row: &NodeRow, arrival: Arrival) -> i32
    requires slot { IsSlotOf params.now row.now arrival.slot }
    requires at { IsInCycle row.now arrival.at }
    ensures value { result ≡ deviation_of params.now row.now (offer_with arrival []) }
    ensures within { IsWithin (pos most_deviation) result }
{
    let due = early_position(params, row.rate, action_point(params, arrival.slot));
    let passed = microticks_until(row, arrival.at, due);
    (passed - params.compensation(arrival.channel) - due) as i32
}

/// What each node makes of a frame that arrives in its slot, in a cycle of the cluster: it is asked once for all
/// receivers.
#[derive(Clone, Copy, Debug, PartialEq, Eq)]
pub enum Reception {
    /// It is ignored.
    Ignored(Ignored),
    /// Its deviation is measured and stored.
    Measured,
}

/// What each node makes of a frame in a slot of a cycle, where it arrives in the slot; `told` is what its bytes are on the
/// channel.
pub fn received(
    params: &Params,
    cycle: u32,
    slot: Slot,
    told: &Result<Header, FrameFault>,
) -> Reception
    ensures { result ≡ received_as params.now cycle slot told.now }
{
    match told {
        Err(fault) => Reception::Ignored(Ignored::Damaged(*fault)),
        Ok(header) => judged(params, cycle, slot, header),
    }
}

// What each node makes of a frame with this header.
fn judged(params: &Params, cycle: u32, slot: Slot, header: &Header) -> Reception
    ensures { result ≡ received_as params.now cycle slot (Ok header.now) }
{
    let own = cycle_count(cycle);
    let words = params.natural(ParamName::gPayloadLengthStatic) as u8;
    if header.id != slot.0 {
        return Reception::Ignored(Ignored::WrongId {
            slot,
            id: header.id,
        });
    }
    if header.cycle != own {
        return Reception::Ignored(Ignored::WrongCycle {
            own,
            got: header.cycle,
        });
    }
    if header.words != words {
        return Reception::Ignored(Ignored::WrongLength {
            own: words,
            got: header.words,
        });
    }
    if !header.sync || params.key_index(slot).is_none() {
        return Reception::Ignored(Ignored::Plain);
    }
    Reception::Measured
}

// The ticks from the start of a cycle to an instant, where that lies in the cycle.
fn ticks_since(row: &NodeRow, at: i64) -> Option<u64>
    requires { IsTimed row.now }
    ensures value { IfSome result (λ ticks. pos ticks ≡ at -ℤ row.now.start) }
    ensures in_cycle { IfSome result (λ ticks. IsInCycle row.now at) }
    ensures most { IfSome result (λ ticks. ticks ≤ most_behind_start) }
{
    if at < row.start {
        return None;
    }
    let since = at - row.start;
    if since > 700_000 * row.length {
        return None;
    }
    Some(since as u64)
}

// The macroticks between which a static slot lies.
fn bounds_of(params: &Params, slot: Slot) -> (u64, u64)
    requires { slot ≤ amount params.now name.gNumberOfStaticSlots }
    ensures value { result ≡ (slot_start_of params.now slot, slot_end_of params.now slot) }
    ensures begin { result.0 ≤ 16_000 }
    ensures end { result.1 ≤ 16_000 }
{
    let (begin, end) = slot_bounds(params, slot);
    (begin as u64, end as u64)
}

// Whether a frame lies in its slot by more than a microtick, which takes no division. Most that are heard do.
pub(crate) fn is_well_within(params: &Params, row: &NodeRow, slot: Slot, at: i64) -> bool
    requires slot { IsSlotOf params.now row.now slot }
    ensures { result ≡ true → LiesInSlot params.now row.now slot at }
{
    let Some(ticks) = ticks_since(row, at) else {
        return false;
    };
    let (begin, end) = bounds_of(params, slot);
    let micros = micros_of(params, row);
    let macros = macros_of(params);
    lies_between(begin, end, micros, macros, length_of(row), ticks)
}

// The instants at which its slot begins and ends at a node, where a frame does not arrive between them.
pub(crate) fn outside(params: &Params, row: &NodeRow, slot: Slot, at: i64) -> Option<(i64, i64)>
    requires { IsSlotOf params.now row.now slot }
    ensures out { IfSome result (LiesOutside params.now row.now slot at) }
    ensures within { IfNone result (LiesInSlot params.now row.now slot at) }
{
    let (from, to) = slot_instants(params, row, slot);
    if at < from || at >= to {
        return Some((from, to));
    }
    None
}

// The answer of a node with this row to a frame of which this is made where it arrives in its slot. Where it does not, the
// instants are given at which the slot begins and ends at the node.
#[inline(always)]
pub(crate) fn answer(
    params: &Params,
    row: &NodeRow,
    arrival: Arrival,
    missed: Option<(i64, i64)>,
    reception: &Reception,
) -> Heard
    requires slot { IsSlotOf params.now row.now arrival.slot }
    requires out { IfSome missed (LiesOutside params.now row.now arrival.slot arrival.at) }
    requires within { IfNone missed (LiesInSlot params.now row.now arrival.slot arrival.at) }
    ensures value { result ≡ answer_with params.now row.now (offer_with arrival []) reception.now }
    ensures within { IfStored result (IsWithin (pos most_deviation)) }
{
    if let Some((from, to)) = missed {
        return Heard::Ignored(Ignored::Outside {
            arrival: arrival.at,
            from,
            to,
        });
    }
    match reception {
        Reception::Ignored(why) => Heard::Ignored(*why),
        Reception::Measured => Heard::Stored(deviation(params, row, arrival)),
    }
}
