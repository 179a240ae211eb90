ghost use Rattle.std.specs.Prelude.{◌≡◌, ◌≤◌, ◌/◌, ◌+ℤ◌, ◌-ℤ◌, ◌*ℤ◌, int_lt, pos, length, IfSome, Some};
ghost use Rattle.std.specs.Option.{option_copied, option_map};
ghost use Rattle.fr_base.specs.Timed.{IsLength};
ghost use Rattle.fr_base.specs.Within.{IsBetween, IsWithin};
ghost use Rattle.fr_bound.specs.Bounds.{arrival_error};
ghost use Rattle.fr_cluster.specs.Values.{amount, Values};
ghost use Rattle.fr_cluster.specs.declared.names.ParamName.TheVariants as name;
ghost use Rattle.fr_history.specs.History.{History, Record, row_of};
ghost use Rattle.fr_precision.specs.Instants.{gap_of};
ghost use Rattle.fr_time.specs.Instant.{instant_of, KeepsLimits};
ghost use Rattle.fr_time.specs.Cycles.{is_odd};
ghost use Rattle.fr_time.specs.Position.{floor_of, grid_for};
ghost use Rattle.fr_time.specs.Slots.{action_point_of, IsEarly};
ghost use Rattle.fr_trace.specs.Cycles.{history_by, kept_of};
ghost use Rattle.fr_trace.specs.Items.{Item};
ghost use Rattle.fr_trace.specs.Trace.{TraceView};
ghost use Rattle.fr_verdict.specs.Breach.{halted_state, is_away, sender_is_away, sender_row, silent_state};
ghost use Rattle.fr_verdict.specs.Search.{breach_at};
ghost use Rattle.fr_verdict.specs.Sound.{IsSound};
ghost use Rattle.fr_check.specs.Allowed.{allowed_by, limits_by, dev_limits_of, outside_of, silent_by, AreTicks, IsAllowedFor, most_gap, most_limit};

use crate::apart::apart;
use crate::first::first_of;
use crate::past::{any_row, sound_row};
use fr_base::{Dev, NodeRow, Slot, State};
use fr_cluster::{NodeSpec, ParamName, Params};
use fr_time::{action_point, grid_of, instant};
use fr_trace::{Trace, TracedCycle};
use fr_verdict::{Unlawful, is_named};

// The row of the correct node whose key slot a slot is.
fn sender_row<'a>(params: &Params, cycle: &'a TracedCycle, slot: Slot) -> Option<&'a NodeRow>
    requires { IsSound params.now (kept_of cycle.now) }
    ensures value { option_copied result ≡ sender_row params.now (kept_of cycle.now) slot }
    ensures keeps { IfSome result (λ row. KeepsLimits params.now row.now) }
{
    match params.key_node(slot) {
        None => None,
        Some(node) => sound_row(params, cycle, node.id),
    }
}

// Whether a node is correct and has no row in a cycle.
fn is_away(trace: &Trace, cycle: &TracedCycle, node: &NodeSpec) -> bool
    ensures { result ≡ is_away trace.now (kept_of cycle.now) node.now }
{
    !is_named(trace, node.id) && any_row(cycle, node.id).is_none()
}

// Whether the node whose key slot a slot is is.
fn sender_is_away(params: &Params, trace: &Trace, cycle: &TracedCycle, slot: Slot) -> bool
    ensures { result ≡ sender_is_away params.now trace.now (kept_of cycle.now) slot }
{
    match params.key_node(slot) {
        None => false,
        Some(node) => is_away(trace, cycle, &node),
    }
}

// The same by the row of that node: one with a row is not looked for.
fn is_away_by(
    params: &Params,
    trace: &Trace,
    cycle: &TracedCycle,
    slot: Slot,
    sender: Option<&NodeRow>,
) -> bool
    requires { option_copied sender ≡ sender_row params.now (kept_of cycle.now) slot }
    ensures { result ≡ sender_is_away params.now trace.now (kept_of cycle.now) slot }
{
    match sender {
        Some(_) => false,
        None => sender_is_away(params, trace, cycle, slot),
    }
}

fn halted_state(receiver: Option<&NodeRow>) -> Option<State>
    ensures { result ≡ halted_state (option_copied receiver.entry) }
{
    match receiver {
        None => None,
        Some(receiver) => {
            if receiver.state.is_halted() {
                Some(receiver.state)
            } else {
                None
            }
        }
    }
}

// The state for which there can be no deviation.
fn silent_state(sender: Option<&NodeRow>, receiver: Option<&NodeRow>) -> Option<State>
    ensures { result ≡ silent_state (option_copied sender.entry) (option_copied receiver.entry) }
{
    match sender {
        None => halted_state(receiver),
        Some(sender) => {
            if sender.state.is_active() {
                halted_state(receiver)
            } else {
                Some(sender.state)
            }
        }
    }
}

// That state, which is told of no sender that is away.
fn silent_by(away: bool, sender: Option<&NodeRow>, receiver: Option<&NodeRow>) -> Option<State>
    ensures { result ≡ silent_by away (option_copied sender.entry) (option_copied receiver.entry) }
{
    if away {
        None
    } else {
        silent_state(sender, receiver)
    }
}

fn silent(number: u64, state: Option<State>) -> Option<Unlawful>
    ensures { result ≡ option_map (Unlawful.Silent number) state }
{
    match state {
        None => None,
        Some(state) => Some(Unlawful::Silent { number, state }),
    }
}

// How far the arrival of a frame may lie from where it is expected, in ticks.
fn arrival_error(params: &Params) -> i64
    ensures value { result ≡ pos (arrival_error params.now) }
    ensures within { IsBetween (pos 0) (pos 10_300_000) result }
{
    let compensation = params.widest_compensation() as u64;
    let error = params.natural(ParamName::xDelayError)
        + compensation * params.natural(ParamName::xRateBound);
    error as i64
}

// The instant of an action point, in ticks.
fn action_instant(params: &Params, odd: bool, row: &NodeRow, action: i64) -> i64
    requires row { KeepsLimits params.now row.now }
    requires action { IsEarly params.now action }
    ensures value { result ≡ instant_of (grid_for params.now) row.now odd action }
    ensures within { IsBetween (pos 0) (pos most_gap) result }
{
    instant(&grid_of(params), row, odd, action)
}

// How far the action point of a slot lies after that of a receiver, in ticks.
fn gap(params: &Params, odd: bool, slot: Slot, sender: &NodeRow, receiver: &NodeRow) -> i64
    requires slot { slot ≤ amount params.now name.gNumberOfStaticSlots }
    requires sender { KeepsLimits params.now sender.now }
    requires receiver { KeepsLimits params.now receiver.now }
    ensures value { result ≡ gap_of params.now odd (pos (action_point_of params.now slot)) sender.now receiver.now }
    ensures within { IsWithin (pos most_gap) result }
{
    let action = action_point(params, slot);
    difference(
        action_instant(params, odd, sender, action),
        action_instant(params, odd, receiver, action),
    )
}

// How far an instant lies after another.
fn difference(one: i64, other: i64) -> i64
    requires one { IsBetween (pos 0) (pos most_gap) one }
    requires other { IsBetween (pos 0) (pos most_gap) other }
    ensures value { result ≡ one -ℤ other }
    ensures within { IsWithin (pos most_gap) result }
{
    one - other
}

// A number of ticks less an error, and more by it.
fn less(ticks: i64, error: i64) -> i64
    requires ticks { IsWithin (pos most_gap) ticks }
    requires error { IsBetween (pos 0) (pos 10_300_000) error }
    ensures value { result ≡ ticks -ℤ error }
    ensures within { IsWithin (pos most_limit) result }
{
    ticks - error
}

fn more(ticks: i64, error: i64) -> i64
    requires ticks { IsWithin (pos most_gap) ticks }
    requires error { IsBetween (pos 0) (pos 10_300_000) error }
    ensures value { result ≡ ticks +ℤ error }
    ensures within { IsWithin (pos most_limit) result }
{
    ticks + error
}

// A quotient rounded down.
fn floor(n: i64, length: i64) -> i64
    requires n { IsWithin (pos most_limit) n }
    requires length { IsLength length }
    ensures { result ≡ floor_of n length }
{
    n.div_euclid(length)
}

// What so many microticks of a length are, in ticks.
fn ticks(count: i64, length: i64) -> i64
    requires count { IsWithin (pos 2_147_483_648) count }
    requires length { IsLength length }
    ensures { result ≡ count *ℤ length }
{
    count * length
}

// Whether a deviation is less than so many ticks, rounded down to microticks. It divides nothing.
fn is_less(value: i32, ticks_least: i64, length: i64) -> bool
    requires least { IsWithin (pos most_limit) ticks_least }
    requires length { IsLength length }
    ensures { result ≡ int_lt value (floor_of ticks_least length) }
{
    ticks(i64::from(value), length) <= ticks_least - length
}

// Whether it is more.
fn is_more(value: i32, ticks_most: i64, length: i64) -> bool
    requires length { IsLength length }
    ensures { result ≡ int_lt (floor_of ticks_most length) value }
{
    ticks_most < ticks(i64::from(value), length)
}

// The breach of a deviation that lies outside of limits.
fn judged(number: u64, dev: &Dev, limits: Limits) -> Option<Unlawful>
    requires { AreTicks limits }
    ensures { result ≡ outside_of number dev.now (Some limits) }
{
    if is_less(dev.value, limits.least, limits.length)
        || is_more(dev.value, limits.most, limits.length)
    {
        Some(Unlawful::Deviation {
            number,
            kept: dev.value,
            low: floor(limits.least, limits.length),
            high: floor(limits.most, limits.length),
        })
    } else {
        None
    }
}

// The limits of the deviations of a slot at a receiver: the least and the most ticks, and the length of its microtick.
// A deviation is compared with both rounded down to microticks.
#[derive(Clone, Copy, Debug, PartialEq, Eq)]
pub(crate) struct Limits {
    pub(crate) least: i64,
    pub(crate) most: i64,
    pub(crate) length: i64,
}

// What the deviations of a slot may be at a receiver: there can be none where the sender is away, and none for a state;
// and their limits.
#[derive(Clone, Copy, Debug, PartialEq, Eq)]
pub(crate) struct Allowed {
    pub(crate) slot: u16,
    pub(crate) away: bool,
    pub(crate) silent: Option<State>,
    pub(crate) limits: Option<Limits>,
}

fn limits_of(params: &Params, odd: bool, slot: Slot, sender: &NodeRow, receiver: &NodeRow) -> Limits
    requires slot { slot ≤ amount params.now name.gNumberOfStaticSlots }
    requires sender { KeepsLimits params.now sender.now }
    requires receiver { KeepsLimits params.now receiver.now }
    ensures value { result ≡ dev_limits_of params.now odd slot sender.now receiver.now }
    ensures ticks { AreTicks result }
{
    let gap = gap(params, odd, slot, sender, receiver);
    let error = arrival_error(params);
    Limits {
        least: less(gap, error),
        most: more(gap, error),
        length: receiver.length,
    }
}

fn limits_by(
    params: &Params,
    odd: bool,
    slot: Slot,
    sender: Option<&NodeRow>,
    receiver: Option<&NodeRow>,
) -> Option<Limits>
    requires slot { slot ≤ amount params.now name.gNumberOfStaticSlots }
    requires sender { IfSome sender (λ row. KeepsLimits params.now row.now) }
    requires receiver { IfSome receiver (λ row. KeepsLimits params.now row.now) }
    ensures value { result ≡ limits_by params.now odd slot (option_copied sender.entry) (option_copied receiver.entry) }
    ensures ticks { IfSome result AreTicks }
{
    match sender {
        None => None,
        Some(sender) => match receiver {
            None => None,
            Some(receiver) => Some(limits_of(params, odd, slot, sender, receiver)),
        },
    }
}

// What the deviations of a slot may be at a receiver, by its row in their cycle.
fn allowed_in(
    params: &Params,
    trace: &Trace,
    odd: bool,
    cycle: &TracedCycle,
    receiver: Option<&NodeRow>,
    slot: Slot,
) -> Allowed
    requires cycle { IsSound params.now (kept_of cycle.now) }
    requires keeps { IfSome receiver (λ row. KeepsLimits params.now row.now) }
    requires slot { slot ≤ amount params.now name.gNumberOfStaticSlots }
    ensures value { result ≡
        allowed_by params.now trace.now odd (kept_of cycle.now) (option_copied receiver.entry) slot }
    ensures ticks { IfSome result.limits AreTicks }
{
    let sender = sender_row(params, cycle, slot);
    let away = is_away_by(params, trace, cycle, slot, sender);
    Allowed {
        slot: slot.0,
        away,
        silent: silent_by(away, sender, receiver),
        limits: limits_by(params, odd, slot, sender, receiver),
    }
}

impl Allowed {
    // That of no slot: slots are numbered from 1.
    pub(crate) fn of_no_slot() -> Allowed
        ensures slot { result.slot ≡ 0 }
        ensures ticks { IfSome result.limits AreTicks }
    {
        Allowed {
            slot: 0,
            away: false,
            silent: None,
            limits: None,
        }
    }

    // Goes on to a deviation of a slot: both deviations of a slot have the same.
    pub(crate) fn reach(
        &mut self,
        params: &Params,
        trace: &Trace,
        odd: bool,
        cycle: &TracedCycle,
        receiver: Option<&NodeRow>,
        slot: Slot,
    )
        requires cycle { IsSound params.now (kept_of cycle.now) }
        requires keeps { IfSome receiver (λ row. KeepsLimits params.now row.now) }
        requires kept { IsAllowedFor params.now trace.now odd (kept_of cycle.now) (option_copied receiver) self.old }
        requires ticks { IfSome self.old.limits AreTicks }
        requires slot { slot ≤ amount params.now name.gNumberOfStaticSlots }
        ensures value { self.new ≡
            allowed_by params.now trace.now odd (kept_of cycle.now) (option_copied receiver.entry) slot }
        ensures ticks { IfSome self.new.limits AreTicks }
    {
        if self.slot != slot.0 {
            *self = allowed_in(params, trace, odd, cycle, receiver, slot);
        }
    }
}

fn outside(number: u64, dev: &Dev, limits: Option<Limits>) -> Option<Unlawful>
    requires { IfSome limits AreTicks }
    ensures { result ≡ outside_of number dev.now limits }
{
    match limits {
        None => None,
        Some(limits) => judged(number, dev, limits),
    }
}

// Whether the cycle after some cycles is odd.
pub(crate) fn is_odd_behind(behind: &[TracedCycle]) -> bool
    ensures { result ≡ is_odd (length (history_by behind.now)) }
{
    behind.len() % 2 == 1
}

// The first law that a deviation breaks, with its record number, by what the deviations of its slot may be in a cycle
// of this double cycle.
pub(crate) fn dev_breach(number: u64, double: u32, allowed: &Allowed, dev: &Dev) -> Option<Unlawful>
    requires { IfSome allowed.now.limits AreTicks }
    ensures { (p : Values) (t : TraceView) (h : History) (r : Record) → double ≡ length h / 2 →
        allowed.now ≡ allowed_by p t (is_odd (length h)) r (row_of r.rows dev.now.receiver) dev.now.slot →
        result ≡ breach_at p t number (Item.Heard h r dev.now) }
{
    let silent = silent(number, allowed.silent);
    let outside = outside(number, dev, allowed.limits);
    let apart = apart(number, double, allowed.away);
    first_of(first_of(silent, outside), apart)
}
