ghost use Rattle.std.specs.Prelude.{◌≡◌, ◌≤◌, ◌<◌, ◌-ℤ◌, ◌+ℤ◌, pos, true, false, IfNone, IfSome, IsSome};
ghost use Rattle.std.specs.Option.{option_map};
ghost use Rattle.fr_base.specs.Timed.{IsLength};
ghost use Rattle.fr_base.specs.Within.{IsBetween, IsWithin};
ghost use Rattle.fr_cluster.specs.Questions.{key_index_of, node_of};
ghost use Rattle.fr_cluster.specs.Values.{amount};
ghost use Rattle.fr_cluster.specs.declared.names.ParamName.TheVariants as name;
ghost use Rattle.fr_frame.specs.Reading.{read_as};
ghost use Rattle.fr_reception.specs.Listening.{first_rate_of, first_start_of, is_sync_of, kept_if};
ghost use Rattle.fr_time.specs.Cycles.{is_odd};
ghost use Rattle.fr_time.specs.Position.{even_position, floor_of, grid_for};
ghost use Rattle.fr_time.specs.Slots.{action_point_of};
ghost use Rattle.fr_node.specs.Fits.{NodeFits};
ghost use Rattle.fr_node.specs.Listening.{caught_in, follower_by, is_in_limit, IsArrival, IsCatch, most_first_start};

use crate::answers::read;
use crate::node::Node;
use crate::own::sane;
use fr_base::{Channel, NodeId, Slot, ticks_of};
use fr_cluster::{ParamName, Params};
use fr_frame::{FrameFault, Header};
use fr_time::{action_point, early_position};
use std::marker::Model;

/// A node that listens to a reference in both cycles of a double cycle, before it begins to follow.
#[derive(Debug, Drop)]
pub struct Listener {
    id: NodeId,
    // The key slot of the reference.
    reference: Slot,
    // The arrivals of its frames, in ticks.
    even_a: Option<i64>,
    even_b: Option<i64>,
    odd_a: Option<i64>,
    odd_b: Option<i64>,
}

impl Model for Listener {
    ghost use Rattle.fr_node.specs.Listening.{AreArrivals, ListenerView};

    ghost Value = { ListenerView };

    ghost view = { λ l. record { id = l.id; reference = l.reference; even_a = l.even_a; even_b = l.even_b; odd_a = l.odd_a; odd_b = l.odd_b } };

    ghost invariant = { λ l. AreArrivals (record { id = l.id; reference = l.reference; even_a = l.even_a; even_b = l.even_b; odd_a = l.odd_a; odd_b = l.odd_b }) };
}

impl Listener {
    ghost use Rattle.fr_node.specs.Listening.{after_catching, arrival_of, caught_of_listener, caught_of_listener_on, first_of, listening, with_arrival};

    /// A listener that has caught nothing, by its number and the key slot of its reference.
    pub fn new(id: NodeId, reference: Slot) -> Listener
        ensures { result ≡ listening id reference }
    {
        Listener {
            id,
            reference,
            even_a: None,
            even_b: None,
            odd_a: None,
            odd_b: None,
        }
    }

    /// Which node of the cluster it is.
    pub fn id(&self) -> NodeId
        ensures { result ≡ self.now.id }
    {
        self.id
    }

    /// The key slot of its reference.
    pub fn reference(&self) -> Slot
        ensures { result ≡ self.now.reference }
    {
        self.reference
    }

    /// Takes what comes on a channel in the even or the odd cycle, at an instant in ticks. True exactly where it is
    /// a sync frame of the reference's slot: then its arrival is kept for the channel and the cycle, and nothing else
    /// changes. After false nothing changed.
    pub fn catch(&mut self, channel: Channel, odd: bool, arrival: i64, bytes: &[u8]) -> bool
        requires { IsArrival arrival }
        ensures good { result ≡ is_sync_of self.old.reference (read_as channel bytes.now) }
        ensures after { self.new ≡ after_catching self.old odd channel arrival result }
    {
        let told = read(channel, bytes);
        self.catch_read(channel, odd, arrival, bytes, &told)
    }

    /// The same of a frame that was read before: `told` is what the bytes are on the channel.
    pub fn catch_read(
        &mut self,
        channel: Channel,
        odd: bool,
        arrival: i64,
        bytes: &[u8],
        told: &Result<Header, FrameFault>,
    ) -> bool
        requires arrival { IsArrival arrival }
        requires told { told.now ≡ read_as channel bytes.now }
        ensures good { result ≡ is_sync_of self.old.reference (read_as channel bytes.now) }
        ensures after { self.new ≡ after_catching self.old odd channel arrival result }
    {
        let good = is_sync_of(self.reference, told);
        if good {
            self.keep(odd, channel, arrival);
        }
        good
    }

    /// The node that begins to follow before a cycle, with the lengths of its microticks in the even and the odd cycle in
    /// which it listened, in ticks: what it has caught on channel A counts, or else on channel B. None exactly where
    /// neither channel has an arrival in both cycles, or the first rate lies outside its limit, or the first start is below
    /// 0.
    pub fn first(
        &self,
        params: &Params,
        cycle: u32,
        even_length: i64,
        odd_length: i64,
    ) -> Option<Node>
        requires known { IsSome (node_of params.now self.now.id) }
        requires reference { IsSome (key_index_of params.now self.now.reference) }
        requires even { is_odd cycle ≡ false }
        requires later { 0 < cycle }
        requires in_run { cycle < 200_000 }
        requires even_length { IsLength even_length }
        requires odd_length { IsLength odd_length }
        ensures value { result ≡ first_of params.now self.now cycle even_length odd_length }
        ensures fits { IfSome result (NodeFits params.now) }
    {
        match self.caught(even_length, odd_length) {
            None => None,
            Some(caught) => follower(params, self.id, cycle, &caught),
        }
    }

    // Keeps an arrival.
    fn keep(&mut self, odd: bool, channel: Channel, arrival: i64)
        requires { IsArrival arrival }
        ensures { self.new ≡ with_arrival self.old odd channel arrival }
    {
        let arrival = Some(arrival);
        match (odd, channel) {
            (false, Channel::A) => self.even_a = arrival,
            (false, Channel::B) => self.even_b = arrival,
            (true, Channel::A) => self.odd_a = arrival,
            (true, Channel::B) => self.odd_b = arrival,
        }
    }

    // The arrival in a cycle on a channel.
    fn arrival(&self, odd: bool, channel: Channel) -> Option<i64>
        ensures value { result ≡ arrival_of self.now odd channel }
        ensures within { IfSome result IsArrival }
    {
        match (odd, channel) {
            (false, Channel::A) => self.even_a,
            (false, Channel::B) => self.even_b,
            (true, Channel::A) => self.odd_a,
            (true, Channel::B) => self.odd_b,
        }
    }

    // What was caught on a channel.
    fn caught_on(&self, channel: Channel, even_length: i64, odd_length: i64) -> Option<Catch>
        requires even { IsLength even_length }
        requires odd { IsLength odd_length }
        ensures value { option_map caught_in result ≡ caught_of_listener_on self.now even_length odd_length channel }
        ensures proper { IfSome result (IsCatch self.now.reference) }
    {
        match (self.arrival(false, channel), self.arrival(true, channel)) {
            (Some(early), Some(late)) => Some(Catch {
                slot: self.reference,
                channel,
                early,
                late,
                even_length,
                odd_length,
            }),
            _ => None,
        }
    }

    // What was caught on channel A, or else on channel B.
    fn caught(&self, even_length: i64, odd_length: i64) -> Option<Catch>
        requires even { IsLength even_length }
        requires odd { IsLength odd_length }
        ensures value { option_map caught_in result ≡ caught_of_listener self.now even_length odd_length }
        ensures proper { IfSome result (IsCatch self.now.reference) }
    {
        match self.caught_on(Channel::A, even_length, odd_length) {
            None => self.caught_on(Channel::B, even_length, odd_length),
            Some(caught) => Some(caught),
        }
    }
}

// What is caught on a channel: both arrivals in the slot, and the lengths of the listener's microticks, in ticks.
#[derive(Clone, Copy)]
struct Catch {
    slot: Slot,
    channel: Channel,
    early: i64,
    late: i64,
    even_length: i64,
    odd_length: i64,
}

// Whether what is told of bytes is a sync frame of a slot.
fn is_sync_of(slot: Slot, told: &Result<Header, FrameFault>) -> bool
    ensures { result ≡ is_sync_of slot told.now }
{
    match told {
        Err(_) => false,
        Ok(header) => header.sync && header.id == slot.0,
    }
}

// The node that begins to follow with what was caught, if that suffices.
fn follower(params: &Params, id: NodeId, cycle: u32, caught: &Catch) -> Option<Node>
    requires known { IsSome (node_of params.now id) }
    requires caught { IsCatch caught.now.slot caught.now }
    requires slot { IsSome (key_index_of params.now caught.now.slot) }
    requires in_run { cycle < 200_000 }
    ensures value { result ≡ option_map (follower_by params.now id cycle) (kept_if params.now (caught_in caught.now)) }
    ensures fits { IfSome result (NodeFits params.now) }
{
    let Some(rate) = first_rate(params, caught) else {
        return None;
    };
    let start = first_start(params, caught, rate);
    if start < 0 {
        return None;
    }
    Some(Node::following(params, id, cycle, start, rate))
}

// The first rate, in microticks, where it lies within its limit.
fn first_rate(params: &Params, caught: &Catch) -> Option<i32>
    requires { IsCatch caught.now.slot caught.now }
    ensures value { IfSome result (λ rate. rate ≡ first_rate_of params.now (caught_in caught.now)) }
    ensures within { IfSome result (IsWithin params.now.rate_limit) }
    ensures some { IfSome result (λ rate. is_in_limit params.now.rate_limit rate ≡ true) }
    ensures none { IfNone result
        (is_in_limit params.now.rate_limit (first_rate_of params.now (caught_in caught.now)) ≡ false) }
{
    let micros = floor(between(caught.early, caught.late), caught.even_length);
    rate_of(params, micros)
}

// How far an arrival lies after another, in ticks.
fn between(early: i64, late: i64) -> i64
    requires early { IsArrival early }
    requires late { IsArrival late }
    ensures { result ≡ late -ℤ early }
{
    late - early
}

// A quotient rounded down.
fn floor(ticks: i64, length: i64) -> i64
    requires { IsLength length }
    ensures { result ≡ floor_of ticks length }
{
    ticks.div_euclid(length)
}

// The microticks of a cycle without its rate term.
fn nominal(params: &Params) -> i64
    ensures value { result ≡ params.now.micros }
    ensures within { IsBetween (pos 0) (pos 640_000) result }
{
    params.value(ParamName::pMicroPerCycle)
}

// The limit of the rate term.
fn limit(params: &Params) -> i64
    ensures value { result ≡ params.now.rate_limit }
    ensures within { IsBetween (pos 1) (pos 2000) result }
{
    params.value(ParamName::pRateCorrectionOut)
}

// Whether a number lies at most so far from another.
fn is_near(micros: i64, nominal: i64, limit: i64) -> bool
    requires nominal { IsBetween (pos 0) (pos 640_000) nominal }
    requires limit { IsBetween (pos 1) (pos 2000) limit }
    ensures { result ≡ is_in_limit limit (micros -ℤ nominal) }
{
    nominal - limit <= micros && micros <= nominal + limit
}

// How far it lies from it, at most so far.
fn apart(micros: i64, nominal: i64, limit: i64) -> i32
    requires nominal { IsBetween (pos 0) (pos 640_000) nominal }
    requires limit { IsBetween (pos 1) (pos 2000) limit }
    requires near { IsWithin limit (micros -ℤ nominal) }
    ensures value { result ≡ micros -ℤ nominal }
    ensures within { IsWithin limit result }
{
    (micros - nominal) as i32
}

// The rate that belongs to so many microticks of a cycle, where it lies within its limit.
fn rate_of(params: &Params, micros: i64) -> Option<i32>
    ensures value { IfSome result (λ rate. rate ≡ micros -ℤ params.now.micros) }
    ensures within { IfSome result (IsWithin params.now.rate_limit) }
    ensures some { IfSome result (λ rate. is_in_limit params.now.rate_limit rate ≡ true) }
    ensures none { IfNone result (is_in_limit params.now.rate_limit (micros -ℤ params.now.micros) ≡ false) }
{
    let nominal = nominal(params);
    let most = limit(params);
    if !is_near(micros, nominal, most) {
        return None;
    }
    Some(apart(micros, nominal, most))
}

// The microticks of a cycle with a rate term.
fn micros_with(params: &Params, rate: i32) -> i64
    requires { IsWithin params.now.rate_limit rate }
    ensures value { result ≡ params.now.micros +ℤ rate }
    ensures within { IsWithin (pos 700_000) result }
{
    sane(params);
    added(nominal(params), rate)
}

fn added(nominal: i64, rate: i32) -> i64
    requires nominal { IsBetween (pos 0) (pos 640_000) nominal }
    requires rate { IsWithin (pos 2000) rate }
    ensures value { result ≡ nominal +ℤ rate }
    ensures within { IsWithin (pos 700_000) result }
{
    nominal + rate as i64
}

// A number of microticks less another.
fn less(one: i64, other: i64) -> i64
    requires one { IsWithin (pos 1_500_000) one }
    requires other { IsWithin (pos 700_000) other }
    ensures value { result ≡ one -ℤ other }
    ensures within { IsWithin (pos 2_200_000) result }
{
    one - other
}

// The microticks from the action point of a slot to the end of a cycle with this rate.
fn rest_of(params: &Params, slot: Slot, rate: i32) -> i64
    requires slot { slot ≤ amount params.now name.gNumberOfStaticSlots }
    requires rate { IsWithin params.now.rate_limit rate }
    ensures value { result
        ≡ (params.now.micros +ℤ rate) -ℤ even_position (grid_for params.now) rate
        (pos (action_point_of params.now slot)) }
    ensures within { IsWithin (pos 1_400_000) result }
{
    let whole = micros_with(params, rate);
    let position = early_position(params, rate, action_point(params, slot));
    rest(whole, position)
}

fn rest(whole: i64, position: i64) -> i64
    requires whole { IsWithin (pos 700_000) whole }
    requires position { IsBetween (pos 0) (pos 700_000) position }
    ensures value { result ≡ whole -ℤ position }
    ensures within { IsWithin (pos 1_400_000) result }
{
    whole - position
}

// So many ticks behind an arrival.
fn behind(at: i64, ticks: i64) -> i64
    requires at { IsArrival at }
    requires ticks { IsWithin (pos 3_300_000_000_000_000) ticks }
    ensures value { result ≡ at +ℤ ticks }
    ensures within { IsWithin (pos most_first_start) result }
{
    at + ticks
}

// The first start, in ticks; it may lie before the run.
fn first_start(params: &Params, caught: &Catch, rate: i32) -> i64
    requires caught { IsCatch caught.now.slot caught.now }
    requires slot { IsSome (key_index_of params.now caught.now.slot) }
    requires rate { rate ≡ first_rate_of params.now (caught_in caught.now) }
    requires within { IsWithin params.now.rate_limit rate }
    ensures value { result ≡ first_start_of params.now (caught_in caught.now) }
    ensures within { IsWithin (pos most_first_start) result }
{
    sane(params);
    let rest = rest_of(params, caught.slot, rate);
    let rest = less(rest, params.compensation(caught.channel));
    behind(caught.late, ticks_of(rest, caught.odd_length))
}
