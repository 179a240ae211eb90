ghost use Rattle.std.specs.Prelude.{◌≡◌, ℕ, ◌<◌, pos, true, List, [], Some, IfNone, IfSome, IsSome, IsNone, if◌then◌else◌};
ghost use Rattle.fr_base.specs.Timed.{IsLength, IsTimed};
ghost use Rattle.fr_base.specs.Within.{IsBetween, IsWithin};
ghost use Rattle.fr_measure.specs.Readings.{most_deviation, no_readings, reading};
ghost use Rattle.fr_time.specs.Cycles.{is_odd};
ghost use Rattle.fr_time.specs.Instant.{IsSlotOf, KeepsLimits};
ghost use Rattle.fr_cluster.specs.Questions.{node_of};
ghost use Rattle.fr_cluster.specs.Values.{Values};
ghost use Rattle.fr_frame.specs.Reading.{read_as};
ghost use Rattle.fr_reception.specs.Answers.{answer_of};
ghost use Rattle.fr_correct.specs.Terms.{is_uncut};

use crate::answers::{Arrival, Reception, answer, is_well_within, outside, read, received};
use crate::corrections::cut_count;
use fr_base::{Channel, NodeId, NodeRow, Outcome, Slot, State};
use fr_cluster::Params;
use fr_correct::{Term, offset_term_from, rate_term_from};
use fr_frame::{FrameFault, Header};
use fr_measure::Table;
use fr_poc::{Poc, poc_limits};
use fr_reception::Heard;
use fr_time::{is_odd, next_start};
use std::marker::Model;

/// One node of the cluster, from the start of its first cycle on.
#[derive(Debug, Drop)]
pub struct Node {
    id: NodeId,
    // The cycle that is under way or comes next.
    cycle: u32,
    // The length of a microtick in the cycle that is under way, in ticks.
    length: Option<i64>,
    // The start, in ticks, of the cycle that is under way or comes next.
    start: i64,
    // The rate term, in microticks, of the cycle that is under way or comes next.
    rate: i32,
    table: Table,
    control: Poc,
    // Whether it follows: it corrects its clock, and sends nothing yet.
    follows: bool,
    // How the offset and the rate term of the last odd cycle ended.
    outcomes: Option<(Outcome, Outcome)>,
}

impl Model for Node {
    ghost use Rattle.fr_node.specs.View.{IsNode, NodeView};

    ghost Value = { NodeView };

    ghost view = { λ node. record { id = node.id; cycle = node.cycle; length = node.length; start = node.start; rate = node.rate; table = node.table; control = node.control; follows = node.follows; outcomes = node.outcomes } };

    ghost invariant = { λ node. IsNode (record { id = node.id; cycle = node.cycle; length = node.length; start = node.start; rate = node.rate; table = node.table; control = node.control; follows = node.follows; outcomes = node.outcomes }) };
}

impl Node {
    ghost use Rattle.fr_node.specs.View.{node_row_of, state_of_node};
    ghost use Rattle.fr_node.specs.Fits.{CanBegin, CanReceive, IsEndedRow, IsUnderWay, NodeFits};
    ghost use Rattle.fr_node.specs.Cycle.{after_hearing, control_after_terms, in_cycle, corrected_row, corrects, ended, ended_but, ended_corrected, ended_row_of_node, fresh, as_joined, offset_term_of_node, own_index_of_node, passed, rate_term_of_node};
    ghost use Rattle.fr_correct.specs.Terms.{are_uncut};
    ghost use Rattle.fr_node.specs.Fits.{AreTermsOf};
    ghost use Rattle.fr_node.specs.Listening.{follower_of, most_first_start};
    ghost use Rattle.fr_node.specs.Arrivals.{IfStored, LiesInSlot, LiesOutside, IsOfferedAt};
    ghost use Rattle.fr_node.specs.Receptions.{answer_with, received_as};

    /// A node before cycle 0: active, with no deviation. The start of cycle 0 is in ticks, the rate term in
    /// microticks.
    pub fn new(params: &Params, id: NodeId, start: i64, rate: i32) -> Node
        requires known { IsSome (node_of params.now id) }
        requires start { IsBetween (pos 0) (pos 1_000_000_000_000) start }
        requires rate { IsWithin params.now.rate_limit rate }
        ensures value { result ≡ fresh params.now id start rate }
        ensures fits { NodeFits params.now result }
    {
        Node {
            id,
            cycle: 0,
            length: None,
            start,
            rate,
            table: Table::new(),
            control: Poc::new(poc_limits(params)),
            follows: false,
            outcomes: None,
        }
    }

    // A node that begins to follow before a cycle, with its start in ticks and its rate term in microticks.
    pub(crate) fn following(params: &Params, id: NodeId, cycle: u32, start: i64, rate: i32) -> Node
        requires known { IsSome (node_of params.now id) }
        requires in_run { cycle < 200_000 }
        requires start { IsBetween (pos 0) (pos most_first_start) start }
        requires rate { IsWithin params.now.rate_limit rate }
        ensures value { result ≡ follower_of params.now id cycle start rate }
        ensures fits { NodeFits params.now result }
    {
        Node {
            id,
            cycle,
            length: None,
            start,
            rate,
            table: Table::new(),
            control: Poc::new(poc_limits(params)),
            follows: true,
            outcomes: None,
        }
    }

    /// Which node of the cluster it is.
    pub fn id(&self) -> NodeId
        ensures { result ≡ self.now.id }
    {
        self.id
    }

    /// Begins the next cycle, in which a microtick lasts `length` ticks. An even cycle begins with no
    /// deviation.
    pub fn begin(&mut self, cycle: u32, length: i64)
        requires next { CanBegin self.old cycle }
        requires length { IsLength length }
        ensures value { self.new ≡ in_cycle self.old length }
        ensures fits { (p : Values) → NodeFits p self.old → NodeFits p self.new }
    {
        keep_in_odd(&mut self.table, cycle);
        self.length = Some(length);
    }

    /// Receives a frame in a static slot on a channel, at an instant in ticks, and answers what it makes of
    /// it: the deviation that it stores, or the first reason to ignore it (sections 4.2 to 4.5 and 8.5).
    pub fn hear(
        &mut self,
        params: &Params,
        slot: Slot,
        channel: Channel,
        arrival: i64,
        bytes: &[u8],
    ) -> Heard
        requires receives { CanReceive params.now self.old slot channel }
        requires arrival { IsOfferedAt arrival }
        ensures answer { result ≡ answer_of params.now self.old.cycle (node_row_of self.old)
            (record { slot = slot; channel = channel; arrival = arrival; bytes = bytes.now }) }
        ensures after { self.new ≡ after_hearing params.now self.old slot channel result }
        ensures rest { self.new ≡ record self.old { table = self.new.table } }
        ensures fits { NodeFits params.now self.new }
    {
        let told = read(channel, bytes);
        self.hear_read(params, slot, channel, arrival, bytes, &told)
    }

    // The same of a frame that was read before: `told` is what the bytes are on the channel.
    #[inline(never)]
    fn hear_read(
        &mut self,
        params: &Params,
        slot: Slot,
        channel: Channel,
        arrival: i64,
        bytes: &[u8],
        told: &Result<Header, FrameFault>,
    ) -> Heard
        requires receives { CanReceive params.now self.old slot channel }
        requires arrival { IsOfferedAt arrival }
        requires told { told.now ≡ read_as channel bytes.now }
        ensures answer { result ≡ answer_of params.now self.old.cycle (node_row_of self.old)
            (record { slot = slot; channel = channel; arrival = arrival; bytes = bytes.now }) }
        ensures after { self.new ≡ after_hearing params.now self.old slot channel result }
        ensures rest { self.new ≡ record self.old { table = self.new.table } }
        ensures fits { NodeFits params.now self.new }
    {
        let reception = received(params, self.cycle, slot, told);
        self.hear_received(params, slot, channel, arrival, &reception)
    }

    /// The same of a frame of which it is known what is made of it where it arrives in its slot, as `received` tells it
    /// of its bytes, for who offers it to many nodes.
    #[inline(always)]
    pub fn hear_received(
        &mut self,
        params: &Params,
        slot: Slot,
        channel: Channel,
        arrival: i64,
        reception: &Reception,
    ) -> Heard
        requires receives { CanReceive params.now self.old slot channel }
        requires arrival { IsOfferedAt arrival }
        ensures answer { (bytes : List ℕ) →
            reception.now ≡ received_as params.now self.old.cycle slot (read_as channel bytes) →
            result ≡ answer_of params.now self.old.cycle (node_row_of self.old)
            (record { slot = slot; channel = channel; arrival = arrival; bytes = bytes }) }
        ensures made { result ≡ answer_with params.now (node_row_of self.old)
            (record { slot = slot; channel = channel; arrival = arrival; bytes = [] }) reception.now }
        ensures after { self.new ≡ after_hearing params.now self.old slot channel result }
        ensures rest { self.new ≡ record self.old { table = self.new.table } }
        ensures fits { NodeFits params.now self.new }
    {
        let heard = self.answer_to(params, slot, channel, arrival, reception);
        self.keep(params, slot, channel, &heard);
        heard
    }

    /// Ends the cycle, and answers its row: an odd one with the offset term that its deviations give, after
    /// which the rate term and one step of operation control hold from the next cycle on, unless the node
    /// is halted (chapter 2, sections 8.6.2 and 8.6.3). Of a node that follows the operation control takes no step.
    pub fn end(&mut self, params: &Params) -> NodeRow
        requires { IsUnderWay params.now self.old }
        ensures row { result ≡ ended_row_of_node params.now self.old }
        ensures after { self.new ≡ ended params.now self.old }
        ensures fits { NodeFits params.now self.new }
        ensures ended { IsEndedRow params.now result }
    {
        if is_odd(self.cycle) {
            self.end_odd(params)
        } else {
            self.end_plain(params)
        }
    }

    /// The row of the cycle that is under way, before its end: with offset 0, and nothing cut.
    pub fn row(&self) -> NodeRow
        requires { IsSome self.now.length }
        ensures value { result ≡ node_row_of self.now }
        ensures timed { IsTimed result }
    {
        NodeRow {
            node: self.id,
            start: self.start,
            length: self.length.unwrap(),
            rate: self.rate,
            offset: 0,
            state: self.state(),
            cut: 0,
        }
    }

    /// The deviation of a key index on a channel, in microticks, in the even or the odd cycle of the double
    /// cycle that is under way, or between cycles of the last one; None exactly where nothing is stored.
    pub fn deviation(&self, index: usize, odd: bool, channel: Channel) -> Option<i32>
        requires { index < 15 }
        ensures { result ≡ reading self.now.table index odd channel }
    {
        self.table.get(index, odd, channel)
    }

    /// The start of the next cycle, in ticks.
    pub fn next_start(&self) -> i64
        requires { IsNone self.now.length }
        ensures value { result ≡ self.now.start }
        ensures within { IsBetween (pos 0) (pos 1_102_000_000_000_000_000) result }
    {
        self.start
    }

    /// The rate term of the next cycle, in microticks.
    pub fn next_rate(&self) -> i32
        requires { IsNone self.now.length }
        ensures value { result ≡ self.now.rate }
        ensures within { IsWithin (pos 2000) result }
    {
        self.rate
    }

    /// The state in the next cycle.
    pub fn next_state(&self) -> State
        requires { IsNone self.now.length }
        ensures { result ≡ state_of_node self.now }
    {
        self.state()
    }

    /// Whether it follows: it hears the cluster and corrects its clock, but does not belong to it yet.
    pub fn follows(&self) -> bool
        ensures { result ≡ self.now.follows }
    {
        self.follows
    }

    /// Whether both terms of the last odd cycle that has ended lay within their limits; one has ended.
    pub fn steady(&self) -> bool
        requires { IsSome self.now.outcomes }
        ensures { result ≡ are_uncut self.now.outcomes }
    {
        let (offset, rate) = self.outcomes.unwrap();
        is_within(offset) && is_within(rate)
    }

    /// Joins the cluster that it follows, between two cycles: its operation control begins active, with both counters
    /// at 0.
    pub fn join(&mut self)
        requires follows { self.old.follows ≡ true }
        requires between { IsNone self.old.length }
        ensures value { self.new ≡ as_joined self.old }
        ensures fits { (p : Values) → NodeFits p self.old → NodeFits p self.new }
    {
        self.follows = false;
        self.control.restart();
    }

    // Its state: one that follows is passive.
    fn state(&self) -> State
        ensures { result ≡ state_of_node self.now }
    {
        if self.follows {
            State::Passive
        } else {
            self.control.state()
        }
    }

    // The place of its own key slot among those whose clocks it compares.
    fn own_index(&self, params: &Params) -> Option<usize>
        ensures { result ≡ own_index_of_node params.now self.now }
    {
        if self.follows {
            return None;
        }
        params.own_key_index(self.id)
    }

    // The answer to a frame of which this is made where it arrives in its slot.
    #[inline(always)]
    fn answer_to(
        &self,
        params: &Params,
        slot: Slot,
        channel: Channel,
        at: i64,
        reception: &Reception,
    ) -> Heard
        requires { CanReceive params.now self.now slot channel }
        ensures answer { result ≡ answer_with params.now (node_row_of self.now)
            (record { slot = slot; channel = channel; arrival = at; bytes = [] }) reception.now }
        ensures within { IfStored result (IsWithin (pos most_deviation)) }
    {
        let row = self.row();
        let missed = self.missed(params, &row, slot, at);
        answer(
            params,
            &row,
            Arrival { slot, channel, at },
            missed,
            reception,
        )
    }

    // The instants at which a static slot begins and ends, where a frame does not arrive between them.
    #[inline(always)]
    fn missed(&self, params: &Params, row: &NodeRow, slot: Slot, at: i64) -> Option<(i64, i64)>
        requires started { IsSome self.now.length }
        requires row { row.now ≡ node_row_of self.now }
        requires slot { IsSlotOf params.now row.now slot }
        ensures out { IfSome result (LiesOutside params.now row.now slot at) }
        ensures within { IfNone result (LiesInSlot params.now row.now slot at) }
    {
        if is_well_within(params, row, slot, at) {
            return None;
        }
        self.missed_late(params, slot, at)
    }

    // The same by these instants. It is rarely asked, and takes no row, which then need not lie in memory.
    #[inline(never)]
    fn missed_late(&self, params: &Params, slot: Slot, at: i64) -> Option<(i64, i64)>
        requires started { IsSome self.now.length }
        requires slot { IsSlotOf params.now (node_row_of self.now) slot }
        ensures out { IfSome result (LiesOutside params.now (node_row_of self.now) slot at) }
        ensures within { IfNone result (LiesInSlot params.now (node_row_of self.now) slot at) }
    {
        let early = self.row();
        outside(params, &early, slot, at)
    }

    // Keeps the deviation that an answer stores.
    fn keep(&mut self, params: &Params, slot: Slot, channel: Channel, heard: &Heard)
        requires receives { CanReceive params.now self.old slot channel }
        requires within { IfStored heard.now (IsWithin (pos most_deviation)) }
        ensures value { self.new ≡ after_hearing params.now self.old slot channel heard.now }
        ensures rest { self.new ≡ record self.old { table = self.new.table } }
        ensures fits { NodeFits params.now self.new }
    {
        if let Heard::Stored(value) = *heard
            && let Some(index) = params.key_index(slot)
        {
            self.table.store(index, is_odd(self.cycle), channel, value);
        }
    }

    // Whether the clock is corrected at the end of the cycle.
    fn corrects(&self) -> bool
        ensures { result ≡ corrects self.now }
    {
        is_odd(self.cycle) && !matches!(self.state(), State::Halt)
    }

    fn offset_term(&self, params: &Params) -> Term
        ensures value { result ≡ offset_term_of_node params.now self.now }
        ensures within { IsWithin params.now.offset_limit result.value }
    {
        offset_term_from(params, &self.table, self.own_index(params))
    }

    fn rate_term(&self, params: &Params) -> Term
        requires { IsWithin params.now.rate_limit self.now.rate }
        ensures value { result ≡ rate_term_of_node params.now self.now }
        ensures within { IsWithin params.now.rate_limit result.value }
    {
        rate_term_from(params, &self.table, self.own_index(params), self.rate)
    }

    // One step of operation control, and none where it follows.
    fn step(&mut self, offset: Outcome, rate: Outcome)
        ensures value { self.new ≡ record self.old { control = control_after_terms self.old offset rate } }
        ensures fits { (p : Values) → NodeFits p self.old → NodeFits p self.new }
    {
        if !self.follows {
            self.control.step(offset, rate);
        }
    }

    // Keeps how both terms ended.
    fn note(&mut self, offset: Outcome, rate: Outcome)
        ensures value { self.new ≡ record self.old { outcomes = Some (offset, rate) } }
        ensures fits { (p : Values) → NodeFits p self.old → NodeFits p self.new }
    {
        self.outcomes = Some((offset, rate));
    }

    // Goes on to the cycle that follows one with this row.
    fn pass(&mut self, params: &Params, row: &NodeRow, rate: i32)
        requires under_way { IsUnderWay params.now self.old }
        requires row { KeepsLimits params.now row.now }
        requires start { row.now.start ≡ self.old.start }
        requires rate { IsWithin params.now.rate_limit rate }
        ensures value { self.new ≡ passed params.now self.old row.now rate }
        ensures fits { NodeFits params.now self.new }
    {
        let start = next_start(params, row);
        self.start = start;
        self.cycle += 1;
        self.length = None;
        self.rate = rate;
    }

    // The end of an odd cycle.
    fn end_odd(&mut self, params: &Params) -> NodeRow
        requires under_way { IsUnderWay params.now self.old }
        requires odd { is_odd self.old.cycle ≡ true }
        ensures row { result ≡ ended_row_of_node params.now self.old }
        ensures after { self.new ≡ ended params.now self.old }
        ensures fits { NodeFits params.now self.new }
        ensures ended { IsEndedRow params.now result }
    {
        let offset = self.offset_term(params);
        let rate = self.rate_term(params);
        let row = self.end_with(params, offset, rate);
        self.note(offset.outcome, rate.outcome);
        row
    }

    // The same, with both its terms, but for what is kept of the outcomes.
    fn end_with(&mut self, params: &Params, offset: Term, rate: Term) -> NodeRow
        requires under_way { IsUnderWay params.now self.old }
        requires terms { AreTermsOf params.now self.old offset rate }
        ensures row { result ≡ ended_row_of_node params.now self.old }
        ensures after { self.new ≡ ended_but params.now self.old }
        ensures fits { NodeFits params.now self.new }
        ensures ended { IsEndedRow params.now result }
    {
        if self.corrects() {
            self.end_corrected(params, offset, rate)
        } else {
            self.end_plain(params)
        }
    }

    // The end of a cycle with a correction.
    fn end_corrected(&mut self, params: &Params, offset: Term, rate: Term) -> NodeRow
        requires under_way { IsUnderWay params.now self.old }
        requires terms { AreTermsOf params.now self.old offset rate }
        ensures row { result ≡ corrected_row params.now self.old }
        ensures after { self.new ≡ ended_corrected params.now self.old }
        ensures fits { NodeFits params.now self.new }
        ensures ended { IsEndedRow params.now result }
    {
        let row = NodeRow {
            offset: offset.value,
            cut: cut_count(offset.outcome) + cut_count(rate.outcome),
            ..self.row()
        };
        self.step(offset.outcome, rate.outcome);
        self.pass(params, &row, rate.value);
        row
    }

    // The end of a cycle without one.
    fn end_plain(&mut self, params: &Params) -> NodeRow
        requires { IsUnderWay params.now self.old }
        ensures row { result ≡ node_row_of self.old }
        ensures after { self.new ≡ passed params.now self.old (node_row_of self.old) self.old.rate }
        ensures fits { NodeFits params.now self.new }
        ensures ended { IsEndedRow params.now result }
    {
        let plain = self.row();
        self.pass(params, &plain, plain.rate);
        plain
    }
}

// Whether a term lay within its limit.
fn is_within(outcome: Outcome) -> bool
    ensures { result ≡ is_uncut outcome }
{
    matches!(outcome, Outcome::Within)
}

// Removes the deviations as an even cycle begins.
fn keep_in_odd(table: &mut Table, cycle: u32)
    ensures { table.new ≡ (if is_odd cycle then table.old else no_readings) }
{
    if !is_odd(cycle) {
        table.clear();
    }
}
