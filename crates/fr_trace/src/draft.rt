ghost use Rattle.std.specs.Prelude.{◌≡◌, ◌==◌, ◌≤◌, ◌≤ℤ◌, [], length, pos, negsuc, IfOk, OnOk};
ghost use Rattle.std.specs.List.{list_any};
ghost use Rattle.fr_cluster.specs.Values.{Values};
ghost use Rattle.fr_trace.specs.Cycles.{history_by};
ghost use Rattle.fr_trace.specs.Draft.{HasClock, HasDeviation, HasEnded, HasFilled, HasKept, HasPut, IsTraceDraft, TakesTraceRow, over_of};
ghost use Rattle.fr_trace.specs.Joins.{latest_rows};
ghost use Rattle.fr_trace.specs.Lasting.{IsTrace};
ghost use Rattle.fr_trace.specs.Order.{doubles_or_0, may_come_next};
ghost use Rattle.fr_trace.specs.Reasons.{arbitrary_reason, clock_reason, have_common, heard_reason, is_beyond, is_linked, is_of_other, joins_wrongly, knows_node_and_reference, row_reason, traced_join_reason};
ghost use Rattle.fr_base.specs.Within.{lies_within};
ghost use Rattle.fr_trace.specs.Rows.{IsProperHeard, IsProperTraceRow};
ghost use Rattle.fr_trace.specs.declared.rows.Row.TheVariants as said;

use crate::order::{SoFar, goes_on, is_among, join_among, may_follow};
use crate::rows::{HeardRow, Row};
use crate::trace::{Trace, TracedCycle, TracedJoin};
use fr_base::{Channel, Dev, NodeId, NodeRow, Reason};
use fr_cluster::{ParamName, Params};
use std::alloc::{AllocError, Global};
use std::mem::replace;

// What the records so far say: the number of double cycles, the nodes that are named arbitrary and those that join, the
// last row, how many records there are, the cycles that are over, and the rows and deviations of the one that is under
// way.
pub(crate) struct Draft {
    pub(crate) alloc: Global,
    pub(crate) doubles: Option<u32>,
    pub(crate) arbitrary: Vec<NodeId>,
    pub(crate) joins: Vec<TracedJoin>,
    pub(crate) last: Option<Row>,
    pub(crate) count: u64,
    pub(crate) cycles: Vec<TracedCycle>,
    pub(crate) rows: Vec<NodeRow>,
    pub(crate) devs: Vec<Dev>,
}

// One call: a derived drop is opened in each function that drops a value, and proved there.
impl Drop for Draft {
    fn drop(self) {
        let Draft {
            alloc: _,
            doubles: _,
            arbitrary: _,
            joins: _,
            last: _,
            count: _,
            cycles: _,
            rows: _,
            devs: _,
        } = self;
    }
}

impl Draft {
    pub(crate) fn new(alloc: Global) -> Draft
        ensures { (p : Values) → IsTraceDraft p result [] }
    {
        Draft {
            alloc,
            doubles: None,
            arbitrary: Vec::new(alloc),
            joins: Vec::new(alloc),
            last: None,
            count: 0,
            cycles: Vec::new(alloc),
            rows: Vec::new(alloc),
            devs: Vec::new(alloc),
        }
    }

    pub(crate) fn take(&mut self, params: &Params, row: Row) -> Result<Option<Reason>, AllocError>
        requires { IsProperTraceRow row }
        ensures { TakesTraceRow params.now self.old self.new row result }
    {
        let _nodes = &params.nodes;
        match self.reason(params, &row) {
            Some(why) => Ok(Some(why)),
            None => {
                self.put(row)?;
                Ok(None)
            }
        }
    }

    fn reason(&self, params: &Params, row: &Row) -> Option<Reason>
        ensures { result ≡ row_reason params.now self.now.arbitrary.items self.now.joins.items row.now
            (may_come_next params.now (doubles_or_0 self.now.doubles) self.now.arbitrary.items self.now.joins.items
            (latest_rows (over_of self.now)) self.now.rows.items self.now.last row.now) }
    {
        let so_far = self.so_far();
        let comes = may_follow(params, &so_far, &self.last, row);
        row_reason(params, so_far.named, so_far.joins, row, comes)
    }

    // Takes a deviation, of which there are the most: it is judged by the last row alone.
    pub(crate) fn take_heard(
        &mut self,
        params: &Params,
        heard: HeardRow,
    ) -> Result<Option<Reason>, AllocError>
        requires { IsProperHeard heard }
        ensures { TakesTraceRow params.now self.old self.new (said.Heard heard) result }
    {
        let _nodes = &params.nodes;
        match heard_reason(params, &heard, goes_on(&self.last, &heard)) {
            Some(why) => Ok(Some(why)),
            None => {
                self.put_heard(heard)?;
                Ok(None)
            }
        }
    }

    // Puts a deviation behind the rows that are there.
    fn put_heard(&mut self, heard: HeardRow) -> Result<(), AllocError>
        ensures { OnOk result (HasPut self.old self.new (said.Heard heard)) }
    {
        self.keep_heard(&heard)?;
        self.last = Some(Row::Heard(heard));
        self.count = self.count.saturating_add(1);
        Ok(())
    }

    // What it holds that decides which row may come next.
    pub(crate) fn so_far(&self) -> SoFar<'_>
        ensures doubles { result.doubles ≡ doubles_or_0 self.now.doubles }
        ensures named { result.named.now ≡ self.now.arbitrary.items }
        ensures joins { result.joins.now ≡ self.now.joins.items }
        ensures before { result.before.now ≡ latest_rows (over_of self.now) }
        ensures here { result.here.now ≡ self.now.rows.items }
    {
        SoFar {
            doubles: self.doubles.unwrap_or(0),
            named: self.arbitrary.as_slice(),
            joins: self.joins.as_slice(),
            before: latest_rows(self.cycles.as_slice()),
            here: self.rows.as_slice(),
        }
    }

    // Puts a row behind those that are there.
    fn put(&mut self, row: Row) -> Result<(), AllocError>
        ensures { OnOk result (HasPut self.old self.new row) }
    {
        self.keep(&row)?;
        self.last = Some(row);
        self.count = self.count.saturating_add(1);
        Ok(())
    }

    fn keep(&mut self, row: &Row) -> Result<(), AllocError>
        ensures { OnOk result (HasKept self.old self.new row.now) }
    {
        match row {
            Row::Run(doubles) => {
                self.doubles = Some(*doubles);
                Ok(())
            }
            Row::Arbitrary(node) => {
                self.arbitrary.push(*node)?;
                Ok(())
            }
            Row::Join(join) => {
                self.joins.push(*join)?;
                Ok(())
            }
            Row::Clock(cycle, clock) => self.keep_clock(*cycle, *clock),
            Row::Heard(heard) => self.keep_heard(heard),
        }
    }

    fn keep_clock(&mut self, cycle: u32, clock: NodeRow) -> Result<(), AllocError>
        ensures { OnOk result (HasKept self.old self.new (said.Clock cycle clock)) }
    {
        if cycle as usize == self.cycles.as_slice().len() {
            self.push_clock(clock)
        } else {
            self.end_cycle()?;
            self.push_clock(clock)
        }
    }

    fn push_clock(&mut self, clock: NodeRow) -> Result<(), AllocError>
        ensures { OnOk result (HasClock self.old self.new clock) }
    {
        self.rows.push(clock)?;
        Ok(())
    }

    fn keep_heard(&mut self, heard: &HeardRow) -> Result<(), AllocError>
        ensures { OnOk result (HasDeviation self.old self.new heard.now) }
    {
        let Some(channel) = heard.channel else {
            return Ok(());
        };
        self.devs.push(Dev {
            receiver: heard.receiver,
            slot: heard.slot,
            channel,
            value: heard.value,
        })?;
        Ok(())
    }

    // Ends the cycle that is under way.
    pub(crate) fn end_cycle(&mut self) -> Result<(), AllocError>
        ensures { OnOk result (HasEnded self.old self.new) }
    {
        let no_rows = room_like(self.alloc, self.rows.len())?;
        let no_devs = room_like(self.alloc, self.devs.len())?;
        let rows = replace(&mut self.rows, no_rows);
        let devs = replace(&mut self.devs, no_devs);
        self.cycles.push(TracedCycle { rows, devs })?;
        Ok(())
    }

    // Ends the cycles up to so many.
    pub(crate) fn fill(&mut self, cycles: usize) -> Result<(), AllocError>
        requires { length (over_of self.old) ≤ cycles }
        ensures filled { OnOk result (HasFilled self.old self.new cycles) }
        ensures all { OnOk result (length (over_of self.new) ≡ cycles) }
    {
        while self.cycles.as_slice().len() < cycles {
            self.end_cycle()?;
        }
        Ok(())
    }

    // The trace of the cycles that are over.
    pub(crate) fn into_trace(self, doubles: u32) -> Trace
        requires { IsTrace (record {
          doubles = doubles;
          arbitrary = self.arbitrary.items;
          joins = self.joins.items;
          history = over_of self;
        }) }
        ensures { result ≡ record {
          doubles = doubles;
          arbitrary = self.arbitrary.items;
          joins = self.joins.items;
          history = over_of self;
        } }
    {
        let Draft {
            alloc: _,
            doubles: _,
            arbitrary,
            joins,
            last: _,
            count: _,
            cycles,
            rows: _,
            devs: _,
        } = self;
        Trace::of(doubles, arbitrary, joins, cycles)
    }
}

// A list of none, with room for as many and some more: a cycle has about as many as the one before.
fn room_like<T: Drop>(alloc: Global, count: usize) -> Result<Vec<T>, AllocError>
    ensures { IfOk result (λ list. list.items ≡ []) }
{
    Vec::with_capacity(alloc, count.saturating_add(count / 8))
}

// The rows of the last of some cycles.
fn latest_rows(cycles: &[TracedCycle]) -> &[NodeRow]
    ensures { result.now ≡ latest_rows (history_by cycles.now) }
{
    match cycles.split_last() {
        None => &[],
        Some((last, _)) => last.rows.as_slice(),
    }
}

// The least reason for which a row is not taken that may come next, or not.
fn row_reason(
    params: &Params,
    named: &[NodeId],
    joins: &[TracedJoin],
    row: &Row,
    comes: bool,
) -> Option<Reason>
    ensures { result ≡ row_reason params.now named.now joins.now row.now comes }
{
    match row {
        Row::Run(_) => if comes { None } else { Some(Reason::Role) },
        Row::Arbitrary(node) => arbitrary_reason(params, *node, comes),
        Row::Join(join) => join_reason(params, named, joins, join, comes),
        Row::Clock(_, clock) => clock_reason(params, clock, comes),
        Row::Heard(heard) => heard_reason(params, heard, comes),
    }
}

fn arbitrary_reason(params: &Params, node: NodeId, comes: bool) -> Option<Reason>
    ensures { result ≡ arbitrary_reason params.now node comes }
{
    match params.node(node) {
        None => Some(Reason::UnknownNode),
        Some(spec) => {
            if spec.key.is_none() || !comes {
                Some(Reason::Role)
            } else {
                None
            }
        }
    }
}

fn join_reason(
    params: &Params,
    named: &[NodeId],
    joins: &[TracedJoin],
    join: &TracedJoin,
    comes: bool,
) -> Option<Reason>
    ensures { result ≡ traced_join_reason params.now named.now joins.now join.now comes }
{
    if !knows_both(params, join) {
        Some(Reason::UnknownNode)
    } else if joins_wrongly(params, named, joins, join) || !comes {
        Some(Reason::Role)
    } else if !have_common(params, join) {
        Some(Reason::Link)
    } else {
        None
    }
}

fn knows_both(params: &Params, join: &TracedJoin) -> bool
    ensures { result ≡ knows_node_and_reference params.now join.now }
{
    params.is_known(join.node) && params.is_known(join.join.reference)
}

fn joins_wrongly(params: &Params, named: &[NodeId], joins: &[TracedJoin], join: &TracedJoin) -> bool
    ensures { result ≡ joins_wrongly params.now named.now joins.now join.now }
{
    let reference = join.join.reference;
    reference == join.node
        || is_among(named, join.node)
        || is_among(named, reference)
        || params.lacks_key(reference)
        || join_among(joins, reference).is_some()
        || is_reference(joins, join.node)
}

fn is_reference(joins: &[TracedJoin], node: NodeId) -> bool
    ensures { result ≡ list_any (λ other. other.join.reference == node) joins.now }
{
    joins.iter().any(|other| other.join.reference == node)
}

fn have_common(params: &Params, join: &TracedJoin) -> bool
    ensures { result ≡ have_common params.now join.now }
{
    let reference = join.join.reference;
    params.common(join.node, reference, Channel::A)
        || params.common(join.node, reference, Channel::B)
}

fn clock_reason(params: &Params, clock: &NodeRow, comes: bool) -> Option<Reason>
    ensures { result ≡ clock_reason params.now clock.now comes }
{
    if is_beyond(params, clock) {
        Some(Reason::OutOfRange)
    } else if !params.is_known(clock.node) {
        Some(Reason::UnknownNode)
    } else if !comes {
        Some(Reason::Role)
    } else {
        None
    }
}

fn heard_reason(params: &Params, heard: &HeardRow, comes: bool) -> Option<Reason>
    ensures { result ≡ heard_reason params.now heard.now comes }
{
    if !params.is_known(heard.receiver) {
        return Some(Reason::UnknownNode);
    }
    let Some(channel) = heard.channel else {
        return Some(Reason::BadChannel);
    };
    if !is_of_other(params, heard) || !comes {
        Some(Reason::Role)
    } else if !is_linked(params, heard, channel) {
        Some(Reason::Link)
    } else {
        None
    }
}

fn is_beyond(params: &Params, clock: &NodeRow) -> bool
    ensures { result ≡ is_beyond params.now clock.now }
{
    let rate = params.value(ParamName::pRateCorrectionOut);
    let offset = params.value(ParamName::pOffsetCorrectionOut);
    !is_within(rate, clock.rate) || !is_within(offset, clock.offset)
}

fn is_within(limit: i64, term: i32) -> bool
    requires from { negsuc 16_000 ≤ℤ limit }
    requires to { limit ≤ℤ pos 16_000 }
    ensures { result ≡ lies_within limit term }
{
    let term = i64::from(term);
    !(term < -limit || limit < term)
}

fn is_of_other(params: &Params, heard: &HeardRow) -> bool
    ensures { result ≡ is_of_other params.now heard.now }
{
    match params.key_node(heard.slot) {
        None => false,
        Some(sender) => sender.id != heard.receiver,
    }
}

fn is_linked(params: &Params, heard: &HeardRow, channel: Channel) -> bool
    ensures { result ≡ is_linked params.now heard.now channel }
{
    match params.key_node(heard.slot) {
        None => false,
        Some(sender) => params.common(sender.id, heard.receiver, channel),
    }
}
