ghost use Rattle.std.specs.Prelude.{◌≡◌, [], List, Some, None, ◌&&◌, IfOk, OnErr, is_some, if◌then◌else◌};
ghost use Rattle.std.specs.BTreeMap.{get};
ghost use Rattle.fr_base.specs.declared.reason.Reason.TheVariants as reason;
ghost use Rattle.fr_cluster.specs.Values.{Values};
ghost use Rattle.fr_drift.specs.Rows.{IsProperCount, IsProperDelay, IsMicrotickLength, IsProperStart};
ghost use Rattle.fr_base.specs.Within.{lies_within};
ghost use Rattle.fr_cluster.specs.Questions.{is_known};
ghost use Rattle.fr_text.specs.Records.{FileRecord};
ghost use Rattle.fr_drift.specs.Files.{DriftStandsFor};
ghost use Rattle.fr_drift.specs.Draft.{AreProper, IsDriftDraft, IsNewEntryPut, TakesDriftRow, TakesDriftRowAtOnce};
ghost use Rattle.fr_drift.specs.declared.rows.Row.TheVariants as said;

use crate::drift::Drift;
use crate::keys::{DelayKey, LengthKey};
use crate::rows::{DelayRow, LengthRow, Start, StartRow};
use fr_base::{Channel, NodeId, Reason};
use fr_cluster::{ParamName, Params};
use std::alloc::{AllocError, Global};
use std::collections::BTreeMap;

// What the records so far say: how many double cycles the run has, the starts by node, and the rows of
// lengths and of the delays of each channel by what they are about and the cycle from which on they hold.
pub(crate) struct Draft {
    pub(crate) doubles: Option<u32>,
    pub(crate) starts: BTreeMap<NodeId, Start>,
    pub(crate) lengths: BTreeMap<LengthKey, i64>,
    pub(crate) delays_a: BTreeMap<DelayKey, i64>,
    pub(crate) delays_b: BTreeMap<DelayKey, i64>,
}

// One call: a derived drop is opened in each function that drops a value, and proved there.
impl Drop for Draft {
    fn drop(self) {
        let Draft {
            doubles: _,
            starts: _,
            lengths: _,
            delays_a: _,
            delays_b: _,
        } = self;
    }
}

impl Draft {
    pub(crate) fn new(alloc: Global) -> Draft
        ensures { IsDriftDraft result [] }
    {
        Draft {
            doubles: None,
            starts: BTreeMap::new(alloc),
            lengths: BTreeMap::new(alloc),
            delays_a: BTreeMap::new(alloc),
            delays_b: BTreeMap::new(alloc),
        }
    }

    pub(crate) fn take_doubles(&mut self, count: u32) -> Option<Reason>
        requires { IsProperCount count }
        ensures { (p : Values) → TakesDriftRowAtOnce p self.old self.new (said.Doubles count) result }
    {
        if self.doubles.is_some() {
            return Some(Reason::Repeated);
        }
        self.doubles = Some(count);
        None
    }

    pub(crate) fn take_start(
        &mut self,
        params: &Params,
        row: StartRow,
    ) -> Result<Option<Reason>, AllocError>
        requires { IsProperStart row.start }
        ensures { TakesDriftRow params.now self.old self.new (said.Start row) result }
    {
        if !is_rate(params, row.start.rate) {
            return Ok(Some(Reason::OutOfRange));
        }
        if !params.is_known(row.node) {
            return Ok(Some(Reason::UnknownNode));
        }
        put(&mut self.starts, row.node, row.start)
    }

    pub(crate) fn take_length(
        &mut self,
        params: &Params,
        row: LengthRow,
    ) -> Result<Option<Reason>, AllocError>
        requires { IsMicrotickLength row.ticks }
        ensures { TakesDriftRow params.now self.old self.new (said.Length row) result }
    {
        if !params.is_known(row.node) {
            return Ok(Some(Reason::UnknownNode));
        }
        let key = LengthKey {
            node: row.node,
            from: row.from,
        };
        put(&mut self.lengths, key, row.ticks)
    }

    pub(crate) fn take_delay(
        &mut self,
        params: &Params,
        row: DelayRow,
    ) -> Result<Option<Reason>, AllocError>
        requires { IsProperDelay row.ticks }
        ensures { TakesDriftRow params.now self.old self.new (said.Delay row) result }
    {
        if !are_nodes(params, row.sender, row.receiver) {
            return Ok(Some(Reason::UnknownNode));
        }
        let Some(channel) = row.channel else {
            return Ok(Some(Reason::BadChannel));
        };
        if row.sender == row.receiver {
            return Ok(Some(Reason::Role));
        }
        if !params.common(row.sender, row.receiver, channel) {
            return Ok(Some(Reason::Link));
        }
        let key = DelayKey {
            sender: row.sender,
            receiver: row.receiver,
            from: row.from,
        };
        match channel {
            Channel::A => put(&mut self.delays_a, key, row.ticks),
            Channel::B => put(&mut self.delays_b, key, row.ticks),
        }
    }

    // What the tables stand for against these parameters.
    pub(crate) fn into_drift(self, params: &Params, doubles: u32) -> Drift
        requires proper { AreProper self }
        requires told { self.doubles ≡ Some doubles }
        ensures { (records : List FileRecord) → IsDriftDraft self records → DriftStandsFor params.now result records }
    {
        let Draft {
            doubles: _,
            starts,
            lengths,
            delays_a,
            delays_b,
        } = self;
        Drift {
            doubles,
            compensation_a: params.compensation(Channel::A),
            compensation_b: params.compensation(Channel::B),
            starts,
            lengths,
            delays_a,
            delays_b,
        }
    }
}

// Puts a value under a key, or answers `Repeated` where the key has one. Where memory runs out nothing
// is put.
pub(crate) fn put<K: Ord + Copy, V: Drop>(
    rows: &mut BTreeMap<K, V>,
    key: K,
    value: V,
) -> Result<Option<Reason>, AllocError>
    ensures why { IfOk result (λ why. why ≡ (if is_some (get K.cmp rows.old key) then Some reason.Repeated else None)) }
    ensures puts { IfOk result (λ why. why ≡ None → IsNewEntryPut K.cmp rows.old rows.new key value) }
    ensures kept { OnErr result (rows.new.entries ≡ rows.old.entries) }
{
    if rows.contains_key(&key) {
        return Ok(Some(Reason::Repeated));
    }
    rows.insert(key, value)?;
    Ok(None)
}

fn is_rate(params: &Params, rate: i32) -> bool
    ensures { result ≡ lies_within params.now.rate_limit rate }
{
    let limit = params.value(ParamName::pRateCorrectionOut);
    let rate = i64::from(rate);
    !(rate < -limit || limit < rate)
}

fn are_nodes(params: &Params, sender: NodeId, receiver: NodeId) -> bool
    ensures { result ≡ (is_known params.now sender && is_known params.now receiver) }
{
    params.is_known(sender) && params.is_known(receiver)
}
