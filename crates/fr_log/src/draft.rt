ghost use Rattle.std.specs.Prelude.{◌≡◌, ◌≤◌, ◌*◌, [], List, None, Some, IfSome, nat_lt, slice_set, true};
ghost use Rattle.std.specs.List.{list_any};
ghost use Rattle.fr_text.specs.Records.{FileRecord};
ghost use Rattle.fr_log.specs.Draft.{EndsLog, IsLogDraft, TakesLogRow, TakesLogRowAtOnce, log_drafted, number_in_table};
ghost use Rattle.fr_log.specs.Files.{lacks_delay, lacks_limits, lacks_on};
ghost use Rattle.fr_log.specs.Numbers.{IsHeadNumber, head_place};
ghost use Rattle.fr_log.specs.Reasons.{comes_out_of_turn, delay_limits_by, has_entry, is_arbitrary_by, is_below_last, is_beyond_last, is_misfit, log_reason_after, number_by};
ghost use Rattle.fr_log.specs.Rows.{IsProperCame, IsProperLogRow, last_stamp, most_delay};
ghost use Rattle.fr_log.specs.declared.rows.HeadNumber.TheVariants as head;
ghost use Rattle.fr_log.specs.declared.rows.Row.TheVariants as said;

use crate::entry::Entry;
use crate::fault::LogFault;
use crate::log::Log;
use crate::rows::{DelayLimits, DelayRow, EntryRow, HeadNumber, LAST_STAMP, Row, read_row};
use fr_base::{Channel, NodeId, Reason};
use fr_cluster::{NodeList, NodeSpec, Params};
use fr_text::{Record, RecordTable};
use std::alloc::{AllocError, Global};

// What the records so far say: the numbers of the head by their place, whether no frame was missed, which nodes are
// arbitrary and what limits the delays of their frames on each channel, by their number, what limits all others, and
// the entries.
pub(crate) struct Draft<'a> {
    pub(crate) alloc: Global,
    pub(crate) params: &'a Params,
    pub(crate) numbers: [Option<u64>; 7],
    pub(crate) whole: bool,
    pub(crate) arbitrary: [bool; 65],
    pub(crate) on_a: [Option<DelayLimits>; 65],
    pub(crate) on_b: [Option<DelayLimits>; 65],
    pub(crate) each: Option<DelayLimits>,
    pub(crate) entries: Vec<Entry>,
}

// One call: a derived drop is opened in each function that drops a value, and proved there.
impl Drop for Draft<'_> {
    fn drop(self) {
        let Draft {
            alloc: _,
            params: _,
            numbers: _,
            whole: _,
            arbitrary: _,
            on_a: _,
            on_b: _,
            each: _,
            entries: _,
        } = self;
    }
}

impl<'a> Draft<'a> {
    pub(crate) fn new(alloc: Global, params: &'a Params) -> Draft<'a>
        ensures none { IsLogDraft result [] }
        ensures params { result.params.now ≡ params.now }
    {
        Draft {
            alloc,
            params,
            numbers: [None; 7],
            whole: false,
            arbitrary: [false; 65],
            on_a: [None; 65],
            on_b: [None; 65],
            each: None,
            entries: Vec::new(alloc),
        }
    }

    fn take(&mut self, row: Row) -> Result<Option<Reason>, AllocError>
        requires { IsProperLogRow row }
        ensures { TakesLogRow self.old self.new row result }
    {
        match row {
            Row::Number(name, number) => Ok(self.take_number(name, number)),
            Row::Whole => Ok(self.take_whole()),
            Row::Arbitrary(node) => Ok(self.take_node(node)),
            Row::Delay(delay) => Ok(self.take_delay(&delay)),
            Row::EachDelay(limits) => Ok(self.take_each(limits)),
            Row::Came(entry) => self.take_entry(entry),
        }
    }

    fn take_number(&mut self, name: HeadNumber, number: u64) -> Option<Reason>
        requires { IsHeadNumber name number }
        ensures { TakesLogRowAtOnce self.old self.new (said.Number name number) result }
    {
        if is_misfit(name, number) || self.has_entry() {
            return Some(Reason::Role);
        }
        if self.number(name).is_some() {
            return Some(Reason::Repeated);
        }
        note_number(&mut self.numbers, name, number);
        None
    }

    fn take_whole(&mut self) -> Option<Reason>
        ensures { TakesLogRowAtOnce self.old self.new said.Whole result }
    {
        if self.has_entry() {
            return Some(Reason::Role);
        }
        if self.whole {
            return Some(Reason::Repeated);
        }
        self.whole = true;
        None
    }

    fn take_node(&mut self, node: NodeId) -> Option<Reason>
        ensures { TakesLogRowAtOnce self.old self.new (said.Arbitrary node) result }
    {
        let params = self.params;
        let Some(spec) = params.node(node) else {
            return Some(Reason::UnknownNode);
        };
        if spec.key.is_none() || self.has_entry() {
            return Some(Reason::Role);
        }
        if self.is_arbitrary(node) {
            return Some(Reason::Repeated);
        }
        mark(&mut self.arbitrary, node);
        None
    }

    fn take_delay(&mut self, row: &DelayRow) -> Option<Reason>
        requires { row.now.limits.high ≤ most_delay }
        ensures { TakesLogRowAtOnce self.old self.new (said.Delay row.now) result }
    {
        let params = self.params;
        let Some(spec) = params.node(row.node) else {
            return Some(Reason::UnknownNode);
        };
        let Some(channel) = row.channel else {
            return Some(Reason::BadChannel);
        };
        if row.limits.high < row.limits.low || self.has_entry() {
            return Some(Reason::Role);
        }
        if !spec.has_channel(channel) {
            return Some(Reason::Link);
        }
        if self.limits(row.node, channel).is_some() {
            return Some(Reason::Repeated);
        }
        match channel {
            Channel::A => note(&mut self.on_a, row.node, row.limits),
            Channel::B => note(&mut self.on_b, row.node, row.limits),
        }
        None
    }

    fn take_each(&mut self, limits: DelayLimits) -> Option<Reason>
        requires { limits.high ≤ most_delay }
        ensures { TakesLogRowAtOnce self.old self.new (said.EachDelay limits) result }
    {
        if limits.high < limits.low || self.has_entry() {
            return Some(Reason::Role);
        }
        if self.each.is_some() {
            return Some(Reason::Repeated);
        }
        self.each = Some(limits);
        None
    }

    fn take_entry(&mut self, row: EntryRow) -> Result<Option<Reason>, AllocError>
        requires { IsProperCame row }
        ensures { TakesLogRow self.old self.new (said.Came row) result }
    {
        let EntryRow {
            kind,
            stamp,
            channel,
            bytes,
        } = row;
        if self.is_beyond_last(stamp) {
            return Ok(Some(Reason::OutOfRange));
        }
        let Some(channel) = channel else {
            return Ok(Some(Reason::BadChannel));
        };
        if self.is_out_of_turn(stamp) {
            return Ok(Some(Reason::Role));
        }
        let Some(bytes) = bytes else {
            return Ok(Some(Reason::NotHex));
        };
        self.entries.push(Entry {
            kind,
            stamp,
            channel,
            bytes,
        })?;
        Ok(None)
    }

    fn has_entry(&self) -> bool
        ensures { (done : List FileRecord) → IsLogDraft self.now done → result ≡ has_entry done }
    {
        !self.entries.is_empty()
    }

    fn number(&self, name: HeadNumber) -> Option<u64>
        ensures { (done : List FileRecord) → IsLogDraft self.now done → result ≡ number_by name done }
    {
        self.numbers[name.place()]
    }

    fn is_arbitrary(&self, node: NodeId) -> bool
        ensures { (done : List FileRecord) → IsLogDraft self.now done → result ≡ is_arbitrary_by node done }
    {
        self.arbitrary[usize::from(node.0)]
    }

    fn limits(&self, node: NodeId, channel: Channel) -> Option<DelayLimits>
        ensures { (done : List FileRecord) → IsLogDraft self.now done → result ≡ delay_limits_by node channel done }
    {
        match channel {
            Channel::A => self.on_a[usize::from(node.0)],
            Channel::B => self.on_b[usize::from(node.0)],
        }
    }

    // Whether a stamp is too great for the unit.
    fn is_beyond_last(&self, stamp: u64) -> bool
        ensures { (done : List FileRecord) → IsLogDraft self.now done → result ≡ is_beyond_last done stamp }
    {
        match self.number(HeadNumber::Unit) {
            Some(unit) => is_beyond(unit, stamp),
            None => false,
        }
    }

    // Whether an entry comes before a unit, or with a stamp below that of the entry before.
    fn is_out_of_turn(&self, stamp: u64) -> bool
        ensures { (done : List FileRecord) → IsLogDraft self.now done → result ≡ comes_out_of_turn done stamp }
    {
        self.number(HeadNumber::Unit).is_none() || is_below_last(self.entries.as_slice(), stamp)
    }

    // The log that the records stand for, or the first thing that they do not say.
    pub(crate) fn into_log(self, params: &Params) -> Result<Log, LogFault>
        requires { (done : List FileRecord) × IsLogDraft self done }
        ensures { (done : List FileRecord) → IsLogDraft self.entry done → EndsLog params.now done result }
    {
        let Some(unit) = self.number(HeadNumber::Unit) else {
            return Err(LogFault::MissingUnit);
        };
        let Some(drift) = self.number(HeadNumber::Drift) else {
            return Err(LogFault::MissingDrift);
        };
        if self.lacks_delay(params) {
            return Err(LogFault::MissingDelay);
        }
        Ok(self.into_log_of(unit, drift))
    }

    fn into_log_of(self, unit: u64, drift: u64) -> Log
        requires drafted { (done : List FileRecord) × IsLogDraft self done }
        requires unit { number_in_table self.numbers head.Unit ≡ Some unit }
        requires drift { number_in_table self.numbers head.Drift ≡ Some drift }
        ensures { result ≡ log_drafted self.entry unit drift }
    {
        let Draft {
            alloc: _,
            params: _,
            numbers,
            whole,
            arbitrary,
            on_a,
            on_b,
            each,
            entries,
        } = self;
        Log {
            unit,
            drift,
            error: numbers[2].unwrap_or(0),
            jitter: numbers[3],
            flutter: numbers[5],
            lost: numbers[6].unwrap_or(0),
            since: cycle_of(numbers[4]),
            whole,
            arbitrary,
            on_a,
            on_b,
            each,
            entries,
        }
    }

    // Whether a correct node with a key slot has a channel on which the delay of its frames is not limited.
    fn lacks_delay(&self, params: &Params) -> bool
        ensures { (done : List FileRecord) → IsLogDraft self.now done → result ≡ lacks_delay params.now done }
    {
        self.lacks_among(&params.nodes)
    }

    fn lacks_among(&self, nodes: &NodeList) -> bool
        ensures { (done : List FileRecord) → IsLogDraft self.now done →
            result ≡ list_any (lacks_limits done) nodes.now }
    {
        for place in 0..nodes.len() {
            match nodes.get(place) {
                Some(node) => {
                    if self.lacks_limits(node) {
                        return true;
                    }
                }
                None => {}
            }
        }
        false
    }

    fn lacks_limits(&self, node: &NodeSpec) -> bool
        ensures { (done : List FileRecord) → IsLogDraft self.now done → result ≡ lacks_limits done node.now }
    {
        node.key.is_some()
            && !self.is_arbitrary(node.id)
            && (self.lacks_on(node, Channel::A) || self.lacks_on(node, Channel::B))
    }

    fn lacks_on(&self, node: &NodeSpec, channel: Channel) -> bool
        ensures { (done : List FileRecord) → IsLogDraft self.now done → result ≡ lacks_on done node.now channel }
    {
        node.has_channel(channel) && self.limits(node.id, channel).or(self.each).is_none()
    }
}

fn is_misfit(name: HeadNumber, number: u64) -> bool
    ensures { result ≡ is_misfit name number }
{
    match name {
        HeadNumber::Since => number % 2 == 1,
        HeadNumber::Unit
        | HeadNumber::Drift
        | HeadNumber::Error
        | HeadNumber::Jitter
        | HeadNumber::Flutter
        | HeadNumber::Lost => false,
    }
}

// Whether an instant of so many units comes after the greatest.
fn is_beyond(unit: u64, stamp: u64) -> bool
    ensures { result ≡ nat_lt last_stamp (unit * stamp) }
{
    match unit.checked_mul(stamp) {
        Some(ticks) => LAST_STAMP < ticks,
        None => true,
    }
}

fn is_below_last(entries: &[Entry], stamp: u64) -> bool
    ensures { result ≡ is_below_last entries.now stamp }
{
    match entries.last() {
        Some(entry) => stamp < entry.stamp,
        None => false,
    }
}

// Notes a number of the head.
fn note_number(numbers: &mut [Option<u64>; 7], name: HeadNumber, number: u64)
    ensures { numbers.new ≡ slice_set numbers.old (head_place name) (Some number) }
{
    numbers[name.place()] = Some(number);
}

// Marks a node as arbitrary.
fn mark(marks: &mut [bool; 65], node: NodeId)
    ensures marks { marks.new ≡ slice_set marks.old node true }
    ensures low { node ≤ 64 }
{
    marks[usize::from(node.0)] = true;
}

// Notes the limits of the delays of a node.
fn note(limits: &mut [Option<DelayLimits>; 65], node: NodeId, noted: DelayLimits)
    ensures noted { limits.new ≡ slice_set limits.old node (Some noted) }
    ensures low { node ≤ 64 }
{
    limits[usize::from(node.0)] = Some(noted);
}

// A number of the head as a cycle.
fn cycle_of(number: Option<u64>) -> Option<u32>
    requires { IfSome number (λ n. n ≤ 199_998) }
    ensures { result ≡ number }
{
    match number {
        Some(cycle) => Some(cycle as u32),
        None => None,
    }
}

impl<'a> RecordTable for Draft<'a> {
    ghost reason = { λ draft. log_reason_after draft.params.now };

    ghost holds = { λ draft records. IsLogDraft draft records };

    fn add(&mut self, row: &Record<'_>) -> Result<Option<Reason>, AllocError> {
        match read_row(self.alloc, row)? {
            Err(why) => Ok(Some(why)),
            Ok(said) => self.take(said),
        }
    }
}
