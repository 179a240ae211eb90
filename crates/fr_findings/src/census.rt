ghost use Rattle.std.specs.Prelude.{◌≡◌, ◌==◌, ◌+◌, ◌-◌, ◌≤◌, ◌<◌, ◌++◌, Some, is_none, length, slice_get};
ghost use Rattle.std.specs.List.{range_with_len};
ghost use Rattle.fr_base.specs.Device.{Puts};
ghost use Rattle.fr_base.specs.declared.channel.Channel.TheVariants.{A, B};
ghost use Rattle.fr_time.specs.Cycles.{double_cycle_of};
ghost use Rattle.fr_text.specs.Pieces.{Spells};
ghost use Rattle.fr_sightings.specs.Senders.{first_stamp};
ghost use Rattle.fr_sightings.specs.Ranges.{AreSeenFrom, AreNumbered, DoublesAscend};
ghost use Rattle.fr_findings.specs.Census.{census_row, census_row_if, census_rows, census_text, first_frame_from, frames_from, is_from, is_of_log, lacks_both, lacks_in, last_frame_from, later_frame_from, missed_among, missed_of, own_rows};
ghost use Rattle.fr_observe.specs.Observing.{known_count};

use crate::ends::known_cycle;
use fr_base::{Channel, NodeId, PutFault, Sink, Slot};
use fr_bound::DoubleNumber;
use fr_cluster::{NodeSpec, Params};
use fr_log::Log;
use fr_observe::LogSpan;
use fr_sightings::{Sighting, first_stamp, look_at};
use fr_text::Piece::{Natural, Word};
use fr_text::{Line, Piece, letter_of, put_line, row_of};

// Whether a sighting is that of a node on a channel.
fn is_from(sighting: &Sighting, node: NodeId, channel: Channel) -> bool
    ensures { result ≡ is_from node channel sighting.now }
{
    sighting.node == node && sighting.channel.is_same(channel)
}

// How many there are.
#[tactic(auto, unfolding(crate::specs::Census::frames_from))]
fn frames_from(seen: &[Sighting], node: NodeId, channel: Channel) -> u64
    ensures { result ≡ frames_from seen.now node channel }
{
    let mut frames = 0;
    for sighting in seen {
        if is_from(sighting, node, channel) {
            frames += 1;
        }
    }
    frames
}

// The cycle of the first.
#[tactic(auto, unfolding(crate::specs::Census::first_frame_from))]
fn first_frame_from(seen: &[Sighting], node: NodeId, channel: Channel) -> Option<u32>
    ensures { result ≡ first_frame_from seen.now node channel }
{
    match seen
        .iter()
        .find(|s| s.node == node && s.channel.is_same(channel))
    {
        None => None,
        Some(first) => Some(first.number),
    }
}

fn later_frame_from(
    last: Option<u32>,
    sighting: &Sighting,
    node: NodeId,
    channel: Channel,
) -> Option<u32>
    ensures { result ≡ later_frame_from node channel last sighting.now }
{
    if is_from(sighting, node, channel) {
        Some(sighting.number)
    } else {
        last
    }
}

// The cycle of the last.
#[tactic(auto, unfolding(crate::specs::Census::last_frame_from))]
fn last_frame_from(seen: &[Sighting], node: NodeId, channel: Channel) -> Option<u32>
    ensures { result ≡ last_frame_from seen.now node channel }
{
    let mut last = None;
    for sighting in seen {
        last = later_frame_from(last, sighting, node, channel);
    }
    last
}

// Whether there is none in a cycle.
fn is_lacking(here: &[Sighting], node: NodeId, channel: Channel, cycle: u32) -> bool
    ensures { result ≡ is_none (first_stamp here.now node channel cycle) }
{
    match first_stamp(here, node, channel, cycle) {
        None => true,
        Some(_) => false,
    }
}

// Whether a cycle is one of the log, from that of its first sighting to that of its last.
fn is_of_log(span: &LogSpan, cycle: u32) -> bool
    ensures { result ≡ is_of_log span.now.first span.now.last cycle }
{
    span.first <= cycle && cycle <= span.last
}

fn lacks_in(span: &LogSpan, here: &[Sighting], node: NodeId, channel: Channel, cycle: u32) -> u64
    ensures value { result ≡ lacks_in span.now.first span.now.last here.now node channel cycle }
    ensures most { result ≤ 1 }
{
    if is_of_log(span, cycle) && is_lacking(here, node, channel, cycle) {
        1
    } else {
        0
    }
}

#[tactic(auto, unfolding(crate::specs::Census::lacks_both))]
fn lacks_both(
    span: &LogSpan,
    here: &[Sighting],
    node: NodeId,
    channel: Channel,
    double: DoubleNumber,
) -> u64
    ensures value { result ≡ lacks_both span.now.first span.now.last here.now node channel double }
    ensures most { result ≤ 2 }
{
    lacks_in(span, here, node, channel, 2 * double.0)
        + lacks_in(span, here, node, channel, 2 * double.0 + 1)
}

// In how many cycles of the log, from its first to its last, there is none.
fn missed_between(seen: &[Sighting], span: &LogSpan, node: NodeId, channel: Channel) -> u64
    requires ascend { DoublesAscend seen.now }
    requires from { AreSeenFrom (double_cycle_of span.now.first) seen.now }
    requires first { double_cycle_of span.now.first ≤ double_cycle_of span.now.last }
    requires last { span.now.last ≤ 199_999 }
    ensures { result ≡ missed_among span.now.first span.now.last seen.now node channel
        (range_with_len (double_cycle_of span.now.first)
        (double_cycle_of span.now.last + 1 - double_cycle_of span.now.first)) }
{
    let mut rest = seen;
    let mut double = span.first / 2;
    let mut missed = 0;
    while double <= span.last / 2 {
        let number = DoubleNumber(double);
        let look = look_at(rest, number);
        missed += lacks_both(span, look.here, node, channel, number);
        rest = look.behind;
        double += 1;
    }
    missed
}

// The same by all sightings.
#[tactic(auto, unfolding(crate::specs::Census::missed_of))]
fn missed_of(seen: &[Sighting], node: NodeId, channel: Channel) -> u64
    requires ascend { DoublesAscend seen.now }
    requires numbered { AreNumbered seen.now }
    ensures { result ≡ missed_of seen.now node channel }
{
    match seen.first() {
        None => 0,
        Some(first) => match seen.last() {
            None => 0,
            Some(last) => {
                let span = LogSpan {
                    first: first.number,
                    last: last.number,
                };
                missed_between(seen, &span, node, channel)
            }
        },
    }
}

// A sender of the log on a channel: how many sightings of it there are, the first and the last cycle, and in how many
// cycles there is none.
#[tactic(auto, unfolding(crate::specs::Census::census_row))]
fn census_row(seen: &[Sighting], node: NodeId, channel: Channel) -> Line
    requires ascend { DoublesAscend seen.now }
    requires numbered { AreNumbered seen.now }
    ensures { result ≡ census_row seen.now node channel }
{
    row_of(
        b"sender",
        &[
            Natural(u64::from(node.0)),
            letter_of(channel),
            Natural(frames_from(seen, node, channel)),
            known_cycle(first_frame_from(seen, node, channel)),
            known_cycle(last_frame_from(seen, node, channel)),
            Natural(missed_of(seen, node, channel)),
            Word(b""),
        ],
    )
}

// The row of a node on a channel, if it has it.
fn put_if<O: Sink>(
    seen: &[Sighting],
    node: NodeId,
    channel: Channel,
    has: bool,
    out: &mut O,
) -> Result<(), PutFault>
    requires ascend { DoublesAscend seen.now }
    requires numbered { AreNumbered seen.now }
    ensures { Puts result (O.state out.old) (O.state out.new) (census_row_if seen.now node channel has) }
{
    if has {
        put_line(&census_row(seen, node, channel), out)
    } else {
        Ok(())
    }
}

fn put_both<O: Sink>(seen: &[Sighting], node: &NodeSpec, out: &mut O) -> Result<(), PutFault>
    requires ascend { DoublesAscend seen.now }
    requires numbered { AreNumbered seen.now }
    ensures { Puts result (O.state out.old) (O.state out.new)
        (census_row_if seen.now node.now.id A node.now.on_a ++ census_row_if seen.now node.now.id B node.now.on_b) }
{
    put_if(seen, node.id, Channel::A, node.on_a, out)?;
    put_if(seen, node.id, Channel::B, node.on_b, out)
}

fn put_own<O: Sink>(
    seen: &[Sighting],
    node: &NodeSpec,
    key: Option<Slot>,
    out: &mut O,
) -> Result<(), PutFault>
    requires ascend { DoublesAscend seen.now }
    requires numbered { AreNumbered seen.now }
    ensures { Puts result (O.state out.old) (O.state out.new) (own_rows seen.now node.now key) }
{
    match key {
        None => Ok(()),
        Some(_) => put_both(seen, node, out),
    }
}

// The rows of a node, if it is correct and has a key slot.
#[tactic(auto, unfolding(crate::specs::Census::census_rows))]
fn put_sender<O: Sink>(
    log: &Log,
    seen: &[Sighting],
    node: &NodeSpec,
    out: &mut O,
) -> Result<(), PutFault>
    requires ascend { DoublesAscend seen.now }
    requires numbered { AreNumbered seen.now }
    ensures { Puts result (O.state out.old) (O.state out.new) (census_rows log.now seen.now node.now) }
{
    if log.is_arbitrary(node.id) {
        Ok(())
    } else {
        put_own(seen, node, node.key, out)
    }
}

// The rows of all senders of a log by its sightings, in the order of the parameters. Puts have whole lines.
pub(crate) fn put_census<O: Sink>(
    params: &Params,
    log: &Log,
    seen: &[Sighting],
    out: &mut O,
) -> Result<(), PutFault>
    requires ascend { DoublesAscend seen.now }
    requires numbered { AreNumbered seen.now }
    ensures { Puts result (O.state out.old) (O.state out.new) (census_text params.now log.now seen.now) }
{
    for place in 0..params.node_count() {
        put_sender(log, seen, params.node_at(place), out)?;
    }
    Ok(())
}
