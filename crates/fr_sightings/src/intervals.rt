ghost use Rattle.std.specs.Prelude.{◌≡◌, ◌==◌, ◌*◌, ◌≤◌, ℤ, IfSome};
ghost use Rattle.fr_course.specs.Near.{AreDelays, IsBox, IsObserver, IsSpan, EndBetween};
ghost use Rattle.fr_log.specs.Rows.{last_stamp};
ghost use Rattle.fr_log.specs.View.{AreDelayLimits};
ghost use Rattle.fr_sightings.specs.Ranges.{AreLogStamps};
ghost use Rattle.fr_sightings.specs.Senders.{seen_box, box_on, delays_by, delays_in, first_stamp, is_sent_in, observer_of, on_both_channels, seen_span, span_on};
ghost use Rattle.fr_course.specs.Ranges.{greatest_delay};

use crate::sighting::Sighting;
use fr_base::{Channel, NodeId};
use fr_course::{Delays, Interval, Observer, meet, span_of, stamped};
use fr_log::{DelayLimits, Log};

/// A cycle of a log, and sightings among which those of its frames are.
#[derive(Clone, Copy)]
pub struct SeenCycle<'a> {
    /// Its number in the log.
    pub number: u32,
    pub seen: &'a [Sighting],
}

// The clock of the observer of a log.
fn observer(log: &Log) -> Observer
    ensures value { result ≡ observer_of log.now }
    ensures proper { IsObserver result }
{
    Observer {
        unit: log.unit(),
        drift: log.drift(),
        error: log.error(),
    }
}

fn delays_by(limits: Option<DelayLimits>, jitter: Option<u64>) -> Option<Delays>
    requires limits { IfSome limits AreDelayLimits }
    requires jitter { IfSome jitter (λ ticks. ticks ≤ greatest_delay) }
    ensures value { result ≡ delays_by limits jitter }
    ensures proper { IfSome result AreDelays }
{
    match limits {
        None => None,
        Some(limits) => match jitter {
            None => None,
            Some(jitter) => Some(Delays {
                least: limits.low,
                most: limits.high,
                jitter,
            }),
        },
    }
}

// The delays of a node's frames on a channel to the observer, where the log limits them.
#[tactic(auto, unfolding(crate::specs::Senders::delays_in))]
fn delays_in(log: &Log, node: NodeId, channel: Channel) -> Option<Delays>
    ensures value { result ≡ delays_in log.now node channel }
    ensures proper { IfSome result AreDelays }
{
    delays_by(log.limits_of(node, channel), log.jitter_of(node, channel))
}

/// The stamp of the first frame of a node on a channel in a cycle of the log, in units of the log, if one was seen
/// there.
#[tactic(auto, unfolding(crate::specs::Senders::first_stamp))]
pub fn first_stamp(seen: &[Sighting], node: NodeId, channel: Channel, cycle: u32) -> Option<u64>
    ensures { result ≡ first_stamp seen.now node channel cycle }
{
    match seen.iter().find(|s| s.node == node && s.channel.is_same(channel) && s.number == cycle) {
        None => None,
        Some(first) => Some(first.stamp),
    }
}

// The same, which lies within the limits of the log.
fn timed_stamp(
    log: &Log,
    seen: &[Sighting],
    node: NodeId,
    channel: Channel,
    cycle: u32,
) -> Option<u64>
    requires { AreLogStamps log.now seen.now }
    ensures value { result ≡ first_stamp seen.now node channel cycle }
    ensures timed { IfSome result (λ stamp. log.now.unit * stamp ≤ last_stamp) }
{
    first_stamp(seen, node, channel, cycle)
}

fn box_on(
    log: &Log,
    seen: &[Sighting],
    node: NodeId,
    cycle: u32,
    channel: Channel,
) -> Option<Interval>
    requires { AreLogStamps log.now seen.now }
    ensures value { result ≡ box_on log.now seen.now node cycle channel }
    ensures near { IfSome result IsBox }
{
    match delays_in(log, node, channel) {
        None => None,
        Some(delays) => match timed_stamp(log, seen, node, channel, cycle) {
            None => None,
            Some(stamp) => Some(stamped(&observer(log), &delays, stamp)),
        },
    }
}

fn span_on(
    log: &Log,
    node: NodeId,
    channel: Channel,
    cycle: &SeenCycle<'_>,
    later: &SeenCycle<'_>,
) -> Option<Interval>
    requires seen { AreLogStamps log.now cycle.now.seen.now }
    requires later_seen { AreLogStamps log.now later.now.seen.now }
    ensures value { result ≡
        span_on log.now cycle.now.seen.now later.now.seen.now node cycle.now.number later.now.number channel }
    ensures near { IfSome result IsSpan }
{
    match delays_in(log, node, channel) {
        None => None,
        Some(delays) => match timed_stamp(log, cycle.seen, node, channel, cycle.number) {
            None => None,
            Some(stamp) => match timed_stamp(log, later.seen, node, channel, later.number) {
                None => None,
                Some(later) => Some(span_of(&observer(log), &delays, stamp, later)),
            },
        },
    }
}

// What lies in the intervals of both channels.
#[tactic(auto, unfolding(fr_course::specs::Readings::meet_all))]
fn on_both_channels(on_a: Option<Interval>, on_b: Option<Interval>) -> Option<Interval>
    ensures value { result ≡ on_both_channels on_a on_b }
    ensures near { (least greatest : ℤ) → IfSome on_a (EndBetween least greatest) →
        IfSome on_b (EndBetween least greatest) → IfSome result (EndBetween least greatest) }
{
    match on_a {
        None => on_b,
        Some(on_a) => match on_b {
            None => Some(on_a),
            Some(on_b) => Some(meet(&on_b, &on_a)),
        },
    }
}

/// Where the action point of a node in a cycle of the log can lie, in ticks of the observer's clock, by its frames on
/// both channels; None where none was seen there.
#[tactic(auto, unfolding(crate::specs::Senders::seen_box))]
pub fn seen_box(log: &Log, seen: &[Sighting], node: NodeId, cycle: u32) -> Option<Interval>
    requires { AreLogStamps log.now seen.now }
    ensures value { result ≡ seen_box log.now seen.now node cycle }
    ensures near { IfSome result IsBox }
{
    on_both_channels(
        box_on(log, seen, node, cycle, Channel::A),
        box_on(log, seen, node, cycle, Channel::B),
    )
}

/// How much later than that in a cycle that in another one lies, in ticks of the observer's clock, by frames on one
/// channel in both; None where there are none.
#[tactic(auto, unfolding(crate::specs::Senders::seen_span))]
pub fn seen_span(
    log: &Log,
    node: NodeId,
    cycle: &SeenCycle<'_>,
    later: &SeenCycle<'_>,
) -> Option<Interval>
    requires seen { AreLogStamps log.now cycle.now.seen.now }
    requires later_seen { AreLogStamps log.now later.now.seen.now }
    ensures value { result ≡
        seen_span log.now cycle.now.seen.now later.now.seen.now node cycle.now.number later.now.number }
    ensures near { IfSome result IsSpan }
{
    on_both_channels(
        span_on(log, node, Channel::A, cycle, later),
        span_on(log, node, Channel::B, cycle, later),
    )
}
