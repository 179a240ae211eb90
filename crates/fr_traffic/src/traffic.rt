ghost use Rattle.std.specs.Prelude.{ℕ, ◌≡◌, ◌≤◌, ◌+◌, ◌*◌, ◌||◌, ◌&&◌, true, false, not, nat_le, length, List, count_by};
ghost use Rattle.fr_base.specs.declared.channel.Channel.TheVariants as channel;
ghost use Rattle.fr_cluster.specs.declared.nodes.NodeSpec.{NodeSpec};
ghost use Rattle.fr_script.specs.Events.{event_of, event_seen};
ghost use Rattle.fr_script.specs.View.{is_arbitrary, join_of};
ghost use Rattle.fr_coverage.specs.Links.{is_sync};
ghost use Rattle.fr_midpoint.specs.Midpoint.{discarded};
ghost use Rattle.fr_traffic.specs.Traffic.{arbitrary_count, comes, further_count, has_begun, has_value, is_correct_sender, is_staying_sender, is_trusted, may_be_said, may_receive, may_say, may_send, may_send_by, most_count, sender_count, stays, sure_count, traffic_with, value_on};

use fr_base::Channel;
use fr_bound::DoubleNumber;
use fr_cluster::{Join, NodeList, NodeSpec};
use fr_coverage::shares;
use fr_script::{Event, Script};

// What is asked of the frames of a double cycle: for rate values or for offset values, and whether they surely come.
#[derive(Drop)]
pub(crate) struct Asked {
    pub(crate) rate: bool,
    pub(crate) surely: bool,
    pub(crate) double: DoubleNumber,
}

impl Asked {
    // The values of one kind that surely come in a double cycle.
    pub(crate) fn surely(rate: bool, double: DoubleNumber) -> Asked
        ensures rate { result.rate ≡ rate }
        ensures surely { result.surely ≡ true }
        ensures double { result.double ≡ double }
    {
        Asked {
            rate,
            surely: true,
            double,
        }
    }

    // The values of one kind that may come in a double cycle.
    pub(crate) fn maybe(rate: bool, double: DoubleNumber) -> Asked
        ensures rate { result.rate ≡ rate }
        ensures surely { result.surely ≡ false }
        ensures double { result.double ≡ double }
    {
        Asked {
            rate,
            surely: false,
            double,
        }
    }
}

// ---- who takes part

pub(crate) fn is_correct_sender(script: &Script, node: &NodeSpec) -> bool
    ensures { result ≡ (is_sync node.now && not (is_arbitrary script.now node.now.id)) }
{
    node.key.is_some() && !script.arbitrary(node.id)
}

// A correct sender that does not join.
pub(crate) fn is_staying_sender(script: &Script, node: &NodeSpec) -> bool
    ensures { (nodes : List NodeSpec) → result ≡ is_staying_sender (traffic_with nodes script.now) node.now }
{
    is_correct_sender(script, node) && script.join(node.id).is_none()
}

// A correct sender that may send in a double cycle.
pub(crate) fn may_send(script: &Script, double: DoubleNumber, node: &NodeSpec) -> bool
    ensures { (nodes : List NodeSpec) → result ≡ may_send (traffic_with nodes script.now) double node.now }
{
    is_correct_sender(script, node) && may_send_by(script.join(node.id), double)
}

fn may_send_by(join: Option<Join>, double: DoubleNumber) -> bool
    ensures { result ≡ may_send_by join double }
{
    match join {
        None => true,
        Some(join) => 3 <= double.0 && join.double <= double.0 - 3,
    }
}

// A correct node that has begun by a double cycle.
pub(crate) fn may_receive(script: &Script, double: DoubleNumber, node: &NodeSpec) -> bool
    ensures { (nodes : List NodeSpec) → result ≡ may_receive (traffic_with nodes script.now) double node.now }
{
    !script.arbitrary(node.id) && has_begun(script.join(node.id), double)
}

fn has_begun(join: Option<Join>, double: DoubleNumber) -> bool
    ensures { result ≡ has_begun join double }
{
    match join {
        None => true,
        Some(join) => join.double < double.0,
    }
}

// ---- one receiver

// Of how many senders that stay on a receiver surely has a value.
pub(crate) fn sure_count(
    nodes: &NodeList,
    script: &Script,
    rate: bool,
    double: DoubleNumber,
    receiver: &NodeSpec,
) -> u64
    requires few { length nodes.now ≤ 64 }
    ensures value { result ≡ sure_count rate (traffic_with nodes.now script.now) double receiver.now }
    ensures most { result ≤ 64 }
{
    let asked = Asked::surely(rate, double);
    let mut count = 0;
    for place in 0..nodes.len() {
        match nodes.get(place) {
            Some(node) => {
                if is_relied_on(script, &asked, receiver, node) {
                    count += 1;
                }
            }
            None => {}
        }
    }
    count
}

// A sender that stays on, of whom a receiver surely has such a value.
pub(crate) fn is_relied_on(
    script: &Script,
    asked: &Asked,
    receiver: &NodeSpec,
    sender: &NodeSpec,
) -> bool
    ensures { (nodes : List NodeSpec) → result ≡ (is_correct_sender (traffic_with nodes script.now) sender.now
        && (stays (traffic_with nodes script.now) sender.now
        && has_value asked.now.rate asked.now.surely (traffic_with nodes script.now) asked.now.double receiver.now
        sender.now)) }
{
    is_staying_sender(script, sender) && has_value(script, asked, receiver, sender)
}

// How many values there may be in its list.
pub(crate) fn most_count(
    nodes: &NodeList,
    script: &Script,
    rate: bool,
    double: DoubleNumber,
    receiver: &NodeSpec,
) -> u64
    requires few { length nodes.now ≤ 64 }
    ensures value { result ≡ most_count rate (traffic_with nodes.now script.now) double receiver.now }
    ensures most { result ≤ 128 }
{
    counted(nodes, script, &Asked::maybe(rate, double), receiver)
        + further_count(nodes, script, rate, double, receiver)
}

// Of how many correct senders a receiver has such a value.
fn counted(nodes: &NodeList, script: &Script, asked: &Asked, receiver: &NodeSpec) -> u64
    requires few { length nodes.now ≤ 64 }
    ensures value { result ≡ sender_count (traffic_with nodes.now script.now)
        (has_value asked.now.rate asked.now.surely (traffic_with nodes.now script.now) asked.now.double receiver.now) }
    ensures most { result ≤ 64 }
{
    let mut count = 0;
    for place in 0..nodes.len() {
        match nodes.get(place) {
            Some(node) => {
                if is_heard(script, asked, receiver, node) {
                    count += 1;
                }
            }
            None => {}
        }
    }
    count
}

// A sender of whom a receiver has such a value.
fn is_heard(script: &Script, asked: &Asked, receiver: &NodeSpec, sender: &NodeSpec) -> bool
    ensures { (nodes : List NodeSpec) → result ≡ (is_correct_sender (traffic_with nodes script.now) sender.now
        && has_value asked.now.rate asked.now.surely (traffic_with nodes script.now) asked.now.double receiver.now
        sender.now) }
{
    is_correct_sender(script, sender) && has_value(script, asked, receiver, sender)
}

// Of how many arbitrary nodes a receiver may have a value.
pub(crate) fn further_count(
    nodes: &NodeList,
    script: &Script,
    rate: bool,
    double: DoubleNumber,
    receiver: &NodeSpec,
) -> u64
    requires few { length nodes.now ≤ 64 }
    ensures value { result ≡ further_count rate (traffic_with nodes.now script.now) double receiver.now }
    ensures most { result ≤ 64 }
{
    let mut count = 0;
    for place in 0..nodes.len() {
        match nodes.get(place) {
            Some(node) => {
                if may_add(script, rate, double, receiver, node) {
                    count += 1;
                }
            }
            None => {}
        }
    }
    count
}

// An arbitrary sync node of which a receiver may have a value.
fn may_add(
    script: &Script,
    rate: bool,
    double: DoubleNumber,
    receiver: &NodeSpec,
    sender: &NodeSpec,
) -> bool
    ensures { (nodes : List NodeSpec) → result ≡
        ((is_sync sender.now && is_arbitrary script.now sender.now.id)
        && may_be_said rate (traffic_with nodes script.now) double receiver.now sender.now) }
{
    is_arbitrary_sync(sender, script) && may_be_said(script, rate, double, receiver, sender)
}

// Something may come of what an arbitrary node says, on one channel or the other.
pub(crate) fn may_be_said(
    script: &Script,
    rate: bool,
    double: DoubleNumber,
    receiver: &NodeSpec,
    sender: &NodeSpec,
) -> bool
    ensures { (nodes : List NodeSpec) → result ≡
        may_be_said rate (traffic_with nodes script.now) double receiver.now sender.now }
{
    let asked = Asked::maybe(rate, double);
    may_say(script, &asked, sender, receiver, Channel::A)
        || may_say(script, &asked, sender, receiver, Channel::B)
}

fn may_say(
    script: &Script,
    asked: &Asked,
    sender: &NodeSpec,
    receiver: &NodeSpec,
    channel: Channel,
) -> bool
    requires surely { asked.now.surely ≡ false }
    ensures { (nodes : List NodeSpec) → result ≡
        may_say asked.now.rate (traffic_with nodes script.now) sender.now receiver.now asked.now.double channel }
{
    if asked.rate {
        comes_even(script, asked, sender, receiver, channel)
            && comes_odd(script, asked, sender, receiver, channel)
    } else {
        comes_odd(script, asked, sender, receiver, channel)
    }
}

// It has a value, and discards at each end as many as may be of arbitrary nodes.
pub(crate) fn is_trusted(
    nodes: &NodeList,
    script: &Script,
    rate: bool,
    double: DoubleNumber,
    receiver: &NodeSpec,
) -> bool
    requires few { length nodes.now ≤ 64 }
    ensures { result ≡ is_trusted rate (traffic_with nodes.now script.now) double receiver.now }
{
    let sure = sure_count(nodes, script, rate, double, receiver);
    is_enough(sure, further_count(nodes, script, rate, double, receiver))
}

// So many values of correct nodes beside those of so many arbitrary ones.
fn is_enough(sure: u64, further: u64) -> bool
    requires sure { sure ≤ 64 }
    requires further { further ≤ 64 }
    ensures { result ≡ (nat_le 1 sure && nat_le further (discarded (sure + further))) }
{
    1 <= sure && further <= discarded_of(sure + further)
}

// ---- one sender at one receiver

pub(crate) fn has_value(
    script: &Script,
    asked: &Asked,
    receiver: &NodeSpec,
    sender: &NodeSpec,
) -> bool
    ensures { (nodes : List NodeSpec) → result ≡
        has_value asked.now.rate asked.now.surely (traffic_with nodes script.now) asked.now.double receiver.now
        sender.now }
{
    sender.id == receiver.id || comes_over(script, asked, receiver, sender)
}

// Over one channel or the other.
fn comes_over(script: &Script, asked: &Asked, receiver: &NodeSpec, sender: &NodeSpec) -> bool
    ensures { (nodes : List NodeSpec) → result ≡
        (value_on asked.now.rate asked.now.surely (traffic_with nodes script.now) sender.now receiver.now
        asked.now.double channel.A
        || value_on asked.now.rate asked.now.surely (traffic_with nodes script.now) sender.now receiver.now
        asked.now.double channel.B) }
{
    value_on(script, asked, sender, receiver, Channel::A)
        || value_on(script, asked, sender, receiver, Channel::B)
}

fn value_on(
    script: &Script,
    asked: &Asked,
    sender: &NodeSpec,
    receiver: &NodeSpec,
    channel: Channel,
) -> bool
    ensures { (nodes : List NodeSpec) → result ≡
        value_on asked.now.rate asked.now.surely (traffic_with nodes script.now) sender.now receiver.now
        asked.now.double channel }
{
    if asked.rate {
        shares(sender, receiver, channel)
            && comes_even(script, asked, sender, receiver, channel)
            && comes_odd(script, asked, sender, receiver, channel)
    } else {
        shares(sender, receiver, channel) && comes_odd(script, asked, sender, receiver, channel)
    }
}

pub(crate) fn comes_even(
    script: &Script,
    asked: &Asked,
    sender: &NodeSpec,
    receiver: &NodeSpec,
    channel: Channel,
) -> bool
    ensures { result ≡
        comes asked.now.surely (event_of script.now (2 * asked.now.double) sender.now.id receiver.now.id channel) }
{
    comes(
        asked.surely,
        script.at(2 * asked.double.0, sender.id, receiver.id, channel),
    )
}

pub(crate) fn comes_odd(
    script: &Script,
    asked: &Asked,
    sender: &NodeSpec,
    receiver: &NodeSpec,
    channel: Channel,
) -> bool
    ensures { result ≡
        comes asked.now.surely (event_of script.now (2 * asked.now.double + 1) sender.now.id receiver.now.id channel) }
{
    comes(
        asked.surely,
        script.at(2 * asked.double.0 + 1, sender.id, receiver.id, channel),
    )
}

fn comes(surely: bool, event: Event<'_>) -> bool
    ensures { result ≡ comes surely (event_seen event.entry) }
{
    if surely {
        matches!(event, Event::Regular)
    } else {
        !matches!(event, Event::Silent)
    }
}

// How many arbitrary sync nodes there are.
pub(crate) fn arbitrary_count(nodes: &NodeList, script: &Script) -> u64
    requires { length nodes.now ≤ 64 }
    ensures value { result ≡ arbitrary_count (traffic_with nodes.now script.now) }
    ensures most { result ≤ 64 }
{
    let mut count = 0;
    for place in 0..nodes.len() {
        match nodes.get(place) {
            Some(node) => {
                if is_arbitrary_sync(node, script) {
                    count += 1;
                }
            }
            None => {}
        }
    }
    count
}

/// How many values of so many a midpoint discards at each end, 0 to 2.
pub fn discarded_of(count: u64) -> u64
    ensures value { result ≡ discarded count }
    ensures most { result ≤ 2 }
{
    fr_midpoint::discarded_of(count as usize) as u64
}

/// Whether a node is an arbitrary sync node.
pub fn is_arbitrary_sync(node: &NodeSpec, script: &Script) -> bool
    ensures { result ≡ (is_sync node.now && is_arbitrary script.now node.now.id) }
{
    node.key.is_some() && script.arbitrary(node.id)
}
