ghost use Rattle.std.specs.Prelude.{◌≡◌, ◌≤◌, ◌<◌, [], ◌∷◌, ◌++◌, false, length};
ghost use Rattle.std.specs.List.{list_all};
ghost use Rattle.fr_traffic.specs.Meeting.{all_meet, has_some, meets, meets_all, receiver_of, sure_bits};
ghost use Rattle.fr_traffic.specs.Traffic.{lists_meet, traffic_with};

use crate::traffic::{Asked, discarded_of, is_relied_on, may_receive, most_count};
use fr_base::NodeId;
use fr_bound::DoubleNumber;
use fr_cluster::{NodeList, NodeSpec};
use fr_script::Script;
use std::marker::Model;

// What is known of a receiver that has begun: by a bit for each node of a list, of whom it surely has a value as of a sender
// that stays on; and how many values it discards at one end at most.
#[derive(Clone, Copy)]
struct Receiver {
    id: NodeId,
    begun: bool,
    sure: u64,
    discards: u8,
}

impl Receiver {
    // One that has not begun.
    fn absent(id: NodeId) -> Receiver
        ensures id { result.id ≡ id }
        ensures begun { result.begun ≡ false }
        ensures sure { result.sure ≡ 0 }
        ensures discards { result.discards ≡ 0 }
    {
        Receiver {
            id,
            begun: false,
            sure: 0,
            discards: 0,
        }
    }
}

// At most 64 receivers: contracts see their list.
#[derive(Drop)]
struct ReceiverList {
    places: [Receiver; 64],
    used: usize,
}

impl Model for ReceiverList {
    ghost use Rattle.std.specs.Prelude.{◌≤◌, List, take};
    ghost use Rattle.fr_traffic.specs.declared.meeting.Receiver.{Receiver};

    ghost Value = { List Receiver };

    ghost view = { λ list. take list.used list.places };

    ghost invariant = { λ list. list.used ≤ 64 };
}

impl ReceiverList {
    // No receivers.
    fn new() -> ReceiverList
        ensures { result ≡ [] }
    {
        ReceiverList {
            places: [Receiver::absent(NodeId(1)); 64],
            used: 0,
        }
    }

    // Appends a receiver.
    fn push(&mut self, receiver: Receiver)
        requires { length self.old < 64 }
        ensures { self.new ≡ self.old ++ receiver ∷ [] }
    {
        self.places[self.used] = receiver;
        self.used += 1;
    }

    // The receivers as a slice.
    fn as_slice(&self) -> &[Receiver]
        ensures { result.now ≡ self.now }
    {
        &self.places[..self.used]
    }
}

// Whether each correct node that has begun surely has a value of a sender that stays on, and any two of them of more such senders in
// common than both discard. The script is asked of each receiver by itself: of two of them their numbers are compared.
pub(crate) fn lists_meet(
    nodes: &NodeList,
    script: &Script,
    rate: bool,
    double: DoubleNumber,
) -> bool
    requires few { length nodes.now ≤ 64 }
    ensures { result ≡ lists_meet rate (traffic_with nodes.now script.now) double }
{
    let mut receivers = ReceiverList::new();
    for place in 0..nodes.len() {
        match nodes.get(place) {
            Some(node) => {
                let receiver = receiver_of(nodes, script, rate, double, node);
                if !has_some(receiver.begun, receiver.sure) {
                    return false;
                }
                receivers.push(receiver);
            }
            None => {}
        }
    }
    all_meet(receivers.as_slice())
}

fn receiver_of(
    nodes: &NodeList,
    script: &Script,
    rate: bool,
    double: DoubleNumber,
    node: &NodeSpec,
) -> Receiver
    requires few { length nodes.now ≤ 64 }
    ensures { result ≡ receiver_of rate (traffic_with nodes.now script.now) double node.now }
{
    if may_receive(script, double, node) {
        Receiver {
            id: node.id,
            begun: true,
            sure: sure_bits(nodes, script, rate, double, node),
            discards: discarded_of(most_count(nodes, script, rate, double, node)) as u8,
        }
    } else {
        Receiver::absent(node.id)
    }
}

// By a bit for each node, of which senders that stay on a receiver surely has a value.
fn sure_bits(
    nodes: &NodeList,
    script: &Script,
    rate: bool,
    double: DoubleNumber,
    receiver: &NodeSpec,
) -> u64
    requires few { length nodes.now ≤ 64 }
    ensures { result ≡ sure_bits rate (traffic_with nodes.now script.now) double receiver.now }
{
    let asked = Asked::surely(rate, double);
    let mut bits = 0;
    for place in 0..nodes.len() {
        match nodes.get(place) {
            Some(node) => {
                bits *= 2;
                if is_relied_on(script, &asked, receiver, node) {
                    bits += 1;
                }
            }
            None => {}
        }
    }
    bits
}

// It has a value, or has not begun.
fn has_some(begun: bool, sure: u64) -> bool
    ensures { result ≡ has_some begun sure }
{
    !begun || 1 <= sure.count_ones()
}

fn all_meet(receivers: &[Receiver]) -> bool
    ensures { result ≡ all_meet receivers.now }
{
    receivers.iter().all(|one| meets_all(receivers, *one))
}

fn meets_all(others: &[Receiver], one: Receiver) -> bool
    ensures { result ≡ meets_all others.now one }
{
    !one.begun || meets_each(others, one)
}

fn meets_each(others: &[Receiver], one: Receiver) -> bool
    ensures { result ≡ list_all (meets one) others.now }
{
    others.iter().all(|other| meets(one, *other))
}

// Another has not begun, or is the same, or both have enough in common.
fn meets(one: Receiver, other: Receiver) -> bool
    ensures { result ≡ meets one other }
{
    !other.begun
        || one.id == other.id
        || u32::from(one.discards) + u32::from(other.discards)
            < (one.sure & other.sure).count_ones()
}
