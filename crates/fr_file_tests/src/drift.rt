use crate::params::params_of;
use fr_base::Channel;
use fr_cluster::Params;
use fr_drift::{Drift, read};
use fr_samples::node;
use std::alloc::Global;
use std::test::Fail;

// Four nodes, of which the first two have channel A alone, and a delay that is taken off.
const NODES: &str = "node,1,1,A,1\nnode,2,2,A,1\nnode,3,3,AB,0\nnode,4,,AB,0\n";

const DELAY: &[(&str, &str)] = &[("param,pDelayCompensation", "param,pDelayCompensation,3,,")];

// An accepted file, the number of double cycles last and rows in falling order of their cycles.
const ROWS: &str = "\
start,3,7,0,,\n\
delay,1,3,A,7,500\n\
delay,1,3,A,2,400\n\
length,1,9,600000,,\n\
length,1,4,700000,,\n\
start,2,12,-81,,\n\
doubles,100000,,,,\n\
";

// A node, and where its clock starts and at what rate.
const STARTS: &[(u8, i64, i32)] = &[(1, 0, 0), (2, 12, -81), (3, 7, 0)];

// A node, a cycle, and how long its microtick then lasts.
const LENGTHS: &[(u8, u32, i64)] = &[
    (1, 0, 1_000_000),
    (1, 3, 1_000_000),
    (1, 4, 700_000),
    (1, 8, 700_000),
    (1, 9, 600_000),
    (1, 199_999, 600_000),
    (2, 9, 1_000_000),
];

// A sender, a receiver, a channel, a cycle, and how long a frame then travels.
const DELAYS: &[(u8, u8, Channel, u32, i64)] = &[
    (1, 3, Channel::A, 1, 3_000_000),
    (1, 3, Channel::A, 2, 400),
    (1, 3, Channel::A, 6, 400),
    (1, 3, Channel::A, 7, 500),
    (1, 3, Channel::A, 4_000_000_000, 500),
    (1, 3, Channel::B, 7, 3_000_000),
    (3, 1, Channel::A, 7, 3_000_000),
];

// A cycle, one behind it, and up to where between them the microtick of node 1 keeps its length, and a frame from node 1 to
// node 3 its delay on channels A and B.
const CHANGES: &[(u32, u32, u32, u32, u32)] = &[
    (0, 20, 4, 2, 20),
    (4, 20, 9, 7, 20),
    (9, 20, 20, 20, 20),
    (0, 3, 3, 2, 3),
    (2, 20, 4, 7, 20),
];

pub fn drift_of(alloc: Global, params: &Params, text: &str) -> Result<Drift, Fail> {
    match read(alloc, params, text.as_bytes()) {
        Ok(drift) => Ok(drift),
        Err(_) => Err(Fail::new("no drift")),
    }
}

fn start_of(drift: &Drift, number: u8) -> Option<(i64, i32)> {
    let node = node(number)?;
    Some((drift.start(node), drift.rate(node)))
}

fn length_of(drift: &Drift, number: u8, cycle: u32) -> Option<i64> {
    Some(drift.length(node(number)?, cycle))
}

fn delay_of(drift: &Drift, sender: u8, receiver: u8, channel: Channel, cycle: u32) -> Option<i64> {
    Some(drift.delay(node(sender)?, node(receiver)?, channel, cycle))
}

fn changes_of(drift: &Drift, cycle: u32, end: u32) -> Option<(u32, u32, u32)> {
    if end <= cycle {
        return None;
    }
    let (sender, receiver) = (node(1)?, node(3)?);
    let length = drift.next_length(sender, cycle, end);
    let on_a = drift.next_delay(sender, receiver, Channel::A, cycle, end);
    let on_b = drift.next_delay(sender, receiver, Channel::B, cycle, end);
    Some((length, on_a, on_b))
}

// The place of the first row that the drift answers otherwise.
fn first_start(drift: &Drift) -> Option<usize> {
    for (place, (node, start, rate)) in STARTS.iter().enumerate() {
        if start_of(drift, *node) != Some((*start, *rate)) {
            return Some(place);
        }
    }
    None
}

fn first_length(drift: &Drift) -> Option<usize> {
    for (place, (node, cycle, ticks)) in LENGTHS.iter().enumerate() {
        if length_of(drift, *node, *cycle) != Some(*ticks) {
            return Some(place);
        }
    }
    None
}

fn first_delay(drift: &Drift) -> Option<usize> {
    for (place, (sender, receiver, channel, cycle, ticks)) in DELAYS.iter().enumerate() {
        if delay_of(drift, *sender, *receiver, *channel, *cycle) != Some(*ticks) {
            return Some(place);
        }
    }
    None
}

fn first_change(drift: &Drift) -> Option<usize> {
    for (place, (cycle, end, length, on_a, on_b)) in CHANGES.iter().enumerate() {
        if changes_of(drift, *cycle, *end) != Some((*length, *on_a, *on_b)) {
            return Some(place);
        }
    }
    None
}

#[test]
fn answers_what_the_file_says(rt: HostRuntime) -> Result<(), Fail> {
    let params = params_of(rt.alloc(), DELAY, NODES, &[])?;
    let drift = drift_of(rt.alloc(), &params, ROWS)?;
    assert_eq!(rt; drift.doubles(), 100_000);
    assert_eq!(rt; first_start(&drift), None);
    assert_eq!(rt; first_length(&drift), None);
    assert_eq!(rt; first_delay(&drift), None);
    assert_eq!(rt; first_change(&drift), None);
    Ok(())
}
