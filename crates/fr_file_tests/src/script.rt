use crate::params::params_of;
use fr_base::{Channel, NodeId};
use fr_cluster::Params;
use fr_samples::{TWO_FACED, node};
use fr_script::{Event, Script, read};
use std::alloc::Global;
use std::test::Fail;

// Nodes 1 and 2 on channel A, 3 and 4 on both, 5 on both without a key slot, 6 on channel B without one.
const NODES: &str =
    "node,1,1,A,1\nnode,2,2,A,1\nnode,3,3,AB,1\nnode,4,4,AB,1\nnode,5,,AB,0\nnode,6,,B,0\n";

const DEEDS: &str = "arbitrary,4,,,,,\nlose,3,1,2,A,,\nflip,2,1,2,A,63,\nsay,5,4,2,A,-1,0aFf\n";

// What becomes of a frame on channel A: a flip with its bit, what is said with its shift and its bytes.
#[derive(Clone, Copy)]
enum Wanted {
    Regular,
    Silent,
    Flip(u32),
    Say(i64, Option<&'static [u8]>),
}

// A script, a cycle, a sender, a receiver, and what becomes of the frame.
const EVENTS: &[(&str, u32, u8, u8, Wanted)] = &[
    (TWO_FACED, 0, 4, 1, Wanted::Say(100_000_000, None)),
    (TWO_FACED, 1, 4, 2, Wanted::Say(-100_000_000, None)),
    (TWO_FACED, 0, 4, 3, Wanted::Silent),
    (TWO_FACED, 2, 4, 1, Wanted::Silent),
    (TWO_FACED, 0, 1, 2, Wanted::Regular),
    (DEEDS, 3, 1, 2, Wanted::Silent),
    (DEEDS, 2, 1, 2, Wanted::Flip(63)),
    (DEEDS, 2, 2, 1, Wanted::Regular),
    (DEEDS, 5, 4, 2, Wanted::Say(-1, Some(&[10, 255]))),
];

const JOINS: &str = "join,3,1,2,,,\njoin,99999,6,3,,,\n";

// A script, a node, whether it is arbitrary, and the double cycle and the reference with which it joins.
const MEMBERS: &[(&str, u8, bool, Option<(u32, u8)>)] = &[
    (TWO_FACED, 4, true, None),
    (TWO_FACED, 1, false, None),
    (JOINS, 1, false, Some((3, 2))),
    (JOINS, 6, false, Some((99_999, 3))),
    (JOINS, 2, false, None),
    (JOINS, 3, false, None),
];

pub fn script_of(alloc: Global, params: &Params, text: &str) -> Result<Script, Fail> {
    match read(alloc, params, text.as_bytes()) {
        Ok(script) => Ok(script),
        Err(_) => Err(Fail::new("no script")),
    }
}

fn is_wanted(event: Event<'_>, wanted: Wanted) -> bool {
    match (event, wanted) {
        (Event::Regular, Wanted::Regular) => true,
        (Event::Silent, Wanted::Silent) => true,
        (Event::Flip(bit), Wanted::Flip(other)) => bit == other,
        (Event::Say { shift, bytes }, Wanted::Say(other, said)) => shift == other && bytes == said,
        _ => false,
    }
}

fn comes(script: &Script, cycle: u32, sender: u8, receiver: u8, wanted: Wanted) -> bool {
    match (node(sender), node(receiver)) {
        (Some(sender), Some(receiver)) => {
            is_wanted(script.at(cycle, sender, receiver, Channel::A), wanted)
        }
        _ => false,
    }
}

fn joining_of(script: &Script, node: NodeId) -> Option<(u32, u8)> {
    match script.join(node) {
        Some(join) => Some((join.double, join.reference.0)),
        None => None,
    }
}

fn is_member(script: &Script, number: u8, arbitrary: bool, joins: Option<(u32, u8)>) -> bool {
    match node(number) {
        Some(node) => script.arbitrary(node) == arbitrary && joining_of(script, node) == joins,
        None => false,
    }
}

// The place of the first row that a script answers otherwise.
fn first_event(alloc: Global) -> Result<Option<usize>, Fail> {
    let params = params_of(alloc, &[], NODES, &[])?;
    for (place, (text, cycle, sender, receiver, wanted)) in EVENTS.iter().enumerate() {
        if !comes(
            &script_of(alloc, &params, text)?,
            *cycle,
            *sender,
            *receiver,
            *wanted,
        ) {
            return Ok(Some(place));
        }
    }
    Ok(None)
}

fn first_member(alloc: Global) -> Result<Option<usize>, Fail> {
    let params = params_of(alloc, &[], NODES, &[])?;
    for (place, (text, node, arbitrary, joins)) in MEMBERS.iter().enumerate() {
        if !is_member(&script_of(alloc, &params, text)?, *node, *arbitrary, *joins) {
            return Ok(Some(place));
        }
    }
    Ok(None)
}

#[test]
fn answers_what_the_file_says(rt: HostRuntime) -> Result<(), Fail> {
    assert_eq!(rt; first_event(rt.alloc())?, None);
    assert_eq!(rt; first_member(rt.alloc())?, None);
    Ok(())
}
