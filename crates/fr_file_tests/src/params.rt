use fr_base::{Channel, NodeId, Slot};
use fr_cluster::{ParamName, Params};
use fr_params::read;
use fr_samples::{TWO_ON_A, edited, file_of, node};
use std::alloc::Global;
use std::test::Fail;

// The lines of a file of version 2 in the place of those of version 1.
const TWO: &[(&str, &str)] = &[
    (
        "param,gMacroPerCycle",
        "version,2,,,\nparam,gMacroPerCycle,5000,,",
    ),
    (
        "param,pDelayCompensation",
        "param,pDelayCompensationA,1,,\nparam,pDelayCompensationB,3,,",
    ),
];

// Payloads of 16 bytes, two more nodes and two further slots.
const WIDER: &[(usize, &str)] = &[
    (7, "param,gPayloadLengthStatic,8,,"),
    (
        21,
        "node,2,2,A,1\nnode,9,9,AB,0\nnode,3,,B,0\nslot,50,3,1,2\nslot,40,9,0,1",
    ),
];

// Four nodes, whose key slots descend where their numbers ascend, and three further slots.
const CROSSED: &[(usize, &str)] = &[
    (
        20,
        "node,7,1,A,1\nnode,5,,B,0\nnode,1,140,AB,0\nnode,2,9,A,1",
    ),
    (21, "slot,139,1,1,2\nslot,8,7,0,1\nslot,3,5,0,2"),
];

const SEVEN: &[(usize, &str)] = &[(16, "param,pDelayCompensation,7,,")];

// Lines in the place of those that begin so, changed lines, and the numbers that the file then says: macroticks, the error of
// delays, microticks, the limit of offset terms, bytes of a frame, and the compensations on A, on B and the wider one.
const NUMBERS: &[(&[(&str, &str)], &[(usize, &str)], &[i64])] = &[
    (&[], WIDER, &[5000, 500_000, 200_000, 254, 24, 0, 0, 0]),
    (&[], CROSSED, &[5000, 500_000, 200_000, 254, 8, 0, 0, 0]),
    (&[], SEVEN, &[5000, 500_000, 200_000, 254, 8, 7, 7, 7]),
    (TWO, &[], &[5000, 500_000, 200_000, 254, 8, 1, 3, 3]),
];

// Changed lines of the file, its nodes and its further slots.
const LISTS: &[(&[(usize, &str)], &[u8], &[u16])] = &[
    (WIDER, &[1, 2, 3, 9], &[40, 50]),
    (CROSSED, &[1, 2, 5, 7], &[3, 8, 139]),
    (SEVEN, &[1, 2], &[]),
];

// A slot, the node whose key slot it is, its place among the key slots from 1 on, and the node whose further slot it is; 0
// where there is none.
const USES: &[(&[(usize, &str)], u16, u8, usize, u8)] = &[
    (WIDER, 1, 1, 1, 0),
    (WIDER, 2, 2, 2, 0),
    (WIDER, 3, 0, 0, 0),
    (WIDER, 9, 9, 3, 0),
    (CROSSED, 1, 7, 1, 0),
    (CROSSED, 2, 0, 0, 0),
    (CROSSED, 3, 0, 0, 5),
    (CROSSED, 8, 0, 0, 7),
    (CROSSED, 9, 2, 2, 0),
    (CROSSED, 10, 0, 0, 0),
    (CROSSED, 139, 0, 0, 1),
    (CROSSED, 140, 1, 3, 0),
    (CROSSED, 1023, 0, 0, 0),
];

// Two nodes, whether the second is one of the cluster, and whether both are on channel A and on channel B.
const PAIRS: &[(&[(usize, &str)], u8, u8, bool, bool, bool)] = &[
    (WIDER, 1, 9, true, true, false),
    (WIDER, 1, 3, true, false, false),
    (WIDER, 1, 4, false, false, false),
    (CROSSED, 1, 5, true, false, true),
    (CROSSED, 1, 7, true, true, false),
    (CROSSED, 1, 6, false, false, false),
    (CROSSED, 1, 64, false, false, false),
];

// The cluster with lines in the place of those that begin so, with these nodes and further slots, and with changed lines.
pub fn params_of(
    alloc: Global,
    values: &[(&str, &str)],
    nodes: &str,
    edits: &[(usize, &str)],
) -> Result<Params, Fail> {
    let file = edited(alloc, &file_of(alloc, values, nodes)?, edits)?;
    match read(alloc, file.as_bytes()) {
        Ok(params) => Ok(params),
        Err(_) => Err(Fail::new("no parameters")),
    }
}

fn number_at(params: &Params, place: usize) -> i64 {
    match place {
        0 => params.macros,
        1 => params.delay_error,
        2 => params.value(ParamName::pMicroPerCycle),
        3 => params.natural(ParamName::pOffsetCorrectionOut) as i64,
        4 => params.frame_bytes() as i64,
        5 => params.compensation(Channel::A),
        6 => params.compensation(Channel::B),
        _ => params.widest_compensation(),
    }
}

fn has_numbers(params: &Params, numbers: &[i64]) -> bool {
    for (place, number) in numbers.iter().enumerate() {
        if number_at(params, place) != *number {
            return false;
        }
    }
    true
}

// 0 where there is none.
fn node_at(params: &Params, place: usize) -> u8 {
    match params.nodes.get(place) {
        Some(node) => node.id.0,
        None => 0,
    }
}

fn slot_at(params: &Params, place: usize) -> u16 {
    match params.slots.get(place) {
        Some(spec) => spec.slot.0,
        None => 0,
    }
}

fn has_nodes(params: &Params, nodes: &[u8]) -> bool {
    for (place, number) in nodes.iter().enumerate() {
        if node_at(params, place) != *number {
            return false;
        }
    }
    params.nodes.len() == nodes.len()
}

fn has_slots(params: &Params, slots: &[u16]) -> bool {
    for (place, number) in slots.iter().enumerate() {
        if slot_at(params, place) != *number {
            return false;
        }
    }
    params.slots.len() == slots.len()
}

fn key_of(params: &Params, slot: Slot) -> u8 {
    match params.key_node(slot) {
        Some(node) => node.id.0,
        None => 0,
    }
}

fn place_of(params: &Params, slot: Slot) -> usize {
    match params.key_index(slot) {
        Some(place) => place + 1,
        None => 0,
    }
}

fn further_of(params: &Params, slot: Slot) -> u8 {
    match params.further_slot(slot) {
        Some(spec) => spec.node.0,
        None => 0,
    }
}

fn has_use(params: &Params, number: u16, key: u8, place: usize, further: u8) -> bool {
    if number < 1 || 1023 < number {
        return false;
    }
    let slot = Slot(number);
    key_of(params, slot) == key
        && place_of(params, slot) == place
        && further_of(params, slot) == further
}

fn pair_of(params: &Params, one: NodeId, other: NodeId) -> (bool, bool, bool) {
    let on_a = params.common(one, other, Channel::A);
    let on_b = params.common(one, other, Channel::B);
    (params.node(other).is_some(), on_a, on_b)
}

fn has_pair(params: &Params, one: u8, other: u8, pair: (bool, bool, bool)) -> bool {
    match (node(one), node(other)) {
        (Some(one), Some(other)) => pair_of(params, one, other) == pair,
        _ => false,
    }
}

// The place of the first row of which a file says otherwise.
fn first_number(alloc: Global) -> Result<Option<usize>, Fail> {
    for (place, (values, edits, numbers)) in NUMBERS.iter().enumerate() {
        if !has_numbers(&params_of(alloc, values, TWO_ON_A, edits)?, numbers) {
            return Ok(Some(place));
        }
    }
    Ok(None)
}

fn first_list(alloc: Global) -> Result<Option<usize>, Fail> {
    for (place, (edits, nodes, slots)) in LISTS.iter().enumerate() {
        let params = params_of(alloc, &[], TWO_ON_A, edits)?;
        if !has_nodes(&params, nodes) || !has_slots(&params, slots) {
            return Ok(Some(place));
        }
    }
    Ok(None)
}

fn first_use(alloc: Global) -> Result<Option<usize>, Fail> {
    for (at, (edits, slot, key, place, further)) in USES.iter().enumerate() {
        let params = params_of(alloc, &[], TWO_ON_A, edits)?;
        if !has_use(&params, *slot, *key, *place, *further) {
            return Ok(Some(at));
        }
    }
    Ok(None)
}

fn first_pair(alloc: Global) -> Result<Option<usize>, Fail> {
    for (at, (edits, one, other, stands, on_a, on_b)) in PAIRS.iter().enumerate() {
        let params = params_of(alloc, &[], TWO_ON_A, edits)?;
        if !has_pair(&params, *one, *other, (*stands, *on_a, *on_b)) {
            return Ok(Some(at));
        }
    }
    Ok(None)
}

#[test]
fn answers_what_the_file_says(rt: HostRuntime) -> Result<(), Fail> {
    assert_eq!(rt; first_number(rt.alloc())?, None);
    assert_eq!(rt; first_list(rt.alloc())?, None);
    Ok(())
}

#[test]
fn knows_nodes_and_slots(rt: HostRuntime) -> Result<(), Fail> {
    assert_eq!(rt; first_use(rt.alloc())?, None);
    assert_eq!(rt; first_pair(rt.alloc())?, None);
    Ok(())
}
