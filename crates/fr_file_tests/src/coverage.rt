// The first gap of the longest run of the largest cluster, which is too long a run for the program, and its flutter. What else
// a gap is told of is tried through it.
use crate::drift::drift_of;
use crate::params::params_of;
use crate::script::script_of;
use fr_base::Channel;
use fr_cluster::Params;
use fr_coverage::{Fluttering, covered, flutter, gap_line};
use fr_drift::Drift;
use fr_script::Script;
use std::alloc::Global;
use std::test::Fail;

// Rows of a drift file of the longest run and a script, and the gap of the run, if it has one.
const LARGEST: &[(&str, &str, &str)] = &[
    ("doubles,100000,,,,\n", "", ""),
    (
        "doubles,100000,,,,\n",
        "lose,199999,15,64,A,,\nlose,199998,15,64,B,,",
        "link 15 64 99999\n",
    ),
    (
        "doubles,100000,,,,\nlength,64,199999,1000201,,",
        "lose,199999,15,64,A,,\nlose,199998,15,64,B,,",
        "length 64 199999 1000201\n",
    ),
];

// Of two rows the later one flutters by less.
const RISES: &str = "doubles,5,,,,\ndelay,2,1,A,5,300\ndelay,2,1,A,7,100\ndelay,15,64,B,9,50";

// As much as the first in an earlier double cycle, and in one double cycle with it on another link.
const ALIKE: &str =
    "doubles,5,,,,\ndelay,2,1,A,3,300\ndelay,2,1,A,4,0\ndelay,2,1,B,7,300\ndelay,2,3,A,7,300";

// Rows of a drift file and a script, a double cycle, and the flutter of the run from there on: its ticks, sender, receiver,
// channel and double cycle. Nothing is taken off a delay, so it is none where no row says it.
type Flutter = (
    &'static str,
    &'static str,
    u32,
    Option<(u64, u8, u8, Channel, u32)>,
);

const FLUTTERS: &[Flutter] = &[
    ("doubles,100000,,,,\n", "", 0, None),
    (
        "doubles,100000,,,,\ndelay,15,64,B,199999,1000000000",
        "",
        99999,
        Some((1_000_000_000, 15, 64, Channel::B, 99999)),
    ),
    (
        "doubles,100000,,,,\ndelay,15,64,B,199999,1000000000",
        "",
        100_000,
        None,
    ),
    ("doubles,100000,,,,\ndelay,15,64,B,199998,7", "", 0, None),
    ("doubles,99999,,,,\ndelay,15,64,B,199999,7", "", 0, None),
    (RISES, "", 2, Some((300, 2, 1, Channel::A, 2))),
    (RISES, "", 3, Some((200, 2, 1, Channel::A, 3))),
    (RISES, "", 4, Some((50, 15, 64, Channel::B, 4))),
    (
        RISES,
        "arbitrary,1,,,,,",
        0,
        Some((50, 15, 64, Channel::B, 4)),
    ),
    (
        RISES,
        "arbitrary,2,,,,,",
        0,
        Some((50, 15, 64, Channel::B, 4)),
    ),
    (ALIKE, "", 0, Some((300, 2, 1, Channel::B, 3))),
    ("doubles,5,,,,\ndelay,16,1,A,5,300", "", 0, None),
];

// As many nodes as a cluster may have, each on both channels, those from 1 to 15 with a key slot.
const NODES: &str = "\
node,1,1,AB,1\nnode,2,2,AB,1\nnode,3,3,AB,1\nnode,4,4,AB,1\nnode,5,5,AB,1\nnode,6,6,AB,1\nnode,7,7,AB,1\n\
node,8,8,AB,1\nnode,9,9,AB,1\nnode,10,10,AB,1\nnode,11,11,AB,1\nnode,12,12,AB,1\nnode,13,13,AB,1\nnode,14,14,AB,1\n\
node,15,15,AB,1\nnode,16,,AB,0\nnode,17,,AB,0\nnode,18,,AB,0\nnode,19,,AB,0\nnode,20,,AB,0\nnode,21,,AB,0\n\
node,22,,AB,0\nnode,23,,AB,0\nnode,24,,AB,0\nnode,25,,AB,0\nnode,26,,AB,0\nnode,27,,AB,0\nnode,28,,AB,0\n\
node,29,,AB,0\nnode,30,,AB,0\nnode,31,,AB,0\nnode,32,,AB,0\nnode,33,,AB,0\nnode,34,,AB,0\nnode,35,,AB,0\n\
node,36,,AB,0\nnode,37,,AB,0\nnode,38,,AB,0\nnode,39,,AB,0\nnode,40,,AB,0\nnode,41,,AB,0\nnode,42,,AB,0\n\
node,43,,AB,0\nnode,44,,AB,0\nnode,45,,AB,0\nnode,46,,AB,0\nnode,47,,AB,0\nnode,48,,AB,0\nnode,49,,AB,0\n\
node,50,,AB,0\nnode,51,,AB,0\nnode,52,,AB,0\nnode,53,,AB,0\nnode,54,,AB,0\nnode,55,,AB,0\nnode,56,,AB,0\n\
node,57,,AB,0\nnode,58,,AB,0\nnode,59,,AB,0\nnode,60,,AB,0\nnode,61,,AB,0\nnode,62,,AB,0\nnode,63,,AB,0\n\
node,64,,AB,0\n\
";

fn has_gap(params: &Params, drift: &Drift, script: &Script, gap: &str) -> bool {
    match covered(params, drift, script) {
        Ok(()) => gap.is_empty(),
        Err(found) => gap_line(b"", found).bytes() == gap.as_bytes(),
    }
}

// The place of the first row of which another gap is told.
fn first_wrong(alloc: Global) -> Result<Option<usize>, Fail> {
    let params = params_of(alloc, &[], NODES, &[])?;
    for (place, (rows, script, gap)) in LARGEST.iter().enumerate() {
        let drift = drift_of(alloc, &params, rows)?;
        let script = script_of(alloc, &params, script)?;
        if !has_gap(&params, &drift, &script, gap) {
            return Ok(Some(place));
        }
    }
    Ok(None)
}

fn is_told(found: &Option<Fluttering>, wanted: &Option<(u64, u8, u8, Channel, u32)>) -> bool {
    match (found, wanted) {
        (None, None) => true,
        (Some(found), Some((ticks, sender, receiver, channel, double))) => {
            found.ticks == *ticks
                && found.sender.0 == *sender
                && found.receiver.0 == *receiver
                && found.channel == *channel
                && found.double == *double
        }
        _ => false,
    }
}

// The place of the first row of which another flutter is told.
fn first_wrong_flutter(alloc: Global) -> Result<Option<usize>, Fail> {
    let params = params_of(alloc, &[], NODES, &[])?;
    for (place, (rows, script, from, wanted)) in FLUTTERS.iter().enumerate() {
        let drift = drift_of(alloc, &params, rows)?;
        let script = script_of(alloc, &params, script)?;
        if !is_told(&flutter(&params, &drift, &script, *from), wanted) {
            return Ok(Some(place));
        }
    }
    Ok(None)
}

#[test]
fn finds_the_first_gap_of_the_longest_run(rt: HostRuntime) -> Result<(), Fail> {
    assert_eq!(rt; first_wrong(rt.alloc())?, None);
    Ok(())
}

#[test]
fn tells_the_flutter_of_a_run(rt: HostRuntime) -> Result<(), Fail> {
    assert_eq!(rt; first_wrong_flutter(rt.alloc())?, None);
    Ok(())
}
