// A node that listens, begins to follow, and joins.
ghost use Rattle.std.specs.Prelude.{◌≡◌, pos, true, IfSome, IsNone};
ghost use Rattle.fr_base.specs.Timed.{IsLength};
ghost use Rattle.fr_base.specs.Within.{IsWithin};
ghost use Rattle.fr_node.specs.Fits.{NodeFits};

use crate::node::{Lines, begin};
use fr_base::Channel::{A, B};
use fr_base::{Channel, NodeId, Slot, State};
use fr_cluster::Params;
use fr_node::{Listener, Node};
use fr_samples::{JOINING, THREE_ON_A, params_of};
use std::alloc::{AllocError, Global};
use std::test::Fail;

// The cluster that nodes may join, with a compensation of three microticks.
const COMPENSATED: Lines = &[
    (
        "param,gdActionPointOffset",
        "param,gdActionPointOffset,12,,",
    ),
    (
        "param,pOffsetCorrectionOut",
        "param,pOffsetCorrectionOut,454,,",
    ),
    ("param,pRateCorrectionOut", "param,pRateCorrectionOut,84,,"),
    ("param,pDelayCompensation", "param,pDelayCompensation,3,,"),
];

const THREE_ON_BOTH: &str = "node,1,1,AB,1\nnode,2,2,AB,1\nnode,3,3,AB,1\n";

// A sync frame in slot 1 of cycle 0.
const SYNC: &[u8] = b"\x18\x01\x00\x6F\x00\x9A\xE5\x25";

// The same with a wrong last byte.
const DAMAGED: &[u8] = b"\x18\x01\x00\x6F\x00\x9A\xE5\x24";

// A sync frame of slot 3.
const SYNC_ELSEWHERE: &[u8] = b"\x18\x03\x00\x95\x80\xF9\x65\xBB";

// A frame of slot 1 without the sync indicator.
const NO_SYNC: &[u8] = b"\x20\x01\x01\xA7\xC0\xD0\x5E\xEA";

// A sync frame of slot 1 on channel B.
const SYNC_ON_B: &[u8] = b"\x18\x01\x00\x6F\x00\x71\x6B\x40";

// What comes: the channel, whether in the odd cycle, the instant in ticks, and the bytes.
type Catch = (Channel, bool, i64, &'static [u8]);

// Both arrivals of node 1 in cycles 2 and 3 on channel B, in which the clocks of both are nominal.
const EVEN_B: Catch = (B, false, 400_480_000_000, SYNC_ON_B);

const ODD_B: Catch = (B, true, 600_480_000_000, SYNC_ON_B);

// The even one on channel A.
const EVEN_A: Catch = (A, false, 400_480_000_000, SYNC);

// Lines of the parameter file, nodes, what comes to node 3, which listens to node 1, the microticks of both cycles, and
// how many frames are kept, with the start and the rate of the follower where it begins: the text begins so.
const FOLLOWERS: &[(Lines, &str, &[Catch], i64, i64, &str)] = &[
    // The reference's sync frames are caught alone.
    (
        JOINING,
        THREE_ON_A,
        &[(A, false, 1, DAMAGED)],
        1_000_000,
        1_000_000,
        "0 none",
    ),
    (
        JOINING,
        THREE_ON_A,
        &[(A, false, 1, SYNC_ELSEWHERE)],
        1_000_000,
        1_000_000,
        "0 none",
    ),
    (
        JOINING,
        THREE_ON_A,
        &[(A, false, 1, NO_SYNC)],
        1_000_000,
        1_000_000,
        "0 none",
    ),
    (
        JOINING,
        THREE_ON_A,
        &[(A, false, 1, SYNC_ON_B)],
        1_000_000,
        1_000_000,
        "0 none",
    ),
    (
        JOINING,
        THREE_ON_A,
        &[(A, false, 1, SYNC)],
        1_000_000,
        1_000_000,
        "1 none",
    ),
    // What is caught on channel B alone serves as well; a rate beyond its limit, or a start before the run, does not.
    (
        JOINING,
        THREE_ON_A,
        &[EVEN_B, ODD_B],
        1_000_000,
        1_000_000,
        "2 from 800000000000 rate 0",
    ),
    (
        JOINING,
        THREE_ON_A,
        &[EVEN_A, (A, true, 600_564_999_999, SYNC)],
        1_000_000,
        1_000_000,
        "2 from ",
    ),
    (
        JOINING,
        THREE_ON_A,
        &[EVEN_A, (A, true, 600_565_000_000, SYNC)],
        1_000_000,
        1_000_000,
        "2 none",
    ),
    (
        JOINING,
        THREE_ON_A,
        &[
            (A, false, -400_000_000_000, SYNC),
            (A, true, -200_000_000_000, SYNC),
        ],
        1_000_000,
        1_000_000,
        "2 none",
    ),
    // Where both channels have both arrivals, channel A decides, also where what it has does not suffice.
    (
        JOINING,
        THREE_ON_BOTH,
        &[EVEN_B, ODD_B, EVEN_A],
        1_000_000,
        1_000_000,
        "3 from 800000000000 rate 0",
    ),
    (
        JOINING,
        THREE_ON_BOTH,
        &[EVEN_B, ODD_B, EVEN_A, (A, true, 600_482_000_000, SYNC)],
        1_000_000,
        1_000_000,
        "4 from 800004000000 rate 2",
    ),
    (
        JOINING,
        THREE_ON_BOTH,
        &[
            EVEN_B,
            ODD_B,
            EVEN_A,
            (A, true, 600_482_000_000, SYNC),
            (A, true, 600_565_000_000, SYNC),
        ],
        1_000_000,
        1_000_000,
        "5 none",
    ),
    // A microtick that differs from one cycle to the other: the first counts the ticks between the arrivals, the second
    // those up to the start, and the compensation is taken off.
    (
        JOINING,
        THREE_ON_A,
        &[EVEN_A, (A, true, 600_465_122_956, SYNC)],
        999_900,
        1_000_100,
        "2 from 800010075456 rate 5",
    ),
    (
        COMPENSATED,
        THREE_ON_A,
        &[EVEN_A, (A, true, 600_465_122_956, SYNC)],
        999_900,
        1_000_100,
        "2 from 800007075156 rate 5",
    ),
];

// Takes what comes, and counts what is caught.
fn listen(listener: &mut Listener, catches: &[Catch]) -> usize
    requires id { listener.old.id ≡ 3 }
    requires reference { listener.old.reference ≡ 1 }
    ensures id { listener.new.id ≡ 3 }
    ensures reference { listener.new.reference ≡ 1 }
{
    let mut caught: usize = 0;
    for (channel, odd, arrival, bytes) in catches {
        let arrival = (*arrival).clamp(-1_000_000_000_000, 1_000_000_000_000);
        if listener.catch(*channel, *odd, arrival, bytes) {
            caught = caught.saturating_add(1);
        }
    }
    caught
}

// What begins to follow before cycle 4 with its microticks of both cycles, if something does.
fn first_with(params: &Params, listener: &Listener, even: i64, odd: i64) -> Option<Node>
    requires id { listener.now.id ≡ 3 }
    requires reference { listener.now.reference ≡ 1 }
    requires even { IsLength even }
    requires odd { IsLength odd }
    ensures fits { IfSome result (NodeFits params.now) }
    ensures between { IfSome result (λ node. IsNone node.length) }
    ensures follows { IfSome result (λ node. node.follows ≡ true) }
    ensures next { IfSome result (λ node. node.cycle ≡ 4) }
{
    if params.node(NodeId(3)).is_none() || params.key_index(Slot(1)).is_none() {
        return None;
    }
    listener.first(params, 4, even, odd)
}

// How many frames are caught, and the start and the rate of the follower, if one begins.
fn followed(
    alloc: Global,
    params: &Params,
    catches: &[Catch],
    even: i64,
    odd: i64,
) -> Result<String, AllocError> {
    let mut listener = Listener::new(NodeId(3), Slot(1));
    let caught = listen(&mut listener, catches);
    let (even, odd) = (
        even.clamp(900_000, 1_100_000),
        odd.clamp(900_000, 1_100_000),
    );
    match first_with(params, &listener, even, odd) {
        Some(node) => {
            let (start, rate) = (node.next_start(), node.next_rate());
            format!(in alloc; "{caught} from {start} rate {rate}")
        }
        None => format!(in alloc; "{caught} none"),
    }
}

// What is told otherwise, where the parameters are accepted.
fn unfollowed(alloc: Global) -> Result<String, AllocError> {
    let mut told = String::new(alloc);
    for (lines, nodes, catches, even, odd, wanted) in FOLLOWERS {
        if let Ok(params) = params_of(alloc, lines, nodes) {
            let given = followed(alloc, &params, catches, *even, *odd)?;
            if given.starts_with(*wanted) {
                continue;
            }
            told.push_str(given.as_str())?;
        }
        told.push_str(" and not ")?;
        told.push_str(wanted)?;
    }
    Ok(told)
}

#[test]
fn begins_to_follow_with_what_suffices(rt: HostRuntime) -> Result<(), Fail> {
    assert_eq!(rt; unfollowed(rt.alloc())?.as_str(), "");
    Ok(())
}

// A double cycle in which a follower hears nothing: the state of its odd row, and whether it was steady.
fn silent(params: &Params, node: &mut Node) -> (State, bool)
    requires fits { NodeFits params.now node.old }
    requires between { IsNone node.old.length }
    requires next { node.old.cycle ≡ 4 }
    ensures between { IsNone node.new.length }
{
    begin(params, node, 4);
    let _even = node.end(params);
    begin(params, node, 5);
    let row = node.end(params);
    (row.state, node.steady())
}

// How a node stands: whether it follows, its state, its start and its rate.
fn standing(alloc: Global, node: &Node) -> Result<String, AllocError>
    requires { IsNone node.now.length }
{
    let (follows, state) = (node.follows(), node.next_state());
    let (start, rate) = (node.next_start(), node.next_rate());
    format!(in alloc; "{follows} {state:?} {start} {rate}")
}

// How a node stands that follows, and after it joined.
fn joined(alloc: Global, node: &mut Node) -> Result<String, AllocError>
    requires between { IsNone node.old.length }
    requires follows { node.old.follows ≡ true }
{
    let before = standing(alloc, node)?;
    node.join();
    let after = standing(alloc, node)?;
    format!(in alloc; "{before}, {after}")
}

// The listener that heard nominal clocks in cycles 2 and 3.
fn nominal() -> Listener
    ensures id { result.id ≡ 3 }
    ensures reference { result.reference ≡ 1 }
{
    let mut listener = Listener::new(NodeId(3), Slot(1));
    listen(&mut listener, &[EVEN_A, (A, true, 600_480_000_000, SYNC)]);
    listener
}

#[test]
fn begins_to_follow_and_joins(rt: HostRuntime) -> Result<(), Fail> {
    let params = params_of(rt.alloc(), JOINING, THREE_ON_A)?;
    let node = first_with(&params, &nominal(), 1_000_000, 1_000_000);
    let mut node = node.ok_or("none follows")?;
    assert_eq!(rt;
        joined(rt.alloc(), &mut node)?.as_str(),
        "true Passive 800000000000 0, false Active 800000000000 0"
    );
    Ok(())
}

// In a double cycle in which it hears nothing no term is within its limit.
#[test]
fn a_follower_without_values_is_not_steady(rt: HostRuntime) -> Result<(), Fail> {
    let params = params_of(rt.alloc(), JOINING, THREE_ON_A)?;
    let node = first_with(&params, &nominal(), 1_000_000, 1_000_000);
    let mut node = node.ok_or("none follows")?;
    assert_eq!(rt; silent(&params, &mut node), (State::Passive, false));
    assert_eq!(rt; node.next_start(), 1_200_000_000_000);
    Ok(())
}
