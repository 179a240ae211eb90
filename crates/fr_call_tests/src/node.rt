// A node from cycle to cycle, and the frames that it sends.
ghost use Rattle.std.specs.Prelude.{◌≡◌, ◌+◌, ◌≤◌, ◌≤ℤ◌, pos, neg_ℤ, ◌≢◌, true, false, Some, IfSome, IsNone, IsSome, OnOk};
ghost use Rattle.fr_base.specs.Within.{IsWithin};
ghost use Rattle.fr_node.specs.Cycle.{in_cycle};
ghost use Rattle.fr_node.specs.Fits.{CanBegin, IsUnderWay, NodeFits};
ghost use Rattle.fr_node.specs.View.{NodeView};
ghost use Rattle.fr_cluster.specs.Questions.{own_key as key_of};

use fr_base::{Channel, NodeId, NodeRow, Slot, State};
use fr_cluster::{ParamName, Params};
use fr_node::{Heard, Node, frame_of};
use fr_samples::{TWO_ON_BOTH, params_of};
use fr_time::sender;
use std::alloc::{AllocError, Global};
use std::test::Fail;

pub(crate) type Lines = &'static [(&'static str, &'static str)];

// Two nodes, and a third one without a key slot.
const NODES: &str = "node,1,1,A,1\nnode,2,2,A,1\nnode,3,,A,0\n";

// A sync frame in slot 1 of cycle 0 that is also a null frame.
const SYNC: &[u8] = b"\x18\x01\x00\x6F\x00\x9A\xE5\x25";

// The same in cycle 1.
const SYNC_LATER: &[u8] = b"\x18\x01\x00\x6F\x01\xC7\x88\xEE";

// The first one with a wrong last byte.
const DAMAGED: &[u8] = b"\x18\x01\x00\x6F\x00\x9A\xE5\x24";

// The first one with cycle count 63.
const LAST_COUNT: &[u8] = b"\x18\x01\x00\x6F\x3F\xBC\xED\x3E";

// The sync frame of slot 1 in cycle 0, which is no null frame.
const REGULAR: &[u8] = b"\x38\x01\x00\x6F\x00\x24\xD9\xEB";

// A sync frame with a payload of one word.
const ONE_WORD: &[u8] = b"\x38\x01\x02\x8E\x40\x12\x34\x9B\x18\x2C";

// The first one with frame ID 3, whose slot is no key slot.
const SYNC_ELSEWHERE: &[u8] = b"\x18\x03\x00\x95\x80\xF9\x65\xBB";

// A frame without the sync and startup indicators.
const NO_SYNC: &[u8] = b"\x20\x01\x01\xA7\xC0\xD0\x5E\xEA";

// A sync frame in slot 1 of cycle 0 on channel B, which is also a null frame.
const SYNC_ON_B: &[u8] = b"\x18\x01\x00\x6F\x00\x71\x6B\x40";

// What comes: the channel, the slot, the instant in ticks, and the bytes.
type Offer = (Channel, u16, i64, &'static [u8]);

// What comes in a cycle.
type Offers = &'static [Offer];

// Lines of the parameter file, nodes, a node with its start, what comes to it cycle by cycle, and what it makes of that.
// Behind the answers of a cycle stand its row, the deviations of the first sync node that are kept (of the even and of
// the odd cycle on channel A, and of the even one on channel B), and the start, the rate term and the state of the next
// cycle. A deviation of the odd cycle that a cycle begins with stands before them.
const PLAYS: &[(Lines, &str, u8, i64, &[Offers], &str)] = &[
    (
        &[],
        NODES,
        2,
        0,
        &[&[
            (Channel::A, 1, 280_000_000, SYNC),
            (Channel::A, 1, 279_999_999, SYNC),
            (Channel::A, 1, 1_199_999_999, SYNC),
            (Channel::A, 1, 280_000_000, REGULAR),
            (Channel::A, 1, 0, SYNC),
            (Channel::A, 1, 1_200_000_000, SYNC),
            (Channel::A, 1, -1, SYNC),
            (Channel::A, 1, 4_000_000_000_000_000_000, SYNC),
            (Channel::A, 1, -4_000_000_000_000_000_000, SYNC),
            (Channel::A, 3, 2_399_999_999, SYNC_ELSEWHERE),
            (Channel::A, 3, 2_400_000_000, SYNC_ELSEWHERE),
            (Channel::A, 3, 3_599_999_999, SYNC_ELSEWHERE),
            (Channel::A, 3, 3_600_000_000, SYNC_ELSEWHERE),
            (Channel::A, 1, 280_000_000, DAMAGED),
            (Channel::A, 1, 280_000_000, b""),
            (Channel::A, 3, 2_680_000_000, SYNC),
            (Channel::A, 1, 280_000_000, LAST_COUNT),
            (Channel::A, 1, 280_000_000, ONE_WORD),
            (Channel::A, 3, 2_680_000_000, SYNC_ELSEWHERE),
            (Channel::A, 1, 280_000_000, NO_SYNC),
        ]],
        "\
Some(Stored(0))\n\
Some(Stored(-1))\n\
Some(Stored(919))\n\
Some(Stored(0))\n\
Some(Stored(-280))\n\
Some(Ignored(Outside { arrival: 1200000000, from: 0, to: 1200000000 }))\n\
Some(Ignored(Outside { arrival: -1, from: 0, to: 1200000000 }))\n\
Some(Ignored(Outside { arrival: 4000000000000000000, from: 0, to: 1200000000 }))\n\
Some(Ignored(Outside { arrival: -4000000000000000000, from: 0, to: 1200000000 }))\n\
Some(Ignored(Outside { arrival: 2399999999, from: 2400000000, to: 3600000000 }))\n\
Some(Ignored(Plain))\n\
Some(Ignored(Plain))\n\
Some(Ignored(Outside { arrival: 3600000000, from: 2400000000, to: 3600000000 }))\n\
Some(Ignored(Damaged(FrameCrc { kept: 10151204, computed: 10151205 })))\n\
Some(Ignored(Damaged(Short { given: 0 })))\n\
Some(Ignored(WrongId { slot: Slot(3), id: 1 }))\n\
Some(Ignored(WrongCycle { own: 0, got: 63 }))\n\
Some(Ignored(WrongLength { own: 0, got: 1 }))\n\
Some(Ignored(Plain))\n\
Some(Ignored(Plain))\n\
cycle 0 from 0 rate 0 offset 0 Active cut 0 kept Some(-280) None None next 200000000000 0 Active\n\
",
    ),
    // The count of cycles goes on.
    (
        &[],
        NODES,
        2,
        0,
        &[
            &[(Channel::A, 1, 280_000_000, SYNC)],
            &[(Channel::A, 1, 200_280_000_000, SYNC)],
        ],
        "\
Some(Stored(0))\n\
cycle 0 from 0 rate 0 offset 0 Active cut 0 kept Some(0) None None next 200000000000 0 Active\n\
Some(Ignored(WrongCycle { own: 1, got: 0 }))\n\
cycle 1 from 200000000000 rate 0 offset 0 Active cut 0 kept Some(0) None None next 400000000000 0 Active\n\
",
    ),
    // A late start is corrected.
    (
        &[],
        NODES,
        2,
        2_500_000,
        &[
            &[(Channel::A, 1, 280_000_000, SYNC)],
            &[(Channel::A, 1, 200_280_000_000, SYNC_LATER)],
            &[],
        ],
        "\
Some(Stored(-3))\n\
cycle 0 from 2500000 rate 0 offset 0 Active cut 0 kept Some(-3) None None next 200002500000 0 Active\n\
Some(Stored(-3))\n\
cycle 1 from 200002500000 rate 0 offset -1 Active cut 0 kept Some(-3) Some(-3) None next 400001500000 0 Active\n\
cycle 2 from 400001500000 rate 0 offset 0 Active cut 0 kept None None None next 600001500000 0 Active\n\
",
    ),
    // Both terms of a double cycle lie outside their limits: they are cut, and the node halts.
    (
        &[],
        NODES,
        2,
        0,
        &[
            &[(Channel::A, 1, 280_000_000, SYNC)],
            &[(Channel::A, 1, 201_199_999_999, SYNC_LATER)],
            &[],
        ],
        "\
Some(Stored(0))\n\
cycle 0 from 0 rate 0 offset 0 Active cut 0 kept Some(0) None None next 200000000000 0 Active\n\
Some(Stored(919))\n\
cycle 1 from 200000000000 rate 0 offset 254 Active cut 2 kept Some(0) Some(919) None next 400254000000 81 Halt\n\
cycle 2 from 400254000000 rate 81 offset 0 Halt cut 0 kept None None None next 600335000000 81 Halt\n\
",
    ),
    // The node without a key slot has no values: after two double cycles it is passive, after four halted.
    (
        &[],
        NODES,
        3,
        0,
        &[&[], &[], &[], &[], &[], &[], &[], &[], &[], &[]],
        "\
cycle 0 from 0 rate 0 offset 0 Active cut 0 kept None None None next 200000000000 0 Active\n\
cycle 1 from 200000000000 rate 0 offset 0 Active cut 0 kept None None None next 400000000000 0 Active\n\
cycle 2 from 400000000000 rate 0 offset 0 Active cut 0 kept None None None next 600000000000 0 Active\n\
cycle 3 from 600000000000 rate 0 offset 0 Active cut 0 kept None None None next 800000000000 0 Passive\n\
cycle 4 from 800000000000 rate 0 offset 0 Passive cut 0 kept None None None next 1000000000000 0 Passive\n\
cycle 5 from 1000000000000 rate 0 offset 0 Passive cut 0 kept None None None next 1200000000000 0 Passive\n\
cycle 6 from 1200000000000 rate 0 offset 0 Passive cut 0 kept None None None next 1400000000000 0 Passive\n\
cycle 7 from 1400000000000 rate 0 offset 0 Passive cut 0 kept None None None next 1600000000000 0 Halt\n\
cycle 8 from 1600000000000 rate 0 offset 0 Halt cut 0 kept None None None next 1800000000000 0 Halt\n\
cycle 9 from 1800000000000 rate 0 offset 0 Halt cut 0 kept None None None next 2000000000000 0 Halt\n\
",
    ),
    // A delay of 40 microticks that is taken off on both channels, and one that is taken off on channel B alone.
    (
        &[("param,pDelayCompensation", "param,pDelayCompensation,40,,")],
        TWO_ON_BOTH,
        2,
        0,
        &[&[(Channel::B, 1, 321_000_000, SYNC_ON_B)]],
        DELAYED,
    ),
    (
        &[
            (
                "param,gMacroPerCycle",
                "version,2,,,\nparam,gMacroPerCycle,5000,,",
            ),
            (
                "param,pDelayCompensation",
                "param,pDelayCompensationA,7,,\nparam,pDelayCompensationB,40,,",
            ),
        ],
        TWO_ON_BOTH,
        2,
        0,
        &[&[(Channel::B, 1, 321_000_000, SYNC_ON_B)]],
        DELAYED,
    ),
];

const DELAYED: &str = "\
Some(Stored(1))\n\
cycle 0 from 0 rate 0 offset 0 Active cut 0 kept None None Some(1) next 200000000000 0 Active\n\
";

// A node of the cluster before cycle 0.
fn made(params: &Params, id: u8, start: i64) -> Option<Node>
    ensures { IfSome result (λ node. NodeFits params.now node × IsNone node.length × (node.cycle ≡ 0)) }
{
    if id < 1 || id > 64 || start < 0 || start > 1_000_000_000_000 {
        return None;
    }
    if params.value(ParamName::pRateCorrectionOut) < 1 || params.node(NodeId(id)).is_none() {
        return None;
    }
    Some(Node::new(params, NodeId(id), start, 0))
}

// Whether the slot is the node's key slot.
fn is_own(params: &Params, id: NodeId, slot: Slot) -> bool
    ensures { result ≡ false → key_of params.now id ≢ Some slot }
{
    match params.node(id) {
        None => false,
        Some(node) => match node.key {
            None => false,
            Some(key) => key.0 == slot.0,
        },
    }
}

// What a node makes of an offer, where it may be made one.
fn hears(params: &Params, node: &mut Node, offer: Offer) -> Option<Heard>
    requires fits { NodeFits params.now node.old }
    requires under_way { IsSome node.old.length }
    ensures fits { NodeFits params.now node.new }
    ensures rest { node.new ≡ record node.old { table = node.new.table } }
{
    let (channel, slot, arrival, bytes) = offer;
    if slot < 1 || slot > 1023 || !is_placed(arrival) {
        return None;
    }
    let slot = Slot(slot);
    let NodeRow {
        node: id,
        state,
        ..
    } = node.row();
    let within = u64::from(slot.0) <= params.natural(ParamName::gNumberOfStaticSlots);
    if !within || is_own(params, id, slot) {
        return None;
    }
    if state == State::Halt || !params.common(id, id, channel) {
        return None;
    }
    Some(node.hear(params, slot, channel, arrival, bytes))
}

// Whether an arrival lies in its range.
fn is_placed(arrival: i64) -> bool
    ensures { result ≡ true → IsWithin (pos 4_000_000_000_000_000_000) arrival }
{
    arrival >= -4_000_000_000_000_000_000 && arrival <= 4_000_000_000_000_000_000
}

// Begins a cycle whose microticks are nominal.
pub(crate) fn begin(params: &Params, node: &mut Node, cycle: u32)
    requires fits { NodeFits params.now node.old }
    requires next { CanBegin node.old cycle }
    ensures under_way { IsUnderWay params.now node.new }
    ensures value { node.new ≡ in_cycle node.old (pos 1_000_000) }
{
    node.begin(cycle, 1_000_000);
}

// Plays a cycle whose microticks are nominal.
fn play(
    params: &Params,
    node: &mut Node,
    cycle: u32,
    offers: &[Offer],
    text: &mut String,
) -> Result<(), AllocError>
    requires fits { NodeFits params.now node.old }
    requires between { IsNone node.old.length }
    requires next { cycle ≡ node.old.cycle }
    requires in_run { cycle ≤ 100 }
    ensures fits { OnOk result (NodeFits params.now node.new) }
    ensures between { OnOk result (IsNone node.new.length) }
    ensures next { OnOk result (node.new.cycle ≡ cycle + 1) }
{
    begin(params, node, cycle);
    if let Some(kept) = node.deviation(0, true, Channel::A) {
        writeln!(text, "begun with {kept}")?;
    }
    for offer in offers {
        let heard = hears(params, node, *offer);
        writeln!(text, "{heard:?}")?;
    }
    let row = node.end(params);
    tell(node, cycle, &row, text)
}

fn tell(node: &Node, cycle: u32, row: &NodeRow, text: &mut String) -> Result<(), AllocError>
    requires { IsNone node.now.length }
{
    let even = node.deviation(0, false, Channel::A);
    let odd = node.deviation(0, true, Channel::A);
    let even_b = node.deviation(0, false, Channel::B);
    let (start, rate, state) = (node.next_start(), node.next_rate(), node.next_state());
    write!(text, "cycle {cycle} from {} rate {} ", row.start, row.rate)?;
    write!(
        text,
        "offset {} {:?} cut {} ",
        row.offset, row.state, row.cut
    )?;
    writeln!(
        text,
        "kept {even:?} {odd:?} {even_b:?} next {start} {rate} {state:?}"
    )
}

// What a node makes of what comes.
fn played(
    alloc: Global,
    params: &Params,
    node: &mut Node,
    cycles: &[Offers],
) -> Result<String, AllocError>
    requires fits { NodeFits params.now node.old }
    requires between { IsNone node.old.length }
    requires first { node.old.cycle ≡ 0 }
{
    let mut text = String::new(alloc);
    let mut cycle = 0;
    for offers in cycles {
        if cycle < 100 {
            play(params, node, cycle, offers, &mut text)?;
            cycle += 1;
        }
    }
    Ok(text)
}

// The same of a fresh node of a cluster.
fn played_by(
    alloc: Global,
    params: &Params,
    id: u8,
    start: i64,
    cycles: &[Offers],
) -> Result<String, AllocError> {
    match made(params, id, start) {
        Some(node) => {
            let mut node = node;
            played(alloc, params, &mut node, cycles)
        }
        None => String::from_str(alloc, "no node"),
    }
}

// What is played otherwise, where the parameters are accepted.
fn unplayed(alloc: Global) -> Result<String, AllocError> {
    let mut told = String::new(alloc);
    for (lines, nodes, id, start, cycles, wanted) in PLAYS {
        if let Ok(params) = params_of(alloc, lines, nodes) {
            let given = played_by(alloc, &params, *id, *start, cycles)?;
            if given.as_str() == *wanted {
                continue;
            }
            told.push_str(given.as_str())?;
        }
        told.push_str("and not\n")?;
        told.push_str(wanted)?;
    }
    Ok(told)
}

#[test]
fn plays_its_cycles(rt: HostRuntime) -> Result<(), Fail> {
    assert_eq!(rt; unplayed(rt.alloc())?.as_str(), "");
    Ok(())
}

// Payloads of two words.
const LOADED: &[(&str, &str)] = &[(
    "param,gPayloadLengthStatic",
    "param,gPayloadLengthStatic,2,,",
)];

// Two key slots, and a further slot that is valid in every second cycle.
const SENDERS: &str = "node,1,1,A,1\nnode,3,3,AB,0\nslot,5,1,1,2\n";

// A slot, a cycle, a channel and the regular frame there.
const FRAMES: &[(u16, u32, Channel, &[u8])] = &[
    (
        1,
        65,
        Channel::A,
        b"\x38\x01\x05\xAD\x81\x0A\x0B\x0C\x0D\xD6\x63\x26",
    ),
    (
        3,
        0,
        Channel::B,
        b"\x30\x03\x05\xEF\x40\x15\x16\x17\x18\x43\x0A\xF0",
    ),
    (
        5,
        65,
        Channel::A,
        b"\x20\x05\x05\x90\x41\x26\x27\x28\x29\x2D\x9F\x59",
    ),
    (
        5,
        64,
        Channel::A,
        b"\x00\x05\x05\x90\x40\x00\x00\x00\x00\x16\x4B\x3D",
    ),
];

// Whether a node writes so many bytes, and the frame is at the front and what was there behind it.
fn writes(params: &Params, slot: u16, cycle: u32, channel: Channel, frame: &[u8]) -> bool {
    if slot < 1 || slot > 1023 || params.frame_bytes() != 12 {
        return false;
    }
    match sender(params, Slot(slot), cycle) {
        Some(sending) => {
            let mut out = [0xEE; 262];
            let count = frame_of(params, &sending, Slot(slot), cycle, channel, &mut out);
            count == 12 && out.starts_with(frame) && out[frame.len().min(261)] == 0xEE
        }
        None => false,
    }
}

#[test]
fn writes_regular_frames(rt: HostRuntime) -> Result<(), Fail> {
    let params = params_of(rt.alloc(), LOADED, SENDERS)?;
    for (slot, cycle, channel, frame) in FRAMES {
        assert!(rt;
            writes(&params, *slot, *cycle, *channel, frame),
            "slot {slot} in cycle {cycle}"
        );
    }
    Ok(())
}
