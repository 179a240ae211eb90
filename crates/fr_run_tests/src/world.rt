// A world run cycle by cycle: its rows, its nodes, its cells, and its report.
ghost use Rattle.std.specs.Prelude.{◌≡◌, ◌<◌, IsNone};

use crate::answers::TRACE;
use crate::series::APART_SERIES;
use fr_answer::play;
use fr_base::{Channel, Counts, CycleRow, Dev, NodeId, NodeRow, PutFault, Slot, State};
use fr_coverage::covered;
use fr_frame::decode;
use fr_node::Node;
use fr_program::MemorySink;
use fr_report::{Report, add_next, write_report};
use fr_samples::{
    APART, APART_REPORT, FOUR_ON_A, LATER, LATER_REPORT, ONE, THREE_ON_A, TWO_FACED, TWO_ON_A,
    params_of, report,
};
use fr_series::write_series;
use fr_trace::{write_cycle, write_head};
use fr_verdict::devs_of;
use fr_world::World;
use std::alloc::Global;
use std::test::Fail;

// What is asked of a world that was just built.
enum Question {
    // Whether it has these rows, as it answers them and as it keeps them, and no more.
    Rows(&'static [Kept]),
    // How a node stands after so many cycles, by a place among the sync nodes.
    Standing(u32, u8, usize, Option<Standing>),
    // Whether a node follows, and whether node 3 has a row, before each cycle.
    Joining(&'static [(bool, bool)]),
    // What stands in the cell of a slot on a channel after so many cycles.
    Cell(u32, u16, Channel, (bool, Option<Front>)),
    // What a report tells where this put fails, and how many of the lines of a text are written: each is one put.
    Told(u64, Result<Told, PutFault>, &'static str, usize),
    // The report of its run.
    Played(&'static str),
    // The trace of its run.
    Traced(&'static str),
    // The series of its run.
    Drawn(&'static str),
}

// Start, length, rate term and offset term of a clock in a cycle.
type Clock = (i64, i64, i32, i32);

// The clocks of nodes 1 and 2 in a cycle, and what each measures of the other on channel A.
type Kept = (Clock, Clock, i32, i32);

// Four cycles of two clocks that lie apart.
const ROWS: &[Kept] = &[
    ((0, 1_000_100, 0, 0), (0, 999_900, 0, 0), -1, 0),
    (
        (200_020_000_000, 1_000_100, 0, -20),
        (199_980_000_000, 999_900, 0, 20),
        -41,
        40,
    ),
    (
        (400_019_998_000, 1_000_100, -16, 0),
        (399_979_998_000, 999_900, 16, 0),
        -40,
        39,
    ),
    (
        (600_023_996_400, 1_000_100, -16, -24),
        (599_975_996_400, 999_900, 16, 23),
        -48,
        47,
    ),
];

// In each both frames are stored, and their frame CRCs add up to 5240D1.
const COUNTS: Counts = Counts {
    sent_a: 2,
    sent_b: 0,
    xor_a: 0x5240D1,
    xor_b: 0,
    stored: 2,
    outside: 0,
    damaged: 0,
    wrong_id: 0,
    wrong_cycle: 0,
    wrong_length: 0,
    plain: 0,
};

fn clock(node: NodeId, row: Clock) -> NodeRow {
    let (start, length, rate, offset) = row;
    NodeRow {
        node,
        start,
        length,
        rate,
        offset,
        state: State::Active,
        cut: 0,
    }
}

fn dev(receiver: NodeId, slot: Slot, value: i32) -> Dev {
    Dev {
        receiver,
        slot,
        channel: Channel::A,
        value,
    }
}

fn is_row(row: &CycleRow, wanted: &Kept) -> bool {
    let (one, two, first, second) = wanted;
    let rows = [clock(NodeId(1), *one), clock(NodeId(2), *two)];
    let devs = [
        dev(NodeId(1), Slot(2), *first),
        dev(NodeId(2), Slot(1), *second),
    ];
    row.rows.as_slice() == rows.as_slice()
        && row.devs.as_slice() == devs.as_slice()
        && row.counts == COUNTS
}

fn is_that(row: Option<&CycleRow>, wanted: &Kept) -> bool {
    match row {
        Some(row) => is_row(row, wanted),
        None => false,
    }
}

fn has_rows(world: &mut World, rows: &[Kept]) -> bool {
    let mut same = world.row().is_none();
    for wanted in rows {
        same = is_that(world.cycle(), wanted) && is_that(world.row(), wanted) && same;
    }
    same && world.cycle().is_none()
}

// The start of the next cycle, its rate term, the state in it, and the deviations of the sync node at a place on channel A
// in the even and in the odd cycle.
type Standing = (i64, i32, State, Option<i32>, Option<i32>);

fn standing(node: &Node, place: usize) -> Standing
    requires between { IsNone node.now.length }
    requires place { place < 15 }
{
    (
        node.next_start(),
        node.next_rate(),
        node.next_state(),
        node.deviation(place, false, Channel::A),
        node.deviation(place, true, Channel::A),
    )
}

fn standing_of(world: &World, id: u8, place: usize) -> Option<Standing> {
    if id < 1 || id > 64 || place >= 15 {
        return None;
    }
    match world.node(NodeId(id)) {
        Some(node) => Some(standing(node, place)),
        None => None,
    }
}

fn run(world: &mut World, cycles: u32) {
    for _ in 0..cycles {
        world.cycle();
    }
}

fn is_joined(world: &mut World, seen: &[(bool, bool)]) -> bool {
    let mut same = true;
    for (following, row) in seen {
        same = world.following() == *following && world.node(NodeId(3)).is_some() == *row && same;
        world.cycle();
    }
    same
}

// How many bytes a frame has, whether it is one, and its first five.
type Front = (usize, bool, [u8; 5]);

// Whether there is a cell, and what stands in it.
fn cell_of(world: &World, slot: u16, channel: Channel) -> (bool, Option<Front>) {
    if slot < 1 || slot > 1023 {
        return (false, None);
    }
    let slot = Slot(slot);
    (
        world.cell(slot, channel).is_some(),
        front_of(world.last(slot, channel), channel),
    )
}

fn front_of(frame: Option<&[u8]>, channel: Channel) -> Option<Front> {
    let bytes = frame?;
    if bytes.len() < 5 {
        return None;
    }
    let front = [bytes[0], bytes[1], bytes[2], bytes[3], bytes[4]];
    Some((bytes.len(), decode(channel, bytes).is_ok(), front))
}

// The greatest skew with its place, and the first double cycle in sync.
type Told = (Option<(i64, u32, i64)>, Option<u32>);

// Runs all cycles of a fresh world, and writes its report.
fn tell(world: &mut World, out: &mut MemorySink) -> Result<Told, PutFault>
    requires { world.old.cycles ≡ 0 }
{
    let mut report = Report::new(world.params());
    let mut greatest = None;
    let cycles = 2 * world.drift().doubles();
    for _done in 0..cycles {
        add_next(&mut report, world);
        greatest = Some(report.greatest());
    }
    let gap = covered(world.params(), world.drift(), world.script());
    write_report(&report, world, gap, out)?;
    Ok((greatest, report.synced()))
}

// Whether a text has so many lines of another one, and no more.
fn is_front(written: &[u8], text: &str, lines: usize) -> bool {
    let mut count = 0usize;
    for line in text.lines().take(lines) {
        count = count.saturating_add(line.len()).saturating_add(1);
    }
    count == written.len() && text.as_bytes().starts_with(written)
}

fn tells(
    alloc: Global,
    world: &mut World,
    put: u64,
    wanted: Result<Told, PutFault>,
    front: (&str, usize),
) -> Result<bool, Fail>
    requires { world.old.cycles ≡ 0 }
{
    let (text, lines) = front;
    let mut out = MemorySink::new(alloc, 1000)?;
    out.fail_at(put)?;
    Ok(tell(world, &mut out) == wanted && is_front(out.bytes(), text, lines))
}

fn plays(alloc: Global, world: &mut World, report: &str) -> Result<bool, Fail>
    requires { world.old.cycles ≡ 0 }
{
    let mut written = MemorySink::new(alloc, 2000)?;
    Ok(
        play(world, &mut written).is_ok()
            && written.bytes() == report.as_bytes()
            && world.cycle().is_none(),
    )
}

// Writes the trace of all cycles of a fresh world.
fn trace(world: &mut World, out: &mut MemorySink) -> Result<(), PutFault>
    requires { world.old.cycles ≡ 0 }
{
    write_head(world.params(), world.drift(), world.script(), out)?;
    let cycles = 2 * world.drift().doubles();
    for _done in 0..cycles {
        if let Some(row) = world.cycle() {
            write_cycle(row, out)?;
        }
    }
    Ok(())
}

fn traces(alloc: Global, world: &mut World, text: &str) -> Result<bool, Fail>
    requires { world.old.cycles ≡ 0 }
{
    let mut written = MemorySink::new(alloc, 1000)?;
    Ok(trace(world, &mut written).is_ok() && written.bytes() == text.as_bytes())
}

fn draws(alloc: Global, world: &mut World, series: &str) -> Result<bool, Fail>
    requires { world.old.cycles ≡ 0 }
{
    let mut written = MemorySink::new(alloc, 1000)?;
    Ok(
        write_series(world, &mut written).is_ok()
            && written.bytes() == series.as_bytes()
            && world.cycle().is_none(),
    )
}

fn answers(alloc: Global, world: &mut World, question: &Question) -> Result<bool, Fail>
    requires { world.old.cycles ≡ 0 }
{
    match question {
        Question::Rows(rows) => Ok(has_rows(world, rows)),
        Question::Standing(cycles, id, place, wanted) => {
            run(world, *cycles);
            Ok(standing_of(world, *id, *place) == *wanted)
        }
        Question::Joining(seen) => Ok(is_joined(world, seen)),
        Question::Cell(cycles, slot, channel, wanted) => {
            run(world, *cycles);
            Ok(cell_of(world, *slot, *channel) == *wanted && world.pool().cells() == 282)
        }
        Question::Told(put, wanted, text, lines) => {
            tells(alloc, world, *put, *wanted, (text, *lines))
        }
        Question::Played(report) => plays(alloc, world, report),
        Question::Traced(text) => traces(alloc, world, text),
        Question::Drawn(series) => draws(alloc, world, series),
    }
}

// Whether the world of the cluster with these nodes, a drift file and a script answers so: it is dropped here alone.
fn is_answered(
    alloc: Global,
    nodes: &str,
    drift: &str,
    script: &str,
    question: &Question,
) -> Result<bool, Fail> {
    let params = params_of(alloc, &[], nodes)?;
    let drift = fr_drift::read(alloc, &params, drift.as_bytes())?;
    let script = fr_script::read(alloc, &params, script.as_bytes())?;
    let mut world = World::build(alloc, params, drift, script)?;
    answers(alloc, &mut world, question)
}

// Node 3 listens in cycles 0 and 1, follows in cycles 2 to 5, and takes part from cycle 6 on.
const SEEN: &[(bool, bool)] = &[
    (false, false),
    (false, false),
    (false, false),
    (true, false),
    (true, false),
    (true, false),
    (true, false),
    (false, true),
    (false, true),
    (false, true),
    (false, true),
];

const TWO_FACED_REPORT: &str = report! {
    [4, 4, 1, 1] 252043600 "yes" 0
    [0, 0, 0]
    [6, "5D6DCB"]
    [0, "000000"]
    [16, 0, 0, 0, 0, 0, 0]
    0
    [1, "active", "400000000000", 0, 0]
    [2, "active", "400000000000", 0, 0]
    [3, "active", "400000000000", 0, 0]
};

// A run of one double cycle in which node 2 starts two and a half microticks later.
const LATER_ONE: &str = "doubles,1,,,,\nstart,2,2500000,0,,\n";

// The trace of a run with an arbitrary node, which says nothing, and one that joins too late to have rows.
const NAMED: &str = "\
run,1,,,,,,\n\
arbitrary,2,,,,,,\n\
join,3,1,0,,,,\n\
cycle,0,1,0,1000000,0,0,active\n\
cycle,1,1,200000000000,1000000,0,0,active\n\
";

// Nodes, a drift, a script, and what is answered: of a node none where it is arbitrary or unknown; of cells where nothing
// was sent yet, in slot 3 and on channel B, none.
const ANSWERS: &[(&str, &str, &str, Question)] = &[
    (TWO_ON_A, APART, "", Question::Rows(ROWS)),
    (
        TWO_ON_A,
        APART,
        "",
        Question::Standing(
            2,
            1,
            1,
            Some((400_019_998_000, -16, State::Active, Some(-1), Some(-41))),
        ),
    ),
    (
        TWO_ON_A,
        APART,
        "",
        Question::Standing(
            2,
            2,
            0,
            Some((399_979_998_000, 16, State::Active, Some(0), Some(40))),
        ),
    ),
    (
        FOUR_ON_A,
        ONE,
        TWO_FACED,
        Question::Standing(0, 3, 0, Some((0, 0, State::Active, None, None))),
    ),
    (FOUR_ON_A, ONE, TWO_FACED, Question::Standing(0, 4, 0, None)),
    (FOUR_ON_A, ONE, TWO_FACED, Question::Standing(0, 5, 0, None)),
    (
        THREE_ON_A,
        "doubles,5,,,,\n",
        "join,0,3,1,,,\n",
        Question::Joining(SEEN),
    ),
    (
        TWO_ON_A,
        ONE,
        "",
        Question::Cell(0, 1, Channel::A, (false, None)),
    ),
    (
        TWO_ON_A,
        ONE,
        "",
        Question::Cell(
            1,
            1,
            Channel::A,
            (true, Some((8, true, [56, 1, 0, 111, 0]))),
        ),
    ),
    (
        TWO_ON_A,
        ONE,
        "",
        Question::Cell(1, 3, Channel::A, (false, None)),
    ),
    (
        TWO_ON_A,
        ONE,
        "",
        Question::Cell(1, 1, Channel::B, (false, None)),
    ),
    (
        TWO_ON_A,
        LATER,
        "",
        Question::Told(12, Ok((Some((2_500_000, 0, 0)), Some(0))), LATER_REPORT, 11),
    ),
    (
        TWO_ON_A,
        APART,
        "",
        Question::Told(
            12,
            Ok((Some((79_200_000, 1, 4900)), Some(1))),
            APART_REPORT,
            11,
        ),
    ),
    (
        TWO_ON_A,
        LATER,
        "",
        Question::Told(1, Err(PutFault::Failed), LATER_REPORT, 0),
    ),
    (
        TWO_ON_A,
        LATER,
        "",
        Question::Told(2, Err(PutFault::Failed), LATER_REPORT, 1),
    ),
    (
        TWO_ON_A,
        LATER,
        "",
        Question::Told(11, Err(PutFault::Failed), LATER_REPORT, 10),
    ),
    (TWO_ON_A, LATER, "", Question::Played(LATER_REPORT)),
    (
        FOUR_ON_A,
        ONE,
        TWO_FACED,
        Question::Played(TWO_FACED_REPORT),
    ),
    (TWO_ON_A, LATER_ONE, "", Question::Traced(TRACE)),
    (
        THREE_ON_A,
        ONE,
        "arbitrary,2,,,,,\njoin,0,3,1,,,\n",
        Question::Traced(NAMED),
    ),
    (TWO_ON_A, APART, "", Question::Drawn(APART_SERIES)),
];

// The place of the first of these that is answered otherwise.
fn first_other(alloc: Global) -> Result<Option<usize>, Fail> {
    for (place, (nodes, drift, script, question)) in ANSWERS.iter().enumerate() {
        if !is_answered(alloc, nodes, drift, script, question)? {
            return Ok(Some(place));
        }
    }
    Ok(None)
}

#[test]
fn worlds_answer(rt: HostRuntime) -> Result<(), Fail> {
    assert_eq!(rt; first_other(rt.alloc())?, None);
    Ok(())
}

#[test]
fn deviations_of_a_receiver_are_found(rt: HostRuntime) -> Result<(), Fail> {
    let devs = [
        Dev {
            receiver: NodeId(1),
            slot: Slot(2),
            channel: Channel::A,
            value: 2,
        },
        Dev {
            receiver: NodeId(2),
            slot: Slot(1),
            channel: Channel::A,
            value: -3,
        },
    ];
    assert_eq!(rt; devs_of(&devs, NodeId(1)).len(), 1);
    assert_eq!(rt; devs_of(&devs, NodeId(2)).len(), 1);
    assert_eq!(rt; devs_of(&devs, NodeId(3)).len(), 0);
    Ok(())
}
