// Macroticks in a cycle, the slots and their senders, and the greatest skew over all macroticks.
ghost use Rattle.std.specs.Prelude.{All};
ghost use Rattle.fr_time.specs.Placed.{IsPlacedRow};
ghost use Rattle.fr_time.specs.Position.{IsGrid};

use fr_base::{NodeId, NodeRow, Slot, State};
use fr_cluster::{ParamName, Params};
use fr_samples::params_of;
use fr_skew::{Peak, swept, swept_through};
use fr_time::{
    Grid, Kind, Macro, Sending, action_point, grid_of, instant, position, sender, slot_bounds,
};
use std::alloc::Global;

// Three static slots of two macroticks in a cycle of ten.
const NARROW: &[(&str, &str)] = &[
    ("param,gMacroPerCycle", "param,gMacroPerCycle,10,,"),
    ("param,pMicroPerCycle", "param,pMicroPerCycle,25,,"),
    (
        "param,gNumberOfStaticSlots",
        "param,gNumberOfStaticSlots,3,,",
    ),
    ("param,gdStaticSlot", "param,gdStaticSlot,2,,"),
    ("param,gdActionPointOffset", "param,gdActionPointOffset,1,,"),
    ("param,gdNIT", "param,gdNIT,4,,"),
    (
        "param,gOffsetCorrectionStart",
        "param,gOffsetCorrectionStart,8,,",
    ),
    (
        "param,pClusterDriftDamping",
        "param,pClusterDriftDamping,0,,",
    ),
    (
        "param,pOffsetCorrectionOut",
        "param,pOffsetCorrectionOut,1,,",
    ),
    ("param,pRateCorrectionOut", "param,pRateCorrectionOut,1,,"),
    ("param,xRateBound", "param,xRateBound,0,,"),
    ("param,xDelayError", "param,xDelayError,0,,"),
];

// Two key slots, and a further slot that is valid in every second cycle.
const NODES: &str = "node,1,1,A,1\nnode,2,2,A,1\nslot,3,1,1,2\n";

const EVEN: Grid = Grid {
    macros: 10,
    micros: 25,
    correction: 9,
};

const ODD: Grid = Grid {
    macros: 10,
    micros: 25,
    correction: 8,
};

// 26 microticks lie over seven macroticks, and what is left in an odd cycle, 14, over three.
const UNEVEN: Grid = Grid {
    macros: 7,
    micros: 25,
    correction: 4,
};

// Whether a walk answers these positions, and none behind them.
fn walks(walk: &mut Macro, positions: &[i64]) -> bool {
    let mut same = true;
    for position in positions {
        same = walk.next() == Some(*position) && same;
    }
    same && walk.next().is_none()
}

// The positions that are answered ahead and back, on both sides of the start of the offset correction, and at the end.
fn gone() -> [Option<i64>; 4] {
    let mut odd = Macro::begin(&ODD, 0, 2, true);
    odd.go(9);
    let ahead = odd.next();
    odd.go(3);
    let back = odd.next();
    odd.go(4);
    let behind = odd.next();
    odd.go(10);
    [ahead, back, behind, odd.next()]
}

// The positions of an uneven cycle, computed one by one.
fn computed(odd: bool) -> [i64; 7] {
    let mut positions = [0; 7];
    for macrotick in 0..7 {
        positions[macrotick] = position(&UNEVEN, 1, 2, odd, macrotick as i64);
    }
    positions
}

#[test]
fn walks_through_the_cycle(rt: HostRuntime) {
    let (even, odd) = (
        [0, 2, 5, 7, 10, 12, 15, 17, 20, 22],
        [0, 2, 5, 7, 10, 12, 15, 17, 20, 23],
    );
    assert!(rt; walks(&mut Macro::begin(&EVEN, 0, 0, false), &even));
    assert!(rt; walks(&mut Macro::begin(&ODD, 0, 2, true), &odd));
    assert!(rt; gone() == [Some(23), Some(7), Some(10), None]);
}

#[test]
fn counts_what_is_computed(rt: HostRuntime) {
    for (odd, last) in [(false, 22), (true, 23)] {
        let positions = computed(odd);
        assert!(rt; walks(&mut Macro::begin(&UNEVEN, 1, 2, odd), &positions));
        assert_eq!(rt; positions[6], last);
    }
}

// An odd cycle of a node whose microtick is 1,000,100 ticks.
const ROW: NodeRow = NodeRow {
    node: NodeId(1),
    start: 500,
    length: 1_000_100,
    rate: 0,
    offset: 2,
    state: State::Active,
    cut: 0,
};

// A slot, a cycle, and what is sent there.
const SENDERS: &[(u16, u32, Option<(u8, Kind)>)] = &[
    (1, 64, Some((1, Kind::SyncFrame))),
    (2, 65, Some((2, Kind::SyncFrame))),
    (3, 64, Some((1, Kind::NullFrame))),
    (3, 65, Some((1, Kind::ValidFrame))),
    (4, 64, None),
];

fn sent(params: &Params, slot: u16, cycle: u32) -> Option<(u8, Kind)> {
    if slot < 1 || slot > 1023 {
        return None;
    }
    let Sending { node, kind } = sender(params, Slot(slot), cycle)?;
    Some((node.0, kind))
}

// The action point of slot 1, and the bounds of slot 3, where it has them.
fn slots(params: &Params) -> Option<(i64, (i64, i64))> {
    if params.natural(ParamName::gNumberOfStaticSlots) < 3 {
        return None;
    }
    Some((action_point(params, Slot(1)), slot_bounds(params, Slot(3))))
}

// Whether a cluster has these senders, slots and cycle.
fn is_laid_out(params: &Params) -> bool {
    let mut same = true;
    for (slot, cycle, wanted) in SENDERS {
        same = sent(params, *slot, *cycle) == *wanted && same;
    }
    same && slots(params) == Some((1, (4, 6))) && grid_of(params) == ODD
}

fn is_narrow_laid_out(alloc: Global) -> bool {
    match params_of(alloc, NARROW, NODES) {
        Ok(params) => is_laid_out(&params),
        Err(_) => false,
    }
}

#[test]
fn tells_instants_slots_and_senders(rt: HostRuntime) {
    assert!(rt; is_narrow_laid_out(rt.alloc()));
    assert!(rt; position(&ODD, 0, 2, true, 10) == 27);
    assert!(rt; instant(&ODD, &ROW, true, 9) == 23_002_800);
}

const GRID: Grid = ODD;

const FIRST: NodeRow = NodeRow {
    node: NodeId(1),
    start: 0,
    length: 1_000_000,
    rate: 0,
    offset: 0,
    state: State::Active,
    cut: 0,
};

// Two microticks more behind the start of the offset correction.
const SECOND: NodeRow = NodeRow {
    node: NodeId(2),
    start: 700_000,
    length: 1_000_100,
    rate: 0,
    offset: 2,
    state: State::Active,
    cut: 0,
};

// 400 macroticks of ten microticks, in an odd cycle 250 of them before the start of the correction.
const LONG: Grid = Grid {
    macros: 400,
    micros: 4000,
    correction: 250,
};

// Five microticks more behind the start of the offset correction.
const EVEN_CLOCK: NodeRow = NodeRow { offset: 5, ..FIRST };

// A hundredth slower, and 13 microticks less there.
const SLOW_CLOCK: NodeRow = NodeRow {
    node: NodeId(2),
    length: 1_010_000,
    offset: -13,
    ..FIRST
};

// A ten thousandth slower, with the same terms.
const LATER: NodeRow = NodeRow {
    node: NodeId(2),
    start: 700_000,
    length: 1_000_100,
    ..FIRST
};

// The greatest skew, its cycle and its macrotick.
type Place = (i64, u32, u32);

// Two clocks, a cycle, the greatest skew before it, and that after it.
const SWEEPS: &[(Clocks, u32, Option<Place>, Place)] = &[
    // The greatest skew of an odd cycle lies behind the start of the correction, at macrotick 9: 23,702,300 ticks less
    // 22,000,000. No skew of the cycle is above 2,702,700 ticks, that of its end, and so none above its bound of
    // 4,202,700.
    (Clocks::Short, 1, None, (1_702_300, 1, 9)),
    (Clocks::Short, 1, Some((702_500, 0, 5)), (1_702_300, 1, 9)),
    (Clocks::Short, 1, Some((4_202_700, 0, 5)), (4_202_700, 0, 5)),
    // The clocks part by 100,000 ticks a macrotick up to the start of the correction. Behind it they draw near again,
    // but for a microtick now and then: the greatest skew of the odd cycle is that of macrotick 273, above those of
    // macroticks 0, 250 and 399. The stretches before macrotick 192 and behind macrotick 378 are far below it. In the
    // even cycle, which no offset term moves, it is that of the last macrotick.
    (Clocks::Parting, 1, None, (25_280_000, 1, 273)),
    (
        Clocks::Parting,
        1,
        Some((25_279_999, 0, 5)),
        (25_280_000, 1, 273),
    ),
    (
        Clocks::Parting,
        1,
        Some((25_280_000, 0, 5)),
        (25_280_000, 0, 5),
    ),
    (
        Clocks::Parting,
        1,
        Some((41_500_000, 0, 5)),
        (41_500_000, 0, 5),
    ),
    (Clocks::Parting, 2, None, (39_900_000, 2, 399)),
    (
        Clocks::Parting,
        2,
        Some((39_900_000, 0, 5)),
        (39_900_000, 0, 5),
    ),
    // Where the terms are the same the clocks part by 1,000 ticks a macrotick all along, from 700,000 ticks on.
    (Clocks::Alike, 1, None, (1_099_000, 1, 399)),
    (
        Clocks::Alike,
        1,
        Some((1_098_999, 0, 5)),
        (1_099_000, 1, 399),
    ),
    (Clocks::Alike, 1, Some((1_099_000, 0, 5)), (1_099_000, 0, 5)),
    (Clocks::Alike, 1, Some((1_100_000, 0, 5)), (1_100_000, 0, 5)),
];

#[derive(Clone, Copy)]
enum Clocks {
    Short,
    Parting,
    Alike,
}

// The same by stretches and macrotick by macrotick.
fn swept_both(grid: &Grid, rows: &[NodeRow], cycle: u32, before: Option<Peak>) -> [Option<Peak>; 2]
    requires grid { IsGrid grid.now }
    requires rows { All (IsPlacedRow grid.now) rows.now }
{
    [
        swept(grid, cycle, rows, before),
        swept_through(grid, cycle, rows, before),
    ]
}

fn swept_by(clocks: Clocks, cycle: u32, before: Option<Peak>) -> [Option<Peak>; 2] {
    match clocks {
        Clocks::Short => swept_both(&GRID, &[FIRST, SECOND], cycle, before),
        Clocks::Parting => swept_both(&LONG, &[EVEN_CLOCK, SLOW_CLOCK], cycle, before),
        Clocks::Alike => swept_both(&LONG, &[FIRST, LATER], cycle, before),
    }
}

fn peak(place: Place) -> Peak {
    let (skew, cycle, macrotick) = place;
    Peak {
        skew,
        cycle,
        macrotick,
    }
}

#[test]
fn sweeps_by_stretches_as_macrotick_by_macrotick(rt: HostRuntime) {
    for (clocks, cycle, before, found) in SWEEPS {
        let found = Some(peak(*found));
        assert!(rt; swept_by(*clocks, *cycle, before.map(peak)) == [found, found]);
    }
}
