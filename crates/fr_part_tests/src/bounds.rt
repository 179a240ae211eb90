// The bounds and checks of a cluster, and whether clocks are in sync.
ghost use Rattle.std.specs.Prelude.{◌≡◌, All};
ghost use Rattle.fr_base.specs.Timed.{IsTimed};

use fr_base::{Channel, NodeId, NodeRow, RowList, State};
use fr_bound::{CheckSides, bounds, checks, join_checks, reach, side};
use fr_cluster::{ParamName, Params};
use fr_samples::params_of;
use fr_skew::in_sync;
use std::alloc::Global;

type Lines = &'static [(&'static str, &'static str)];

const ONE_NODE: &str = "node,1,1,A,1\n";

// The action point comes a macrotick earlier.
const EARLY: Lines = &[("param,gdActionPointOffset", "param,gdActionPointOffset,6,,")];

// A compensation of one microtick on channel A, and of three on channel B.
const COMPENSATED: Lines = &[
    (
        "param,gMacroPerCycle",
        "version,2,,,\nparam,gMacroPerCycle,5000,,",
    ),
    (
        "param,pDelayCompensation",
        "param,pDelayCompensationA,1,,\nparam,pDelayCompensationB,3,,",
    ),
];

// A wider rate limit and offset limit, and a later action point, which leave room for nodes that join.
const WIDE: Lines = &[
    (
        "param,gdActionPointOffset",
        "param,gdActionPointOffset,12,,",
    ),
    (
        "param,pOffsetCorrectionOut",
        "param,pOffsetCorrectionOut,454,,",
    ),
    ("param,pRateCorrectionOut", "param,pRateCorrectionOut,84,,"),
];

// The same with an action point that is a macrotick too early.
const NARROWER: Lines = &[
    (
        "param,gdActionPointOffset",
        "param,gdActionPointOffset,11,,",
    ),
    (
        "param,pOffsetCorrectionOut",
        "param,pOffsetCorrectionOut,454,,",
    ),
    ("param,pRateCorrectionOut", "param,pRateCorrectionOut,84,,"),
];

// What is told of a cluster: the precision, the reach, the first check and the first check of nodes that join that fail,
// and the delay compensation on both channels, the wider one, and by its name.
type Told = (i64, i64, Result<(), u8>, Result<(), u8>, [i64; 4]);

// Both sides of a check and whether it holds.
type Sides = (i64, i64, bool);

// Lines of the parameters, what is told of them, a check, and its sides: none where there is no such check.
const TOLD: &[(Lines, Told, u8, Option<Sides>)] = &[
    (
        EARLY,
        (252_043_600, 452_077_600, Err(4), Err(6), [0; 4]),
        4,
        Some((1_194_275_097_200, 1_262_718_000_000, false)),
    ),
    (
        COMPENSATED,
        (252_084_400, 452_154_400, Ok(()), Err(6), [1, 3, 3, 3]),
        0,
        None,
    ),
    (WIDE, WIDE_TOLD, 6, Some((83_983_200, 83_000_400, true))),
    (WIDE, WIDE_TOLD, 7, Some((453_909_200, 453_577_800, true))),
    (
        WIDE,
        WIDE_TOLD,
        8,
        Some((2_393_513_201_600, 2_262_888_000_000, true)),
    ),
    (
        WIDE,
        WIDE_TOLD,
        9,
        Some((3_592_769_302_400, 2_262_888_000_000, true)),
    ),
    (
        NARROWER,
        (252_043_600, 452_077_600, Ok(()), Err(8), [0; 4]),
        8,
        Some((2_193_637_184_800, 2_262_888_000_000, false)),
    ),
];

const WIDE_TOLD: Told = (252_043_600, 452_077_600, Ok(()), Ok(()), [0; 4]);

fn sides(params: &Params, number: u8) -> Option<Sides> {
    if number < 1 || number > 9 {
        return None;
    }
    let CheckSides { left, right, holds } = side(params, number);
    Some((left, right, holds))
}

fn told(params: &Params) -> Told {
    (
        bounds(params).precision,
        reach(params),
        checks(params),
        join_checks(params),
        [
            params.compensation(Channel::A),
            params.compensation(Channel::B),
            params.widest_compensation(),
            params.value(ParamName::pDelayCompensation),
        ],
    )
}

// Both, of a cluster with these lines; none where they are refused.
fn told_of(alloc: Global, lines: Lines, number: u8) -> Option<(Told, Option<Sides>)> {
    match params_of(alloc, lines, ONE_NODE) {
        Ok(params) => Some((told(&params), sides(&params, number))),
        Err(_) => None,
    }
}

#[test]
fn bounds_and_checks_are_those_of_the_rows(rt: HostRuntime) {
    for (lines, wanted, number, sides) in TOLD {
        assert!(rt; told_of(rt.alloc(), lines, *number) == Some((*wanted, *sides)));
    }
}

// A node's row: a start and a rate term, and whether it is active.
type Short = (i64, i32, bool);

const PLAIN: Short = (0, 0, true);

const SILENT: Short = (0, 0, false);

const LATE: Short = (190_032_801, 0, true);

// The rows of nodes 1 and 2 in the even and then in the odd cycle, and whether they are in sync.
const ROWS: &[(Short, Short, Short, Short, bool)] = &[
    (
        (190_032_800, 0, true),
        (0, 30, true),
        (0, 30, true),
        (7, 0, true),
        true,
    ),
    (LATE, PLAIN, PLAIN, PLAIN, false),
    (PLAIN, LATE, PLAIN, PLAIN, false),
    (PLAIN, PLAIN, LATE, PLAIN, true),
    ((0, 31, true), PLAIN, PLAIN, PLAIN, false),
    (PLAIN, PLAIN, PLAIN, (0, 31, true), false),
    (
        (0, -40, true),
        (0, -40, true),
        (0, 40, true),
        (0, 40, true),
        true,
    ),
    ((0, -41, true), (0, -41, true), PLAIN, PLAIN, false),
    (PLAIN, PLAIN, (0, 41, true), (0, 41, true), false),
    (SILENT, PLAIN, PLAIN, PLAIN, false),
    (PLAIN, PLAIN, PLAIN, SILENT, false),
];

fn row_of(node: NodeId, short: Short) -> NodeRow
    ensures node { result.node ≡ node }
    ensures timed { IsTimed result }
{
    let (start, rate, active) = short;
    NodeRow {
        node,
        start: start.clamp(0, 200_000_000),
        length: 1_000_000,
        rate,
        offset: 0,
        state: if active {
            State::Active
        } else {
            State::Passive
        },
        cut: 0,
    }
}

fn rows_of(first: Short, second: Short) -> RowList
    ensures timed { All IsTimed result }
{
    let mut rows = RowList::new();
    rows.push(row_of(NodeId(1), first));
    rows.push(row_of(NodeId(2), second));
    rows
}

// The place of the first row that is answered otherwise, with clocks of no rows behind them.
fn first_other(params: &Params) -> Option<usize> {
    for (place, (even, even_2, odd, odd_2, wanted)) in ROWS.iter().enumerate() {
        if in_sync(params, &rows_of(*even, *even_2), &rows_of(*odd, *odd_2)) != *wanted {
            return Some(place);
        }
    }
    None
}

// The same over a cluster; none where it is refused.
fn first_unsynced(alloc: Global) -> Option<(Option<usize>, bool)> {
    match params_of(alloc, EARLY, ONE_NODE) {
        Ok(params) => Some((
            first_other(&params),
            in_sync(&params, &RowList::new(), &RowList::new()),
        )),
        Err(_) => None,
    }
}

#[test]
fn tells_whether_clocks_are_in_sync(rt: HostRuntime) {
    assert!(rt; first_unsynced(rt.alloc()) == Some((None, true)));
}
