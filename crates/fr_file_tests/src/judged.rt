// Which double cycles are judged by their own numbers, and what is then known of the next ones.
use fr_bound::{Flutter, Heard, Known, Spread, apart_through, is_judged, known_after, met_with};
use fr_cluster::Params;
use fr_samples::{TWO_ON_A, params_of};
use std::alloc::Global;

type Lines = &'static [(&'static str, &'static str)];

// How far starts and lengths may lie apart, and how far lengths may lie beyond their range, in ticks.
type Numbers = (u64, u64, u64);

// The same of the next double cycle, and how far macroticks may lie apart in this one.
type Behind = (Numbers, u64);

// By how many ticks delays flutter.
const FLUTTER: u64 = 1_000_000;

// Rates are not damped: lengths walk by 2,000,199 ticks, and the rate limit can follow 3,983,200 in all.
const UNDAMPED: Lines = &[
    (
        "param,pClusterDriftDamping",
        "param,pClusterDriftDamping,0,,",
    ),
    ("param,pRateCorrectionOut", "param,pRateCorrectionOut,84,,"),
];

// Lines of the parameters, what nodes hear, what is known of a double cycle, and what follows where it is judged.
const JUDGED: &[(Lines, Heard, Numbers, Option<Behind>)] = &[
    // The next starts lie apart by the lengths, 2 errors of an arrival and 3 of the longest microticks; the next lengths by
    // 2 errors of 2,000,199 and a microtick. Macroticks lie apart by the starts, twice the lengths and 2 microticks.
    (
        UNDAMPED,
        Heard::Clean,
        (3_520_552, 80_000, 0),
        Some(((4_080_600, 5_000_598, 2_000_199), 5_680_952)),
    ),
    // Macroticks lie apart by the next starts and a microtick, which is more.
    (
        UNDAMPED,
        Heard::Clean,
        (1_520_552, 80_000, 0),
        Some(((4_080_600, 5_000_598, 2_000_199), 5_080_800)),
    ),
    // Lengths that the rate limit can just follow; starts and lengths are halved and rounded down.
    (
        UNDAMPED,
        Heard::Meeting,
        (2_640_552, 80_001, 1_983_001),
        Some(((5_940_977, 5_040_598, 3_983_200), 6_941_177)),
    ),
    (
        UNDAMPED,
        Heard::Meeting,
        (2_640_552, 80_001, 1_983_002),
        None,
    ),
    // Starts that the offset limit can just follow: 253,949,200 less 2 microticks, an error of an arrival, the lengths and
    // 37 of 5,000 parts of them. The next ones lie further apart.
    (
        UNDAMPED,
        Heard::Poor,
        (251_368_208, 80_000, 0),
        Some(((255_528_808, 4_080_398, 2_000_199), 256_529_008)),
    ),
    (UNDAMPED, Heard::Poor, (251_368_209, 80_000, 0), None),
    // What the limits cannot take in at all.
    (UNDAMPED, Heard::Clean, (0, u64::MAX, 0), None),
    // Rates are damped by 4 microticks: lengths come back by 1,999,401, and the rate limit can follow 983,800.
    (
        &[],
        Heard::Clean,
        (0, 0, 983_800),
        Some(((4_000_600, 13_002_198, 0), 5_000_800)),
    ),
    (&[], Heard::Clean, (0, 0, 983_801), None),
];

fn known_of(numbers: Numbers) -> Known {
    let (starts, lengths, beyond) = numbers;
    Known {
        spread: Spread { starts, lengths },
        beyond,
    }
}

fn numbers_of(known: Known) -> Numbers {
    (known.spread.starts, known.spread.lengths, known.beyond)
}

// What follows from one that is judged.
fn behind(params: &Params, what: Heard, known: Known) -> Option<Behind> {
    let flutter = Flutter(FLUTTER);
    if !is_judged(params, flutter, known) {
        return None;
    }
    let next = known_after(params, what, flutter, known);
    let apart = apart_through(params, what, flutter, known);
    Some((numbers_of(next), apart))
}

// The same over a cluster with these lines; none where they are refused.
fn behind_in(alloc: Global, lines: Lines, what: Heard, numbers: Numbers) -> Option<Option<Behind>> {
    match params_of(alloc, lines, TWO_ON_A) {
        Ok(params) => Some(behind(&params, what, known_of(numbers))),
        Err(_) => None,
    }
}

#[test]
fn numbers_are_judged_and_lead_to_the_next(rt: HostRuntime) {
    for (lines, what, numbers, wanted) in JUDGED {
        assert!(rt; behind_in(rt.alloc(), lines, *what, *numbers) == Some(*wanted));
    }
}

// What is known of a double cycle by the one before it, what is seen of it, and both.
const MET: &[(Option<Numbers>, Option<Numbers>, Option<Numbers>)] = &[
    (None, None, None),
    (Some((5, 6, 7)), None, Some((5, 6, 7))),
    (None, Some((8, 3, 1)), Some((8, 3, 1))),
    (Some((5, 6, 7)), Some((8, 3, 1)), Some((5, 3, 1))),
    (Some((9, 2, 0)), Some((8, 3, 1)), Some((8, 2, 0))),
];

fn known_by(numbers: Option<Numbers>) -> Option<Known> {
    match numbers {
        None => None,
        Some(numbers) => Some(known_of(numbers)),
    }
}

#[test]
fn the_lesser_of_each_two_numbers_is_known(rt: HostRuntime) {
    for (known, seen, both) in MET {
        assert!(rt; met_with(known_by(*known), known_by(*seen)) == known_by(*both));
    }
}
