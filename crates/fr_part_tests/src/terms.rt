// From the deviations of a double cycle to its terms and the state: the table, the midpoint, both terms, the control.
use fr_base::Channel::{A, B};
use fr_base::Outcome::{Exceeded, Missing, Within};
use fr_base::State::{Active, Halt, Passive};
use fr_base::{Channel, Outcome, State};
use fr_correct::{Term, offset_term, rate_term};
use fr_measure::Table;
use fr_midpoint::{List15, midpoint};
use fr_poc::{Poc, PocLimits};

fn list_of(values: &[i32]) -> List15 {
    let mut list = List15::new();
    for value in values {
        if list.len() < 15 {
            list.push((*value).clamp(-2_000_000, 2_000_000));
        }
    }
    list
}

fn middle_of(values: &[i32]) -> Option<i32> {
    midpoint(&mut list_of(values))
}

const MIDPOINTS: &[(&[i32], Option<i32>)] = &[
    (&[], None),
    (&[5], Some(5)),
    (&[-3, 4], Some(0)),
    (&[-4, -3], Some(-3)),
    (&[-9, 1, 30], Some(1)),
    (&[-50, -40, 1, 2, 3, 4, 60, 70], Some(2)),
    (&[0, 0, 0, 0, 0, 0, 100], Some(0)),
    (&[0, 0, 0, 0, 0, 0, 100, -100], Some(0)),
    // what two receivers hear of seven senders, of which the last is late to one and early to the other
    (&[-190, -1, 1, -1, -1, 2, 1000], Some(0)),
    (&[-191, 0, 1, 0, -1, 2, -1000], Some(-95)),
];

// A deviation that is stored: the place of its sync node, whether in the odd cycle, the channel, and the value. Where no
// channel is given the table is cleared.
type Stored = (usize, bool, Option<Channel>, i32);

fn table_of(stored: &[Stored]) -> Table {
    let mut table = Table::new();
    for (place, odd, channel, value) in stored {
        match channel {
            Some(channel) => {
                if *place < 15 {
                    table.store(
                        *place,
                        *odd,
                        *channel,
                        (*value).clamp(-1_000_000, 1_000_000),
                    );
                }
            }
            None => table.clear(),
        }
    }
    table
}

// The deviation of sync node 3 in the odd cycle on channel B; how many offset values there are, and their midpoint; and
// the same of the rate values.
type Listed = (Option<i32>, usize, Option<i32>, usize, Option<i32>);

fn listed(stored: &[Stored]) -> Listed {
    let table = table_of(stored);
    let kept = table.get(3, true, B);
    let mut offsets = List15::new();
    table.offset_values(None, &mut offsets);
    let mut rates = List15::new();
    table.rate_values(None, &mut rates);
    let (offset_count, rate_count) = (offsets.len(), rates.len());
    (
        kept,
        offset_count,
        midpoint(&mut offsets),
        rate_count,
        midpoint(&mut rates),
    )
}

const TABLES: &[(&[Stored], Listed)] = &[
    (
        &[(3, true, Some(A), 5), (3, true, Some(B), -7)],
        (Some(-7), 1, Some(-7), 0, None),
    ),
    (
        &[
            (3, true, Some(A), 5),
            (3, true, Some(B), -7),
            (0, false, None, 0),
        ],
        (None, 0, None, 0, None),
    ),
    (
        &[(3, false, Some(A), 1), (3, true, Some(B), 4)],
        (Some(4), 1, Some(4), 0, None),
    ),
    (
        &[
            (3, false, Some(A), 1),
            (3, true, Some(B), 4),
            (3, true, Some(A), 4),
            (3, false, Some(B), 2),
            (3, true, Some(B), -2),
        ],
        (Some(-2), 1, Some(-2), 1, Some(0)),
    ),
];

#[test]
fn values_are_listed_and_halved(rt: HostRuntime) {
    for (values, wanted) in MIDPOINTS {
        assert!(rt; middle_of(values) == *wanted);
    }
    for (stored, wanted) in TABLES {
        assert!(rt; listed(stored) == *wanted);
    }
}

// Values, and the rate term of the old term 0, a damping of 4 and a limit of 81: its value, that before the limit, and
// the outcome.
const RATES: &[(&[i32], i32, i32, Outcome)] = &[
    (&[5], 1, 1, Within),
    (&[4], 0, 0, Within),
    (&[-5], -1, -1, Within),
    (&[86], 81, 82, Exceeded),
    (&[], 0, 0, Missing),
];

// The outcome of an offset term, and the state after it.
type Step = (Outcome, State);

// Four such steps in a row, and the counts of bad and good double cycles. All rates are within their limits.
const STEPS: &[(&[Step], u8, u8)] = &[
    (
        &[
            (Missing, Active),
            (Missing, Passive),
            (Within, Passive),
            (Within, Active),
        ],
        0,
        0,
    ),
    (
        &[
            (Missing, Active),
            (Missing, Passive),
            (Missing, Passive),
            (Missing, Halt),
        ],
        4,
        0,
    ),
    (
        &[
            (Missing, Active),
            (Missing, Passive),
            (Missing, Passive),
            (Within, Passive),
        ],
        0,
        1,
    ),
    (
        &[
            (Exceeded, Halt),
            (Within, Halt),
            (Missing, Halt),
            (Within, Halt),
        ],
        0,
        0,
    ),
];

// Whether each state is answered, and then asked for, and the counts are these.
fn is_stepped(steps: &[Step], bad: u8, good: u8) -> bool {
    let mut poc = Poc::new(PocLimits {
        passive: 2,
        fatal: 4,
        halt_allowed: true,
        to_active: 2,
    });
    let mut same = true;
    for (outcome, state) in steps {
        same = poc.step(*outcome, Within) == *state && poc.state() == *state && same;
    }
    same && poc.bad() == bad && poc.good() == good
}

// Whether the rate term of these values is so.
fn is_rate(values: &[i32], value: i32, before: i32, outcome: Outcome) -> bool {
    let wanted = Term {
        value,
        before,
        outcome,
    };
    rate_term(0, 4, 81, &mut list_of(values)) == wanted
}

fn is_cut() -> bool {
    let wanted = Term {
        value: -316,
        before: -400,
        outcome: Exceeded,
    };
    offset_term(316, &mut list_of(&[-400])) == wanted
}

#[test]
fn terms_and_states_are_those_of_the_rows(rt: HostRuntime) {
    for (values, value, before, outcome) in RATES {
        assert!(rt; is_rate(values, *value, *before, *outcome));
    }
    assert!(rt; is_cut());
    for (steps, bad, good) in STEPS {
        assert!(rt; is_stepped(steps, *bad, *good));
    }
}

// A position in ticks, and its values at a receiver with base 300 and a microtick of 1,000,100 ticks and at one
// with base -700 and a microtick of 999,900, each rounded down.
const PLACED: &[(i32, i32, i32)] = &[
    (-190_000_000, -190, -191),
    (3, -1, 0),
    (1_700_000, 1, 1),
    (0, -1, 0),
    (-900_001, -1, -1),
    (2_400_000, 2, 2),
];

fn places(one: i32, other: i32) -> [i64; 2] {
    [300 + one as i64 * 1_000_100, -700 + other as i64 * 999_900]
}

// Whether both places lie at a position, or before it by no more than the law of two receivers allows for.
fn are_near(position: i32, places: [i64; 2]) -> bool {
    let position = position as i64;
    let [one, other] = places;
    position - 1_000_200 <= one.min(other) && one.max(other) <= position
}

// A seventh sender is late to one receiver and early to the other, so that one discards the position that lies
// far off and the other keeps it: their midpoints are the last two above. The places of these lie nearly half of the
// spread apart, and no further than the law of two receivers says.
fn is_near_law() -> bool {
    let (spread, before, longest): (i64, i64, i64) = (192_400_000, 1_000_200, 1_000_200);
    let most = spread + 2 * before + 2 * longest;
    let (place, other): (i64, i64) = (300, -700 - 95 * 999_900);
    let apart = 2 * (place - other);
    apart == 189_983_000
        && apart <= most
        && most == 196_400_800
        && -190_000_000 - before <= place.min(other)
        && place.max(other) <= 2_400_000
}

#[test]
fn two_receivers_agree(rt: HostRuntime) {
    for (position, one, other) in PLACED {
        assert!(rt; are_near(*position, places(*one, *other)));
    }
    assert!(rt; is_near_law());
}
