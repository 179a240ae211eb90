// The lines that are told of a run and of a recorded trace alike.
use fr_coverage::{precision_line, skew_line, sync_line};
use std::test::Fail;

const PRECISIONS: &[(u64, &[u8])] = &[
    (0, b"precision 0\n"),
    (252_043_600, b"precision 252043600\n"),
];

const SYNCS: &[(Option<u32>, &[u8])] = &[
    (None, b"in sync never\n"),
    (Some(0), b"in sync 0\n"),
    (Some(99_999), b"in sync 99999\n"),
];

// A skew in ticks, with its cycle and its macrotick.
const SKEWS: &[(i64, u32, i64, &[u8])] = &[
    (0, 0, 0, b"greatest skew 0 cycle 0 macrotick 0\n"),
    (
        79_200_000,
        199_999,
        4900,
        b"greatest skew 79200000 cycle 199999 macrotick 4900\n",
    ),
];

// The place of the first line that is another one.
fn first_precision() -> Option<usize> {
    for (place, (precision, line)) in PRECISIONS.iter().enumerate() {
        if precision_line(*precision).bytes() != *line {
            return Some(place);
        }
    }
    None
}

fn first_sync() -> Option<usize> {
    for (place, (synced, line)) in SYNCS.iter().enumerate() {
        if sync_line(*synced).bytes() != *line {
            return Some(place);
        }
    }
    None
}

fn first_skew() -> Option<usize> {
    for (place, (skew, cycle, macrotick, line)) in SKEWS.iter().enumerate() {
        if skew_line(*skew, *cycle, *macrotick).bytes() != *line {
            return Some(place);
        }
    }
    None
}

#[test]
fn lines_say_what_is_told(rt: HostRuntime) -> Result<(), Fail> {
    assert_eq!(rt; first_precision(), None);
    assert_eq!(rt; first_sync(), None);
    assert_eq!(rt; first_skew(), None);
    Ok(())
}
