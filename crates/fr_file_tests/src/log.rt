// The reader of logs: what is read through each question, and which files are refused, for which cause.
use crate::faults::first_other;
use crate::params::params_of;
use fr_base::{Channel, Reason};
use fr_cluster::Params;
use fr_log::{Entry, EntryKind, Log, LogFault, LogFile, read};
use fr_samples::node;
use fr_text::{FileKind, Shown};
use std::alloc::{AllocError, Global};
use std::test::Fail;

// Node 1 on channel A, nodes 2 and 4 on both, with key slots, and node 3 on both without one.
const NODES: &str = "node,1,1,A,1\nnode,2,2,AB,1\nnode,3,,AB,0\nnode,4,4,AB,1\n";

// All that a log can say; its last two stamps are at the last tick that there is.
const FULL: &str = "\
drift,50,,,\n\
unit,40000,,,\n\
error,250000,,,\n\
jitter,900,,,\n\
lost,14,,,\n\
flutter,1000000000,,,\n\
since,6,,,\n\
whole,,,,\n\
arbitrary,4,,,\n\
delay,2,B,3000,3500\n\
delay,,,500,9000\n\
delay,1,A,100,2000\n\
frame,0,A,00fF7a,\n\
head,22500000000000,B,,\n\
frame,22500000000000,A,10,\n\
";

// No more than a log has to say: nothing of the delays of node 3.
const SHORT: &str = "\
unit,1,,,\n\
drift,0,,,\n\
delay,1,A,0,0\n\
delay,2,A,5,5\n\
delay,2,B,0,1000000000\n\
delay,4,A,1,3\n\
delay,4,B,2,3\n\
";

// A log, its unit in ticks, its drift in parts per million, its error in ticks, the cycle in whose double cycle the cluster is in
// sync, whether no frame was missed, and how many frames came.
const HEADS: &[(&str, u64, u64, u64, Option<u32>, bool, usize)] = &[
    (FULL, 40_000, 50, 250_000, Some(6), true, 3),
    (SHORT, 1, 0, 0, None, false, 0),
];

// A log, how far delays differ between both cycles of a double cycle, where it says it, and how many frames a node may miss.
const STEADY: &[(&str, Option<u64>, u64)] = &[(FULL, Some(1_000_000_000), 14), (SHORT, None, 0)];

// A log, a node, and whether it is named arbitrary.
const NAMED: &[(&str, u8, bool)] = &[
    (FULL, 4, true),
    (FULL, 3, false),
    (FULL, 64, false),
    (SHORT, 4, false),
];

// A log, a node, a channel, and the least and the greatest delay there and how much two delays differ, in ticks.
const LIMITS: &[(&str, u8, Channel, Option<(u64, u64, u64)>)] = &[
    (FULL, 1, Channel::A, Some((100, 2000, 900))),
    (FULL, 1, Channel::B, Some((500, 9000, 900))),
    (FULL, 2, Channel::A, Some((500, 9000, 900))),
    (FULL, 2, Channel::B, Some((3000, 3500, 500))),
    (FULL, 64, Channel::B, Some((500, 9000, 900))),
    (SHORT, 1, Channel::A, Some((0, 0, 0))),
    (SHORT, 1, Channel::B, None),
    (
        SHORT,
        2,
        Channel::B,
        Some((0, 1_000_000_000, 1_000_000_000)),
    ),
    (SHORT, 4, Channel::A, Some((1, 3, 2))),
    (SHORT, 4, Channel::B, Some((2, 3, 1))),
    (SHORT, 3, Channel::A, None),
];

// The frames of the first log: what it has of each, its stamp, its channel and its bytes.
const ENTRIES: &[(EntryKind, u64, Channel, &[u8])] = &[
    (EntryKind::Frame, 0, Channel::A, &[0, 255, 122]),
    (EntryKind::Head, 22_500_000_000_000, Channel::B, &[]),
    (EntryKind::Frame, 22_500_000_000_000, Channel::A, &[16]),
];

// A file, the number of its first record that is refused, and the least reason.
const REFUSED: &[(&str, u64, Reason)] = &[
    ("unit,1,,\n", 1, Reason::Shape),
    ("unit,1,,,,\n", 1, Reason::Shape),
    ("unit,0,A,,\n", 1, Reason::Shape),
    ("drift,0,,,1\n", 1, Reason::Shape),
    ("flutter,0,,1,\n", 1, Reason::Shape),
    ("lost,0,0,,\n", 1, Reason::Shape),
    ("whole,1,,,\n", 1, Reason::Shape),
    ("arbitrary,9,,1,\n", 1, Reason::Shape),
    ("delay,1,,0,1\n", 1, Reason::Shape),
    ("delay,,A,0,1\n", 1, Reason::Shape),
    ("frame,0,A,00,1\n", 1, Reason::Shape),
    ("unit,1,,,\nunits,1,,,\n", 2, Reason::UnknownName),
    ("Head,0,A,00,\n", 1, Reason::UnknownName),
    ("Lost,0,,,\n", 1, Reason::UnknownName),
    ("unit,,,,\n", 1, Reason::NotNumber),
    ("flutter,,,,\n", 1, Reason::NotNumber),
    ("lost,1x,,,\n", 1, Reason::NotNumber),
    ("arbitrary,A,,,\n", 1, Reason::NotNumber),
    ("delay,0,A,x,1\n", 1, Reason::NotNumber),
    ("delay,,,0,\n", 1, Reason::NotNumber),
    ("frame,x,A,00,\n", 1, Reason::NotNumber),
    ("unit,0,,,\n", 1, Reason::OutOfRange),
    ("unit,1000000001,,,\n", 1, Reason::OutOfRange),
    ("drift,1001,,,\n", 1, Reason::OutOfRange),
    ("error,1000000001,,,\n", 1, Reason::OutOfRange),
    ("jitter,1000000001,,,\n", 1, Reason::OutOfRange),
    ("since,199999,,,\n", 1, Reason::OutOfRange),
    ("flutter,1000000001,,,\n", 1, Reason::OutOfRange),
    ("lost,15,,,\n", 1, Reason::OutOfRange),
    ("lost,-1,,,\n", 1, Reason::OutOfRange),
    ("arbitrary,65,,,\n", 1, Reason::OutOfRange),
    ("delay,0,C,0,1\n", 1, Reason::OutOfRange),
    ("delay,1,A,0,1000000001\n", 1, Reason::OutOfRange),
    ("frame,900000000000000001,A,00,\n", 1, Reason::OutOfRange),
    (
        "unit,40000,,,\nhead,22500000000001,C,00,\n",
        2,
        Reason::OutOfRange,
    ),
    (
        "unit,1000000000,,,\nframe,900000000000000000,A,00,\n",
        2,
        Reason::OutOfRange,
    ),
    ("arbitrary,9,,,\n", 1, Reason::UnknownNode),
    ("delay,9,C,0,1\n", 1, Reason::UnknownNode),
    ("delay,1,C,1,0\n", 1, Reason::BadChannel),
    ("frame,0,AB,0,\n", 1, Reason::BadChannel),
    ("since,5,,,\n", 1, Reason::Role),
    ("arbitrary,3,,,\n", 1, Reason::Role),
    ("delay,1,B,1,0\n", 1, Reason::Role),
    ("delay,,,1,0\n", 1, Reason::Role),
    ("frame,0,A,0,\n", 1, Reason::Role),
    ("unit,1,,,\nframe,1,A,,\nhead,0,B,0,\n", 3, Reason::Role),
    ("unit,1,,,\nframe,1,A,,\nunit,1,,,\n", 3, Reason::Role),
    ("unit,1,,,\nhead,1,A,,\nwhole,,,,\n", 3, Reason::Role),
    ("unit,1,,,\nhead,1,A,,\nflutter,0,,,\n", 3, Reason::Role),
    ("unit,1,,,\nhead,1,A,,\nlost,0,,,\n", 3, Reason::Role),
    ("unit,1,,,\nframe,1,A,,\narbitrary,4,,,\n", 3, Reason::Role),
    ("unit,1,,,\nframe,1,A,,\ndelay,1,B,0,1\n", 3, Reason::Role),
    ("unit,1,,,\nframe,1,A,,\ndelay,,,0,1\n", 3, Reason::Role),
    ("delay,1,B,0,1\n", 1, Reason::Link),
    ("unit,1,,,\nframe,0,A,0,\n", 2, Reason::NotHex),
    ("unit,1,,,\nhead,0,B,0g,\n", 2, Reason::NotHex),
    ("unit,1,,,\nunit,2,,,\n", 2, Reason::Repeated),
    (
        "flutter,5,,,\nlost,5,,,\nflutter,5,,,\n",
        3,
        Reason::Repeated,
    ),
    ("lost,1,,,\nlost,2,,,\n", 2, Reason::Repeated),
    ("whole,,,,\nwhole,,,,\n", 2, Reason::Repeated),
    ("arbitrary,4,,,\narbitrary,4,,,\n", 2, Reason::Repeated),
    ("delay,2,B,0,1\ndelay,2,B,0,2\n", 2, Reason::Repeated),
    ("delay,,,0,1\ndelay,,,0,1\n", 2, Reason::Repeated),
];

// A file and what no record of it says, if it lacks something.
const LACKING: &[(&str, Option<LogFault>)] = &[
    (FULL, None),
    (SHORT, None),
    ("", Some(LogFault::MissingUnit)),
    ("drift,0,,,\n", Some(LogFault::MissingUnit)),
    ("unit,1,,,\ndelay,,,0,1\n", Some(LogFault::MissingDrift)),
    ("unit,1,,,\ndrift,0,,,\n", Some(LogFault::MissingDelay)),
    (
        "unit,1,,,\ndrift,0,,,\narbitrary,4,,,\ndelay,2,A,0,1\ndelay,2,B,0,1\n",
        Some(LogFault::MissingDelay),
    ),
    (
        "unit,1,,,\ndrift,0,,,\narbitrary,4,,,\ndelay,1,A,0,1\ndelay,2,A,0,1\n",
        Some(LogFault::MissingDelay),
    ),
    (
        "unit,1,,,\ndrift,0,,,\narbitrary,4,,,\ndelay,1,A,0,1\ndelay,2,B,0,1\ndelay,2,A,0,1\n",
        None,
    ),
];

// So many bytes of one frame, and whether they are refused.
const LONG: &[(usize, Option<LogFault>)] = &[
    (262, None),
    (
        263,
        Some(LogFault::Row {
            number: 4,
            reason: Reason::OutOfRange,
        }),
    ),
];

// A cause, its line, and whether it is want of memory.
const LINES: &[(LogFault, &[u8], bool)] = &[
    (
        LogFault::Row {
            number: 70_000,
            reason: Reason::Link,
        },
        b"log: record 70000: Link\n",
        false,
    ),
    (LogFault::MissingUnit, b"log: missing unit\n", false),
    (LogFault::MissingDrift, b"log: missing drift\n", false),
    (LogFault::MissingDelay, b"log: missing delay\n", false),
    (LogFault::NoMemory, b"log: no memory\n", true),
];

const TEXTS: &[(LogFault, &str)] = &[
    (
        LogFault::Row {
            number: 3,
            reason: Reason::NotHex,
        },
        "record 3 is refused: NotHex",
    ),
    (LogFault::MissingUnit, "unit is missing"),
    (LogFault::MissingDrift, "drift is missing"),
    (LogFault::MissingDelay, "delay is missing"),
    (LogFault::NoMemory, "out of memory"),
];

fn log_of(alloc: Global, params: &Params, text: &str) -> Result<Log, Fail> {
    match read(alloc, params, text.as_bytes()) {
        Ok(log) => Ok(log),
        Err(_) => Err(Fail::new("no log")),
    }
}

// Why a file is refused, if it is.
fn fault_of(alloc: Global, params: &Params, text: &str) -> Option<LogFault> {
    match read(alloc, params, text.as_bytes()) {
        Ok(_) => None,
        Err(fault) => Some(fault),
    }
}

fn head_of(log: &Log) -> (u64, u64, u64) {
    (log.unit(), log.drift(), log.error())
}

fn limits_of(log: &Log, number: u8, channel: Channel) -> Option<(u64, u64, u64)> {
    let node = node(number)?;
    let limits = log.limits_of(node, channel)?;
    Some((limits.low, limits.high, log.jitter_of(node, channel)?))
}

fn is_named(log: &Log, number: u8) -> Option<bool> {
    Some(log.is_arbitrary(node(number)?))
}

fn is_entry(entry: &Entry, kind: EntryKind, stamp: u64, channel: Channel, bytes: &[u8]) -> bool {
    entry.kind == kind
        && entry.stamp == stamp
        && entry.channel == channel
        && entry.bytes.as_slice() == bytes
}

// The place of the first row of which a log says otherwise.
fn first_head(alloc: Global, params: &Params) -> Result<Option<usize>, Fail> {
    for (place, (text, unit, drift, error, since, whole, entries)) in HEADS.iter().enumerate() {
        let log = log_of(alloc, params, text)?;
        if head_of(&log) != (*unit, *drift, *error)
            || log.since() != *since
            || log.is_whole() != *whole
            || log.entries().len() != *entries
        {
            return Ok(Some(place));
        }
    }
    Ok(None)
}

fn first_steady(alloc: Global, params: &Params) -> Result<Option<usize>, Fail> {
    for (place, (text, flutter, lost)) in STEADY.iter().enumerate() {
        let log = log_of(alloc, params, text)?;
        if log.flutter() != *flutter || log.lost() != *lost {
            return Ok(Some(place));
        }
    }
    Ok(None)
}

fn first_named(alloc: Global, params: &Params) -> Result<Option<usize>, Fail> {
    for (place, (text, number, named)) in NAMED.iter().enumerate() {
        if is_named(&log_of(alloc, params, text)?, *number) != Some(*named) {
            return Ok(Some(place));
        }
    }
    Ok(None)
}

fn first_limits(alloc: Global, params: &Params) -> Result<Option<usize>, Fail> {
    for (place, (text, number, channel, limits)) in LIMITS.iter().enumerate() {
        if limits_of(&log_of(alloc, params, text)?, *number, *channel) != *limits {
            return Ok(Some(place));
        }
    }
    Ok(None)
}

fn first_entry(log: &Log) -> Option<usize> {
    for (place, (kind, stamp, channel, bytes)) in ENTRIES.iter().enumerate() {
        match log.entries().get(place) {
            Some(entry) => {
                if !is_entry(entry, *kind, *stamp, *channel, bytes) {
                    return Some(place);
                }
            }
            None => return Some(place),
        }
    }
    None
}

// The place of the first file that has another fault.
fn first_refused(alloc: Global, params: &Params) -> Option<usize> {
    for (place, (text, number, reason)) in REFUSED.iter().enumerate() {
        let fault = LogFault::Row {
            number: *number,
            reason: *reason,
        };
        if fault_of(alloc, params, text) != Some(fault) {
            return Some(place);
        }
    }
    None
}

fn first_lacking(alloc: Global, params: &Params) -> Option<usize> {
    for (place, (text, fault)) in LACKING.iter().enumerate() {
        if fault_of(alloc, params, text) != *fault {
            return Some(place);
        }
    }
    None
}

// A log of one frame of so many bytes.
fn long_log(alloc: Global, bytes: usize) -> Result<String, AllocError> {
    let mut text = String::new(alloc);
    text.push_str("unit,1,,,\ndrift,0,,,\ndelay,,,0,1\nframe,0,A,")?;
    for _ in 0..bytes {
        text.push_str("6F")?;
    }
    text.push_str(",\n")?;
    Ok(text)
}

fn first_long(alloc: Global, params: &Params) -> Result<Option<usize>, AllocError> {
    for (place, (bytes, fault)) in LONG.iter().enumerate() {
        let text = long_log(alloc, *bytes)?;
        if fault_of(alloc, params, text.as_str()) != *fault {
            return Ok(Some(place));
        }
    }
    Ok(None)
}

fn first_line(params: &Params) -> Option<usize> {
    let kind = LogFile { params };
    for (place, (fault, line, no_memory)) in LINES.iter().enumerate() {
        if fault.line(LogFault::called()).bytes() != *line
            || kind.is_no_memory(fault) != *no_memory
        {
            return Some(place);
        }
    }
    None
}

#[test]
fn answers_what_the_file_says(rt: HostRuntime) -> Result<(), Fail> {
    let params = params_of(rt.alloc(), &[], NODES, &[])?;
    assert_eq!(rt; first_head(rt.alloc(), &params)?, None);
    assert_eq!(rt; first_steady(rt.alloc(), &params)?, None);
    assert_eq!(rt; first_named(rt.alloc(), &params)?, None);
    assert_eq!(rt; first_limits(rt.alloc(), &params)?, None);
    assert_eq!(rt; first_entry(&log_of(rt.alloc(), &params, FULL)?), None);
    Ok(())
}

#[test]
fn refuses_for_the_first_cause(rt: HostRuntime) -> Result<(), Fail> {
    let params = params_of(rt.alloc(), &[], NODES, &[])?;
    assert_eq!(rt; first_refused(rt.alloc(), &params), None);
    assert_eq!(rt; first_lacking(rt.alloc(), &params), None);
    assert_eq!(rt; first_long(rt.alloc(), &params)?, None);
    Ok(())
}

#[test]
fn faults_say_what_they_are(rt: HostRuntime) -> Result<(), Fail> {
    let params = params_of(rt.alloc(), &[], NODES, &[])?;
    assert_eq!(rt; first_line(&params), None);
    assert_eq!(rt; first_other(rt.alloc(), TEXTS)?, None);
    Ok(())
}
