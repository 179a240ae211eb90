// The second program's answers.
use crate::answers::{CALM, CLUSTER, LONG_IDLE};
use crate::calls::File::{Bytes, Params, Text, TooLong};
use crate::calls::{Faults, File, Lines, NONE, Program, Row, first_unfailing};
use fr_answer::Status;
use fr_answer::Status::{Done, ReadFault, Refused, Usage, WriteFault};
use fr_samples::{APART, TWO_ON_A};
use std::test::Fail;

pub(crate) const SERIES: &[&str] = &["p", "d", "s"];

pub(crate) const SHARP_SERIES: &[&str] = &["p", "d", "s", "sharp"];

const FAR: File = Text("d", APART, &[]);

pub(crate) const APART_FILES: &[File] = &[CLUSTER, FAR, CALM];

// An oscillator that is 1,500 parts in a million slower from cycle 2 on: 60,000 ticks a macrotick, so that macrotick
// 4,201 is the first to lie further apart than the precision, 252,043,600 ticks, and macrotick 651 than the sharper one,
// 39,007,594 ticks. From cycle 4 on node 2 is halted.
const LATE_FILES: &[File] = &[
    CLUSTER,
    Bytes(
        "d",
        b"doubles,3,,,,\nlength,1,0,1000000,,\nlength,1,2,1001500,,\n",
    ),
    CALM,
];

// The same from cycle 0 on: never in sync.
const NEVER_FILES: &[File] = &[
    CLUSTER,
    Bytes("d", b"doubles,2,,,,\nlength,1,0,1001500,,\n"),
    CALM,
];

// A rate limit that is a microtick too small for the second check: lengths do not walk, and yet sharp sync lasts for no
// double cycle.
const TIGHT: Lines = &[("param,pRateCorrectionOut", "param,pRateCorrectionOut,80,,")];

pub(crate) const HELD_FILES: &[File] = &[
    Params(TIGHT, TWO_ON_A),
    Bytes("d", b"doubles,1,,,,\n"),
    CALM,
];

pub(crate) const HELD_FOR_NONE: &str = "\
cycle,in_sync,skew,macrotick,sharp,heard,bound\n\
0,yes,0,0,yes,all,-\n\
1,yes,0,0,yes,all,-\n\
greatest,0,0,0,\n\
synced,yes,,,\n\
within,yes,,,\n\
flutter,0,,,\n\
sharp,39007594,alone,,\n\
sharp covered,no,,,check 2 79984000 80000000\n\
sharp synced,0,0,,\n\
sharp greatest,0,0,0,\n\
sharp within,yes,,,\n\
lost,0,-,-,-\n\
";

pub(crate) const APART_SERIES: &str = "\
cycle,in_sync,skew,macrotick\n\
0,no,39992000,4999\n\
1,no,79200000,4900\n\
2,yes,48991900,4999\n\
3,yes,56495900,4687\n\
greatest,56495900,3,4687\n\
synced,yes,,\n\
within,yes,,\n\
";

const USAGE: &str = "usage: flexray-series PARAMS DRIFT SCRIPT\n";

// What fails, and the answer: a series is written line by line.
const ANSWERS: &[(Faults, Row)] = &[
    (
        NONE,
        (
            SERIES,
            LATE_FILES,
            Done,
            "\
cycle,in_sync,skew,macrotick\n\
0,yes,0,0\n\
1,yes,0,0\n\
2,no,299940000,4999\n\
3,no,594000000,4900\n\
4,no,0,0\n\
5,no,0,0\n\
greatest,594000000,3,4900\n\
synced,no,1,\n\
within,no,2,4201\n\
",
            "",
        ),
    ),
    (
        NONE,
        (
            SERIES,
            NEVER_FILES,
            Done,
            "\
cycle,in_sync,skew,macrotick\n\
0,no,299940000,4999\n\
1,no,594000000,4900\n\
2,no,0,0\n\
3,no,0,0\n\
greatest,-,-,-\n\
synced,no,0,\n\
within,-,,\n\
",
            "",
        ),
    ),
    (
        NONE,
        (
            SHARP_SERIES,
            LATE_FILES,
            Done,
            "\
cycle,in_sync,skew,macrotick,sharp,heard,bound\n\
0,yes,0,0,yes,all,-\n\
1,yes,0,0,yes,all,-\n\
2,no,299940000,4999,no,all,-\n\
3,no,594000000,4900,no,all,-\n\
4,no,0,0,no,all,-\n\
5,no,0,0,no,all,-\n\
greatest,594000000,3,4900,\n\
synced,no,1,,\n\
within,no,2,4201,\n\
flutter,0,,,\n\
sharp,39007594,alone,,\n\
sharp covered,no,,,length 1 2 1001500\n\
sharp synced,0,on,,\n\
sharp greatest,594000000,3,4900,\n\
sharp within,no,2,651,\n\
lost,0,-,-,-\n\
",
            "",
        ),
    ),
    (
        (0, 14, 2),
        (
            SHARP_SERIES,
            APART_FILES,
            WriteFault,
            "\
cycle,in_sync,skew,macrotick,sharp,heard,bound\n\
0,no,39992000,4999,no,all,-\n\
1,no,79200000,4900,no,all,-\n\
2,yes,48991900,4999,no,all,-\n\
3,yes,56495900,4687,no,all,-\n\
greatest,56495900,3,4687,\n\
synced,yes,,,\n\
within,yes,,,\n\
flutter,0,,,\n\
sharp,39007594,alone,,\n\
sharp covered,yes,,,\n\
sharp synced,-,,,\n\
sharp greatest,-,-,-,\n\
",
            "write fault\n",
        ),
    ),
    (
        (1, 1, 2),
        (SERIES, APART_FILES, ReadFault, "", "params: read fault\n"),
    ),
    (
        (2, 1, 2),
        (SERIES, APART_FILES, ReadFault, "", "drift: read fault\n"),
    ),
    (
        (3, 1, 2),
        (SERIES, APART_FILES, ReadFault, "", "script: read fault\n"),
    ),
    (
        (3, 1, 2),
        (
            SHARP_SERIES,
            APART_FILES,
            ReadFault,
            "",
            "script: read fault\n",
        ),
    ),
    (
        NONE,
        (
            SERIES,
            &[Params(LONG_IDLE, TWO_ON_A), FAR, CALM],
            Refused,
            "",
            "params: constraint 1\n",
        ),
    ),
    (
        NONE,
        (
            SERIES,
            &[CLUSTER, Bytes("d", b""), CALM],
            Refused,
            "",
            "drift: missing doubles\n",
        ),
    ),
    (
        NONE,
        (
            SHARP_SERIES,
            &[CLUSTER, FAR, Bytes("s", b"say,0,1,2,A,0,\n")],
            Refused,
            "",
            "script: record 1: Role\n",
        ),
    ),
    (
        NONE,
        (
            SHARP_SERIES,
            &[TooLong("p")],
            Status::TooLong,
            "",
            "params: too long\n",
        ),
    ),
    (
        NONE,
        (
            SERIES,
            &[CLUSTER, FAR, TooLong("s")],
            Status::TooLong,
            "",
            "script: too long\n",
        ),
    ),
    (NONE, (&["p", "d"], APART_FILES, Usage, "", USAGE)),
    (NONE, (&["p", "d", "s", "t"], APART_FILES, Usage, "", USAGE)),
    (
        NONE,
        (
            &["p", "d", "s", "sharp", "t"],
            APART_FILES,
            Usage,
            "",
            USAGE,
        ),
    ),
    (NONE, (&[], APART_FILES, Usage, "", USAGE)),
];

#[test]
fn series_of_runs_are_written(rt: HostRuntime) -> Result<(), Fail> {
    assert_eq!(rt;
        first_unfailing(rt.alloc(), Program::Series, ANSWERS)?,
        None
    );
    Ok(())
}
