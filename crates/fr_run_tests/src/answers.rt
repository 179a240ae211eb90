// What `flexray` answers: bounds and settling, frames and recordings, runs, traces and their checks, and other words.
// The further rows of each kind are tried over the built program (tools/cases, examples).
use crate::calls::File::{Bytes, Params, Text, TooLong};
use crate::calls::{File, Lines, Row, first_other};
use fr_answer::Status;
use fr_answer::Status::{Done, No, ReadFault, Refused, Usage};
use fr_samples::{LATER, TWO_ON_A, report};
use rand_core::utils::NextWord;
use rand_pcg::Lcg64Xsh32;
use std::test::Fail;

pub(crate) const BOUND: &[&str] = &["bound", "p"];

// The cluster of all tests.
pub(crate) const CLUSTER: File = Params(&[], TWO_ON_A);

pub(crate) const BOUNDS: &str = "\
y1 3000400\n\
lambda 30005200\n\
pi 190032800\n\
precision 252043600\n\
C1 holds 3999200 3000400\n\
C2 holds 80983800 80000000\n\
C3 holds 253949200 253543800\n\
C4 holds 1394154113400 1262718000000\n\
C5 holds 4592218372600 1262718000000\n\
";

pub(crate) const BOUND_JOIN: &[&str] = &["bound", "p", "join"];

pub(crate) const JOIN_BOUNDS: &str = "\
y1 3000400\n\
lambda 30005200\n\
pi 190032800\n\
precision 252043600\n\
C1 holds 3999200 3000400\n\
C2 holds 80983800 80000000\n\
C3 holds 253949200 253543800\n\
C4 holds 1394154113400 1262718000000\n\
C5 holds 4592218372600 1262718000000\n\
reach 452077600\n\
C6 fails 80983800 83000400\n\
C7 fails 253949200 453577800\n\
C8 fails 1394154113400 2262888000000\n\
C9 holds 4592218372600 2262888000000\n\
";

pub(crate) const LONG_IDLE: Lines = &[("param,gdNIT", "param,gdNIT,801,,")];

const BOUND_ROWS: &[Row] = &[
    (
        &["settle", "p", "190438201", "30005200"],
        &[CLUSTER],
        Done,
        "start 190438201 rate 30005200\npeak 252449001\nsettles no check 3 253949200 253949201\n",
        "",
    ),
    (
        BOUND,
        &[Params(LONG_IDLE, TWO_ON_A)],
        Refused,
        "",
        "params: constraint 1\n",
    ),
    (
        BOUND,
        &[Params(&[], "node,1,1,A,1\nnode,2,,A,1\n")],
        Refused,
        "",
        "params: record 21: Role\n",
    ),
    (
        BOUND_JOIN,
        &[Params(LONG_IDLE, TWO_ON_A)],
        Refused,
        "",
        "params: constraint 1\n",
    ),
    (BOUND, &[], ReadFault, "", "params: read fault\n"),
    (
        BOUND,
        &[TooLong("p")],
        Status::TooLong,
        "",
        "params: too long\n",
    ),
];

pub(crate) const SYNC: &[u8] = b"\x18\x01\x00\x6F\x00\x9A\xE5\x25";

pub(crate) const LINE: &str =
    "frame A id 1 words 0 cycle 0 reserved 0 preamble 0 null 0 sync 1 startup 1 header 1BC crc 9AE525 payload -\n";

const WORD: &[u8] = b"\x20\x05\x02\xB3\x89\x12\x34\x75\x12\x6B";

const WORD_LINE: &str =
    "frame A id 5 words 1 cycle 9 reserved 0 preamble 0 null 1 sync 0 startup 0 header 2CE crc 75126B payload 1234\n";

pub(crate) const ON_A: &[&str] = &["frame", "A", "f"];

pub(crate) const ON_B: &[&str] = &["frame", "B", "f"];

const LENGTH: &[u8] = b"\x18\x01\x02\x8E\x40\x00\x00\x00";

const NO_ID: &[u8] = b"\x00\x00\x01\xDA\x80\x5F\xA2\x6B";

const STARTUP: &[u8] = b"\x08\x01\x01\x1F\x80\xF6\xC4\x62";

// Frames, and bytes that are none.
const FRAMES: &[Row] = &[
    (ON_A, &[Bytes("f", SYNC)], Done, LINE, ""),
    (ON_A, &[Bytes("f", WORD)], Done, WORD_LINE, ""),
    (
        ON_B,
        &[Bytes("f", SYNC)],
        No,
        "",
        "frame: frame crc kept 9AE525 computed 716B40\n",
    ),
    (ON_A, &[Bytes("f", b"")], No, "", "frame: short 0\n"),
    (
        ON_A,
        &[Bytes("f", LENGTH)],
        No,
        "",
        "frame: length stated 10 given 8\n",
    ),
    (ON_A, &[Bytes("f", NO_ID)], No, "", "frame: zero id\n"),
    (
        ON_A,
        &[Bytes("f", STARTUP)],
        No,
        "",
        "frame: startup without sync\n",
    ),
];

// A sync frame, a frame of one word, and three bytes.
pub(crate) const TWO: &[u8] =
    b"\x18\x01\x00\x6F\x00\x9A\xE5\x25\x20\x05\x02\xB3\x89\x12\x34\x75\x12\x6B\x18\x01\x00";

pub(crate) const TWO_LINES: &str = "\
at 0 id 1 words 0 cycle 0 crc 9AE525\n\
at 8 id 5 words 1 cycle 9 crc 75126B\n\
frames 2 bytes 18\n\
fault 18 cut needed 8 given 3\n\
";

// A sync frame, and a header that is none.
const ONE: &[u8] = b"\x18\x01\x00\x6F\x00\x9A\xE5\x25\x18\x01\x02\x6F\x00";

const ONE_LINE: &str = "\
at 0 id 1 words 0 cycle 0 crc 9AE525\n\
frames 1 bytes 8\n\
fault 8 header crc kept 1BC computed 239\n\
";

pub(crate) const RECORDED: &[&str] = &["capture", "A", "f"];

const RECORDED_ON_B: &[&str] = &["capture", "B", "f"];

const RECORDINGS: &[Row] = &[
    (RECORDED, &[Bytes("f", ONE)], Done, ONE_LINE, ""),
    (
        RECORDED_ON_B,
        &[Bytes("f", b"")],
        Done,
        "frames 0 bytes 0\nfault none\n",
        "",
    ),
    (
        RECORDED_ON_B,
        &[Bytes("f", TWO)],
        Done,
        "frames 0 bytes 0\nfault 0 frame crc kept 9AE525 computed 716B40\n",
        "",
    ),
    (
        RECORDED,
        &[Bytes("f", LENGTH)],
        Done,
        "frames 0 bytes 0\nfault 0 cut needed 10 given 8\n",
        "",
    ),
    (
        RECORDED,
        &[Bytes("f", NO_ID)],
        Done,
        "frames 0 bytes 0\nfault 0 zero id\n",
        "",
    ),
    (
        RECORDED,
        &[Bytes("f", STARTUP)],
        Done,
        "frames 0 bytes 0\nfault 0 startup without sync\n",
        "",
    ),
];

pub(crate) const RUN: &[&str] = &["run", "p", "d", "s"];

// The drift of a run, and a script in which nothing happens.
pub(crate) const LATE: File = Text("d", LATER, &[]);

pub(crate) const CALM: File = Bytes("s", b"");

// Runs that end before they begin: a drift that is refused, also where the script is not accepted either; a script that
// is refused after two good files, or is too long.
const RUNS: &[Row] = &[
    (
        RUN,
        &[CLUSTER, Bytes("d", b"doubles,1,,,,\nstart,9,0,0,,\n"), CALM],
        Refused,
        "",
        "drift: record 2: UnknownNode\n",
    ),
    (
        RUN,
        &[CLUSTER, Bytes("d", b"x\n"), Bytes("s", b"y\n")],
        Refused,
        "",
        "drift: record 1: Shape\n",
    ),
    (
        RUN,
        &[CLUSTER, LATE, Bytes("s", b"say,0,1,2,A,0,\n")],
        Refused,
        "",
        "script: record 1: Role\n",
    ),
    (
        RUN,
        &[CLUSTER, LATE, TooLong("s")],
        Status::TooLong,
        "",
        "script: too long\n",
    ),
];

pub(crate) const UPGRADE: &[&str] = &["upgrade", "p"];

pub(crate) const UPGRADED: &str = "\
version,2,,,\n\
param,gMacroPerCycle,5000,,\n\
param,pMicroPerCycle,200000,,\n\
param,gNumberOfStaticSlots,140,,\n\
param,gdStaticSlot,30,,\n\
param,gdActionPointOffset,7,,\n\
param,gdNIT,800,,\n\
param,gPayloadLengthStatic,0,,\n\
param,gOffsetCorrectionStart,4900,,\n\
param,gMaxWithoutClockCorrectionPassive,2,,\n\
param,gMaxWithoutClockCorrectionFatal,4,,\n\
param,pAllowHaltDueToClock,1,,\n\
param,pAllowPassiveToActive,2,,\n\
param,pClusterDriftDamping,4,,\n\
param,pOffsetCorrectionOut,254,,\n\
param,pRateCorrectionOut,81,,\n\
param,pDelayCompensationA,0,,\n\
param,pDelayCompensationB,0,,\n\
param,xRateBound,200,,\n\
param,xChangeBound,0,,\n\
param,xDelayError,500000,,\n\
node,1,1,A,1\n\
node,2,2,A,1\n\
";

pub(crate) const COLD: &[&str] = &["cold", "p", "w"];

// Both nodes are switched on at the start.
pub(crate) const POWER: File = Bytes("w", b"cycles,10,\non,1,0\non,2,0\n");

pub(crate) const STARTUP_LINES: &str = "\
coldstart 2 cycles 10\n\
connected yes\n\
lead 1 at 30001\n\
leading 1\n\
";

pub(crate) const NM: &[&str] = &["nm", "2", "v"];

pub(crate) const VECTORS: File = Bytes(
    "v",
    b"9,A,600502b3891234dbef87\n9,A,600602344941801eadbd\n",
);

pub(crate) const VECTOR_LINES: &str = "\
cycle 9 vector 53B4 frames 2\n\
frames 2 ignored 0\n\
";

// What these three answer of files that are not accepted.
const OTHER_FILES: &[Row] = &[
    (
        UPGRADE,
        &[Params(&[], "node,1,1,A,1\nnode,2,,A,1\n")],
        Refused,
        "",
        "params: record 21: Role\n",
    ),
    (
        COLD,
        &[Params(LONG_IDLE, TWO_ON_A), POWER],
        Refused,
        "",
        "params: constraint 1\n",
    ),
    (
        COLD,
        &[CLUSTER, Bytes("w", b"cycles,10,\non,3,0\n")],
        Refused,
        "",
        "power: record 2: UnknownNode\n",
    ),
    (
        COLD,
        &[CLUSTER, Bytes("w", b"")],
        Refused,
        "",
        "power: missing cycles\n",
    ),
    (
        NM,
        &[Bytes("v", b"9,A,6005\n9,A,600\n")],
        Refused,
        "",
        "vectors: record 2: NotHex\n",
    ),
];

// The report of the cluster of seed 7 over one double cycle: the correct nodes send 18 frames a cycle and channel.
pub(crate) const MADE_REPORT: &str = report! {
    [8, 8, 2, 1] 252043600 "yes" "never"
    [129791249, 1, 4900]
    [36, "915C04"]
    [36, "915C04"]
    [153, 0, 0, 0, 0, 0, 240]
    0
    [1, "active", "400044614158", 0, 2]
    [2, "active", "400037877932", 0, "-8"]
    [3, "active", "400033193749", 4, 24]
    [4, "active", "400039539504", "-12", "-30"]
    [5, "active", "400063825425", "-16", "-34"]
    [6, "active", "400005860969", 40, 39]
};

pub(crate) const CHECK: &[&str] = &["check", "p", "t"];

// The drift of a run of two clocks with an offset, over one double cycle, and its trace.
pub(crate) const DRIFT: File = Bytes("d", b"doubles,1,,,,\nstart,2,2500000,0,,\n");

pub(crate) const TRACE: &str = "\
run,1,,,,,,\n\
cycle,0,1,0,1000000,0,0,active\n\
dev,0,1,2,A,2,,\n\
cycle,0,2,2500000,1000000,0,0,active\n\
dev,0,2,1,A,-3,,\n\
cycle,1,1,200000000000,1000000,0,1,active\n\
dev,1,1,2,A,2,,\n\
cycle,1,2,200002500000,1000000,0,-1,active\n\
dev,1,2,1,A,-3,,\n\
";

pub(crate) const VERDICT: &str = "\
trace nodes 2 arbitrary 0 doubles 1\n\
precision 252043600\n\
in sync 0\n\
greatest skew 2500000 cycle 0 macrotick 0\n\
";

// The trace of two clocks that hear nothing of each other.
const QUIET: &str = "\
run,1,,,,,,\n\
cycle,0,1,0,1000000,0,0,active\n\
cycle,0,2,2500000,1000000,0,0,active\n\
cycle,1,1,200000000000,1000000,0,0,active\n\
cycle,1,2,200002500000,1000000,0,0,active\n\
";

const FAST: Lines = &[
    ("cycle,0,2", "cycle,0,2,0,1000201,0,0,active"),
    ("cycle,1,2", "cycle,1,2,200040200000,1000201,0,0,active"),
];

const FASTER: Lines = &[("cycle,1,2", "cycle,1,2,200002500000,1000001,0,0,active")];

// An offset limit that is a microtick too small for the third check.
const TIGHT: Lines = &[(
    "param,pOffsetCorrectionOut",
    "param,pOffsetCorrectionOut,253,,",
)];

const LATER_START: Lines = &[("cycle,1,1", "cycle,1,1,200000000001,1000000,0,1,active")];

const CHECKS: &[Row] = &[
    (
        CHECK,
        &[CLUSTER, Text("t", TRACE, LATER_START)],
        No,
        "",
        "trace: record 6 start 200000000001 expected 200000000000\n",
    ),
    (
        CHECK,
        &[
            CLUSTER,
            Bytes("t", b"run,1,,,,,,\narbitrary,1,,,,,,\narbitrary,2,,,,,,\n"),
        ],
        No,
        "",
        "trace: not covered count 0 2\n",
    ),
    (
        CHECK,
        &[CLUSTER, Text("t", QUIET, FAST)],
        No,
        "",
        "trace: not covered length 2 0 1000201\n",
    ),
    (
        CHECK,
        &[CLUSTER, Text("t", QUIET, FASTER)],
        No,
        "",
        "trace: not covered change 2 1 1\n",
    ),
    (
        CHECK,
        &[CLUSTER, Text("t", QUIET, &[])],
        No,
        "",
        "trace: not covered link 1 2 0\n",
    ),
    (
        CHECK,
        &[Params(TIGHT, TWO_ON_A), Text("t", QUIET, &[])],
        No,
        "",
        "trace: not covered check 3 252949400 253543800\n",
    ),
    (
        CHECK,
        &[CLUSTER, Bytes("t", b"")],
        Refused,
        "",
        "trace: incomplete 0\n",
    ),
    (
        CHECK,
        &[CLUSTER, Bytes("t", b"run,1,,,,,,\n")],
        Refused,
        "",
        "trace: incomplete 1\n",
    ),
];

const USAGE: &str = "usage: flexray COMMAND WORDS\n";

// Words that ask for nothing, though a file of that name is there.
const OTHER_WORDS: &[Row] = &[
    (&[], &[], Usage, "", USAGE),
    (&["frame", "C", "f"], &[Bytes("f", SYNC)], Usage, "", USAGE),
    (
        &["frame", "A", "f", "f"],
        &[Bytes("f", SYNC)],
        Usage,
        "",
        USAGE,
    ),
    (&["make", "4294967296", "1"], &[], Usage, "", USAGE),
];

#[test]
fn bounds_frames_and_recordings_are_answered(rt: HostRuntime) -> Result<(), Fail> {
    assert_eq!(rt; first_other(rt.alloc(), BOUND_ROWS)?, None);
    assert_eq!(rt; first_other(rt.alloc(), FRAMES)?, None);
    assert_eq!(rt; first_other(rt.alloc(), RECORDINGS)?, None);
    Ok(())
}

#[test]
fn runs_and_other_files_are_answered(rt: HostRuntime) -> Result<(), Fail> {
    assert_eq!(rt; first_other(rt.alloc(), RUNS)?, None);
    assert_eq!(rt; first_other(rt.alloc(), OTHER_FILES)?, None);
    Ok(())
}

#[test]
fn checks_and_other_words_are_answered(rt: HostRuntime) -> Result<(), Fail> {
    assert_eq!(rt; first_other(rt.alloc(), CHECKS)?, None);
    assert_eq!(rt; first_other(rt.alloc(), OTHER_WORDS)?, None);
    Ok(())
}

const DRAWS: &[u32] = &[
    4_063_834_449,
    2_143_014_202,
    2_740_157_135,
    3_385_478_207,
    3_546_536_764,
    785_995_372,
    1_850_770_085,
    2_179_942_517,
];

#[test]
fn the_draws_of_seed_seven(rt: HostRuntime) {
    let mut words = Lcg64Xsh32::new(7, 0);
    for draw in DRAWS {
        assert_eq!(rt; words.next_word(), *draw);
    }
}
