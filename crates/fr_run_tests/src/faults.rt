// Devices that fail, and those that never do.
use crate::answers::{
    BOUND, BOUND_JOIN, BOUNDS, CALM, CHECK, CLUSTER, COLD, DRIFT, JOIN_BOUNDS, LATE, LINE,
    MADE_REPORT, NM, ON_A, ON_B, POWER, RECORDED, RUN, STARTUP_LINES, SYNC, TRACE, TWO, TWO_LINES,
    UPGRADE, UPGRADED, VECTOR_LINES, VECTORS, VERDICT,
};
use crate::calls::File::{Bytes, Text, TooLong};
use crate::calls::{
    Faults, File, NONE, Program, Row, Wanted, answers, ends, first_unfailing, shelf_of, words_of,
};
use crate::series::{APART_FILES, APART_SERIES, HELD_FILES, HELD_FOR_NONE, SERIES, SHARP_SERIES};
use fr_answer::Status::{Done, No, ReadFault, Refused, Usage, WriteFault};
use fr_answer::{Status, flexray_core};
use fr_base::PutFault;
use fr_nm::fold;
use fr_program::{MemoryShelf, MemorySink, SureShelf, SureSink};
use fr_samples::LATER_REPORT;
use std::alloc::{AllocError, Global};
use std::test::Fail;

const CHECKED: &[File] = &[CLUSTER, Text("t", TRACE, &[])];

const STARTED: &[File] = &[CLUSTER, POWER];

const SHARP_JOIN: &[&str] = &["bound", "p", "sharp", "1000000", "join"];

const FRAME: &[File] = &[Bytes("f", SYNC)];

const FILES: &[File] = &[CLUSTER, LATE, CALM];

// What fails, and the answer: a second line is never put, on either sink, and no further load is made; a load that fails
// is told by its file; and a failure that cannot be told changes nothing else.
const FAILING: &[(Faults, Row)] = &[
    ((2, 2, 2), (ON_A, FRAME, Done, LINE, "")),
    ((2, 1, 2), (ON_A, FRAME, WriteFault, "", "write fault\n")),
    (
        (1, 2, 2),
        (ON_A, FRAME, ReadFault, "", "frame: read fault\n"),
    ),
    (
        (2, 1, 2),
        (
            ON_A,
            &[TooLong("f")],
            Status::TooLong,
            "",
            "frame: too long\n",
        ),
    ),
    ((2, 1, 1), (ON_A, &[TooLong("f")], Status::TooLong, "", "")),
    ((2, 1, 1), (ON_B, FRAME, No, "", "")),
    ((2, 1, 1), (&["frame"], FRAME, Usage, "", "")),
    (
        NONE,
        (
            RECORDED,
            &[Bytes("g", TWO)],
            ReadFault,
            "",
            "capture: read fault\n",
        ),
    ),
    (
        (1, 1, 2),
        (RUN, FILES, ReadFault, "", "params: read fault\n"),
    ),
    (
        (2, 1, 2),
        (RUN, FILES, ReadFault, "", "drift: read fault\n"),
    ),
    (
        (3, 1, 2),
        (RUN, FILES, ReadFault, "", "script: read fault\n"),
    ),
    ((3, 5, 2), (CHECK, CHECKED, Done, VERDICT, "")),
    (
        (1, 5, 2),
        (CHECK, CHECKED, ReadFault, "", "params: read fault\n"),
    ),
    (
        (2, 5, 2),
        (CHECK, CHECKED, ReadFault, "", "trace: read fault\n"),
    ),
    (
        (1, 1, 2),
        (
            BOUND_JOIN,
            &[CLUSTER],
            ReadFault,
            "",
            "params: read fault\n",
        ),
    ),
    (
        (1, 1, 2),
        (
            SHARP_JOIN,
            &[CLUSTER],
            ReadFault,
            "",
            "params: read fault\n",
        ),
    ),
    (
        (1, 1, 2),
        (UPGRADE, &[CLUSTER], ReadFault, "", "params: read fault\n"),
    ),
    (
        (1, 1, 2),
        (COLD, STARTED, ReadFault, "", "params: read fault\n"),
    ),
    (
        (2, 1, 2),
        (COLD, STARTED, ReadFault, "", "power: read fault\n"),
    ),
    (
        (1, 1, 2),
        (NM, &[VECTORS], ReadFault, "", "vectors: read fault\n"),
    ),
];

#[test]
fn devices_fail(rt: HostRuntime) -> Result<(), Fail> {
    assert_eq!(rt;
        first_unfailing(rt.alloc(), Program::Flexray, FAILING)?,
        None
    );
    Ok(())
}

// What both calls over the same shelf answer.
const REFUSED: Wanted = (Refused, b"", "params: record 1: Shape\n");

const FAILED: Wanted = (ReadFault, b"", "params: read fault\n");

fn end_in_turn(
    alloc: Global,
    words: &[String],
    shelf: &mut MemoryShelf,
) -> Result<bool, AllocError> {
    let refused = ends(alloc, Program::Flexray, words, shelf, (0, 0), REFUSED)?;
    let failed = ends(alloc, Program::Flexray, words, shelf, (0, 0), FAILED)?;
    Ok(refused && failed)
}

// Whether two calls over the same shelf, whose second load fails, are answered so.
fn is_loaded_in_turn(alloc: Global) -> Result<bool, AllocError> {
    let words = words_of(alloc, RUN)?;
    let mut shelf = shelf_of(alloc, &[Bytes("p", b"x\n"), LATE, CALM], 2)?;
    end_in_turn(alloc, &words, &mut shelf)
}

// A file is loaded once those before it are accepted: the second load is that of the second call, whose first file is
// not accepted either.
#[test]
fn files_are_loaded_in_their_turn(rt: HostRuntime) -> Result<(), Fail> {
    assert!(rt; is_loaded_in_turn(rt.alloc())?);
    Ok(())
}

const SHARP_BOUNDS: &str = "\
flutter 1000000\n\
alone lambda 13002198\n\
alone pi 17002798\n\
alone precision 45007594\n\
beside lambda 26004396\n\
beside pi 87014588\n\
beside precision 141023780\n\
C1 holds 3999201 1999800\n\
C2 holds 80983800 80000000\n\
alone C3 holds 253949200 32601612\n\
alone C4 holds 1394154113400 158007060000\n\
alone C5 holds 4592218372600 158007060000\n\
beside C3 holds 253949200 115711816\n\
beside C4 holds 1394154113400 573558080000\n\
beside C5 holds 4592218372600 573558080000\n\
lasts on\n\
";

const SHARP_JOIN_BOUNDS: &str = "\
flutter 1000000\n\
alone lambda 13002198\n\
alone pi 17002798\n\
alone precision 45007594\n\
beside lambda 26004396\n\
beside pi 87014588\n\
beside precision 141023780\n\
C1 holds 3999201 1999800\n\
C2 holds 80983800 80000000\n\
alone C3 holds 253949200 32601612\n\
alone C4 holds 1394154113400 158007060000\n\
alone C5 holds 4592218372600 158007060000\n\
beside C3 holds 253949200 115711816\n\
beside C4 holds 1394154113400 573558080000\n\
beside C5 holds 4592218372600 573558080000\n\
lasts on\n\
alone reach 71167015\n\
beside reach 180281615\n\
C6 fails 80983800 82000200\n\
alone C7 holds 253949200 72667215\n\
alone C8 holds 1394154113400 358335075000\n\
alone C9 holds 4592218372600 358335075000\n\
beside C7 holds 253949200 181781815\n\
beside C8 holds 1394154113400 903908075000\n\
beside C9 holds 4592218372600 903908075000\n\
first rates last 0\n\
";

const SHARP_WAYS: &str = "\
start 190032800 rate 30005200 flutter 1000000\n\
alone peak 252043600\n\
alone settles 2\n\
beside peak 252043600\n\
beside settles 29\n\
";

// A program, words and files whose answer has several lines, the answer, how many lines its first put has, and how many
// puts it has with one behind it. All other puts have one line.
const WRITTEN: &[(Program, &[&str], &[File], &str, usize, usize)] = &[
    (Program::Flexray, BOUND, &[CLUSTER], BOUNDS, 1, 10),
    (
        Program::Flexray,
        &["settle", "p", "190032800", "30005200"],
        &[CLUSTER],
        "start 190032800 rate 30005200\npeak 252043600\nsettles 0\n",
        1,
        4,
    ),
    (
        Program::Flexray,
        &["bound", "p", "sharp", "1000000"],
        &[CLUSTER],
        SHARP_BOUNDS,
        1,
        17,
    ),
    (
        Program::Flexray,
        &["settle", "p", "190032800", "30005200", "sharp", "1000000"],
        &[CLUSTER],
        SHARP_WAYS,
        1,
        6,
    ),
    (Program::Flexray, BOUND_JOIN, &[CLUSTER], JOIN_BOUNDS, 1, 15),
    (
        Program::Flexray,
        SHARP_JOIN,
        &[CLUSTER],
        SHARP_JOIN_BOUNDS,
        1,
        27,
    ),
    (Program::Flexray, UPGRADE, &[CLUSTER], UPGRADED, 1, 24),
    (Program::Flexray, COLD, STARTED, STARTUP_LINES, 1, 5),
    (Program::Flexray, NM, &[VECTORS], VECTOR_LINES, 1, 3),
    (
        Program::Flexray,
        RECORDED,
        &[Bytes("f", TWO)],
        TWO_LINES,
        2,
        4,
    ),
    (Program::Flexray, RUN, FILES, LATER_REPORT, 1, 12),
    (
        Program::Flexray,
        &["make", "7", "1"],
        &[],
        MADE_REPORT,
        1,
        16,
    ),
    (
        Program::Flexray,
        &["trace", "p", "d", "s"],
        &[CLUSTER, DRIFT, CALM],
        TRACE,
        9,
        2,
    ),
    (Program::Flexray, CHECK, CHECKED, VERDICT, 1, 5),
    (Program::Series, SERIES, APART_FILES, APART_SERIES, 1, 9),
    (
        Program::Series,
        SHARP_SERIES,
        HELD_FILES,
        HELD_FOR_NONE,
        1,
        14,
    ),
];

// Whether the lines before a put, so many bytes, were written where it fails.
fn is_kept(
    alloc: Global,
    program: Program,
    words: &[&str],
    files: &[File<'_>],
    front: Option<&[u8]>,
    put: u64,
) -> Result<bool, AllocError> {
    match front {
        Some(front) => {
            let wanted = (WriteFault, front, "write fault\n");
            answers(alloc, program, words, files, (0, put, 2), wanted)
        }
        None => Ok(false),
    }
}

// How many of the puts of an answer, and of one behind them, which is never made, are answered so where they fail.
fn kept(
    alloc: Global,
    program: Program,
    words: &[&str],
    files: &[File<'_>],
    text: &str,
    first: usize,
) -> Result<usize, AllocError> {
    let mut kept = 0usize;
    let mut front = 0usize;
    let mut lines = 0usize;
    let mut put = 1u64;
    for line in text.lines() {
        if lines == 0 || lines >= first {
            if is_kept(
                alloc,
                program,
                words,
                files,
                text.as_bytes().get(..front),
                put,
            )? {
                kept = kept.saturating_add(1);
            }
            put = put.saturating_add(1);
        }
        front = front.saturating_add(line.len()).saturating_add(1);
        lines = lines.saturating_add(1);
    }
    let wanted = (Done, text.as_bytes(), "");
    if answers(alloc, program, words, files, (0, put, 2), wanted)? {
        kept = kept.saturating_add(1);
    }
    Ok(kept)
}

// Each put of an answer fails in its turn, and one behind it, which is never made.
#[test]
fn each_put_fails_in_its_turn(rt: HostRuntime) -> Result<(), Fail> {
    for (program, words, files, text, first, puts) in WRITTEN {
        assert_eq!(rt;
            kept(rt.alloc(), *program, words, files, text, *first)?,
            *puts
        );
    }
    Ok(())
}

// The answer to a frame on channel A and B, over devices that never fail.
fn surely(alloc: Global, words: &[&str]) -> Result<Status, AllocError> {
    let words = words_of(alloc, words)?;
    let mut shelf = SureShelf::new(alloc);
    shelf.hold("f", SYNC)?;
    let (mut out, mut err) = (SureSink::new(), SureSink::new());
    Ok(flexray_core(alloc, &words, &mut shelf, &mut out, &mut err))
}

#[test]
fn devices_that_never_fail_are_taken(rt: HostRuntime) -> Result<(), Fail> {
    assert_eq!(rt; surely(rt.alloc(), ON_A)?, Done);
    assert_eq!(rt; surely(rt.alloc(), ON_B)?, No);
    Ok(())
}

// A recording of one frame, which has a vector.
const RECORDING: &[u8] = b"9,A,600502B3891234DBEF87\n";

// Whether writing the vectors answers so where this put fails, and this stands in the sink then.
fn is_written(
    alloc: Global,
    failing: u64,
    wanted: Result<(), PutFault>,
    text: &[u8],
) -> Result<bool, Fail> {
    let vectors = fold(alloc, 2, RECORDING)?;
    let mut sink = MemorySink::new(alloc, 100)?;
    sink.fail_at(failing)?;
    Ok(vectors.write(&mut sink) == wanted && sink.bytes() == text)
}

#[test]
fn vectors_are_written_where_no_put_fails(rt: HostRuntime) -> Result<(), Fail> {
    let lines = b"cycle 9 vector 1234 frames 1\nframes 1 ignored 0\n";
    assert!(rt; is_written(rt.alloc(), 0, Ok(()), lines)?);
    assert!(rt;
        is_written(
            rt.alloc(),
            2,
            Err(PutFault::Failed),
            b"cycle 9 vector 1234 frames 1\n"
        )?
    );
    Ok(())
}
