use fr_nm::{Vectors, fold};
use fr_program::MemorySink;
use std::alloc::Global;
use std::test::Fail;

// A put that fails, if it comes, and how many bytes then stand.
const PUTS: &[(u64, usize)] = &[(1, 0), (2, 29), (3, 48)];

// Two records that count, of 24 bytes each, with the end of the line between them.
const RECORDING: &str = "9,A,600502b3891234dbef87\n9,A,600602344941801eadbd\n";

const RECORDING_TEXT: &str = "cycle 9 vector 53B4 frames 2\nframes 2 ignored 0\n";

fn vectors_of(alloc: Global) -> Result<Vectors, Fail> {
    match fold(alloc, 2, RECORDING.as_bytes()) {
        Ok(vectors) => Ok(vectors),
        Err(_) => Err(Fail::new("no vectors")),
    }
}

// What is written where this put fails.
fn written(alloc: Global, failing: u64) -> Result<MemorySink, Fail> {
    let mut sink = MemorySink::new(alloc, 200)?;
    sink.fail_at(failing)?;
    let _ = vectors_of(alloc)?.write(&mut sink);
    Ok(sink)
}

// The place of the first row in which another front of the text stands.
fn first_wrong(alloc: Global) -> Result<Option<usize>, Fail> {
    for (place, (failing, count)) in PUTS.iter().enumerate() {
        let sink = written(alloc, *failing)?;
        if Some(sink.bytes()) != RECORDING_TEXT.as_bytes().get(..*count) {
            return Ok(Some(place));
        }
    }
    Ok(None)
}

// Each line is one put: where the second fails, the first stands alone.
#[test]
fn each_line_is_one_put(rt: HostRuntime) -> Result<(), Fail> {
    assert_eq!(rt; first_wrong(rt.alloc())?, None);
    Ok(())
}
