// How a call of a program is tried: what it is given and what it answers are data. Nothing here has a contract.
use fr_answer::{Status, flexray_core};
use fr_base::MAX_FILE;
use fr_program::{MemoryShelf, MemorySink};
use fr_samples::{changed, file_of};
use fr_series::flexray_series;
use std::alloc::{AllocError, Global};

// Lines to put in the place of those that begin so.
pub(crate) type Lines<'a> = &'a [(&'a str, &'a str)];

// A file under its name.
#[derive(Clone, Copy)]
pub(crate) enum File<'a> {
    Bytes(&'a str, &'a [u8]),
    // A text with other lines.
    Text(&'a str, &'a str, Lines<'a>),
    // The parameters of the cluster with other lines, and its nodes and further slots. Its name is `p`.
    Params(Lines<'a>, &'a str),
    // A byte more than a file may have.
    TooLong(&'a str),
}

// The words, the files, the status, what is written, and what is told.
pub(crate) type Row<'a> = (&'a [&'a str], &'a [File<'a>], Status, &'a str, &'a str);

// Which load, which put and which telling of a failure is to fail, counted from 1; 0 is none.
pub(crate) type Faults = (u64, u64, u64);

pub(crate) const NONE: Faults = (0, 0, 0);

pub(crate) fn words_of(alloc: Global, texts: &[&str]) -> Result<Vec<String>, AllocError> {
    let mut words = Vec::new(alloc);
    for text in texts {
        words.push(String::from_str(alloc, text)?)?;
    }
    Ok(words)
}

fn hold(alloc: Global, shelf: &mut MemoryShelf, file: &File<'_>) -> Result<(), AllocError> {
    match file {
        File::Bytes(name, bytes) => shelf.hold(name, bytes),
        File::Text(name, text, lines) => shelf.hold(name, changed(alloc, text, lines)?.as_bytes()),
        File::Params(lines, nodes) => shelf.hold("p", file_of(alloc, lines, nodes)?.as_bytes()),
        File::TooLong(name) => shelf.hold(name, &vec![in alloc; 0; MAX_FILE + 1]?),
    }
}

pub(crate) fn shelf_of(
    alloc: Global,
    files: &[File<'_>],
    failing: u64,
) -> Result<MemoryShelf, AllocError> {
    let mut shelf = MemoryShelf::new(alloc);
    for file in files {
        hold(alloc, &mut shelf, file)?;
    }
    shelf.fail_at(failing)?;
    Ok(shelf)
}

fn sink_of(alloc: Global, failing: u64) -> Result<MemorySink, AllocError> {
    let mut sink = MemorySink::new(alloc, 5000)?;
    sink.fail_at(failing)?;
    Ok(sink)
}

// Which of the two programs is called.
#[derive(Clone, Copy)]
pub(crate) enum Program {
    Flexray,
    Series,
}

// The status, what is written and what is told.
pub(crate) type Wanted<'a> = (Status, &'a [u8], &'a str);

// Whether the program ends so over a shelf, where this put and this telling fail.
pub(crate) fn ends(
    alloc: Global,
    program: Program,
    words: &[String],
    shelf: &mut MemoryShelf,
    failing: (u64, u64),
    wanted: Wanted<'_>,
) -> Result<bool, AllocError> {
    let (put, tell) = failing;
    let mut out = sink_of(alloc, put)?;
    let mut err = sink_of(alloc, tell)?;
    let status = match program {
        Program::Flexray => flexray_core(alloc, words, shelf, &mut out, &mut err),
        Program::Series => flexray_series(alloc, words, shelf, &mut out, &mut err),
    };
    let (done, written, told) = wanted;
    Ok(status == done && out.bytes() == written && err.bytes() == told.as_bytes())
}

// Whether a program answers words over files so, where these fail.
pub(crate) fn answers(
    alloc: Global,
    program: Program,
    words: &[&str],
    files: &[File<'_>],
    faults: Faults,
    wanted: Wanted<'_>,
) -> Result<bool, AllocError> {
    let (load, put, tell) = faults;
    let words = words_of(alloc, words)?;
    let mut shelf = shelf_of(alloc, files, load)?;
    ends(alloc, program, &words, &mut shelf, (put, tell), wanted)
}

// Whether a program answers a row so, where these fail.
pub(crate) fn is_row(
    alloc: Global,
    program: Program,
    row: &Row<'_>,
    faults: Faults,
) -> Result<bool, AllocError> {
    let (words, files, status, out, err) = row;
    let wanted = (*status, out.as_bytes(), *err);
    answers(alloc, program, words, files, faults, wanted)
}

// The place of the first of these that `flexray` answers otherwise.
pub(crate) fn first_other(alloc: Global, rows: &[Row<'_>]) -> Result<Option<usize>, AllocError> {
    for (place, row) in rows.iter().enumerate() {
        if !is_row(alloc, Program::Flexray, row, NONE)? {
            return Ok(Some(place));
        }
    }
    Ok(None)
}

// The place of the first of these, of which something may fail, that a program answers otherwise.
pub(crate) fn first_unfailing(
    alloc: Global,
    program: Program,
    rows: &[(Faults, Row<'_>)],
) -> Result<Option<usize>, AllocError> {
    for (place, (faults, row)) in rows.iter().enumerate() {
        if !is_row(alloc, program, row, *faults)? {
            return Ok(Some(place));
        }
    }
    Ok(None)
}
