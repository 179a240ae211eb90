// Shelves and sinks, in memory and on the disk; lines that are put into a sink, numbers that are read, and the words of a
// process.
use fr_base::{LoadFault, MAX_FILE, NumberFault, PutFault, Shelf, Sink, number};
use fr_program::{
    DiskShelf, Gathered, MemoryShelf, MemorySink, StreamSink, SureShelf, SureSink, request_words,
};
use fr_text::Piece::{Bytes, Hex, Natural, Signed, Word};
use fr_text::{Draft, Line, line_of, put_line, put_lines, row_of};
use std::alloc::{AllocError, Global};
use std::fs;
use std::test::Fail;

// A name, what its load answers, and the bytes that are there then: how many, and the first of them. After a fault none
// may be left in their place.
type Load = (&'static str, Result<(), LoadFault>, usize, &'static [u8]);

const LONGER: Result<(), LoadFault> = Err(LoadFault::TooLong { seen: 16_777_217 });

// Names in the order in which they are loaded. The second load is to fail.
const LOADS: &[Load] = &[
    ("a", Ok(()), 3, b"new"),
    ("a", Err(LoadFault::Failed), 0, b""),
    ("c", Err(LoadFault::Failed), 0, b""),
    ("b", Ok(()), 5, b"other"),
    ("longest", Ok(()), 16_777_216, b"\x07\x07"),
    ("longer", LONGER, 0, b""),
];

// The same of a shelf that never fails.
const SURE_LOADS: &[Load] = &[
    ("longest", Ok(()), 16_777_216, b"\x07\x07"),
    ("longer", LONGER, 0, b""),
    ("none", Ok(()), 0, b""),
];

fn is_loaded<S: Shelf>(alloc: Global, shelf: &mut S, load: &Load) -> bool {
    let (name, answer, count, front) = load;
    let mut bytes = Vec::new(alloc);
    shelf.load(name, &mut bytes) == *answer
        && bytes.len() == *count
        && bytes.as_slice().starts_with(front)
}

// The place of the first of these that are loaded otherwise.
fn first_misloaded<S: Shelf>(alloc: Global, shelf: &mut S, loads: &[Load]) -> Option<usize> {
    for (place, load) in loads.iter().enumerate() {
        if !is_loaded(alloc, shelf, load) {
            return Some(place);
        }
    }
    None
}

// Whether these are the names of the loads, one after the other.
fn are_names_of(names: Option<&[String]>, loads: &[Load]) -> bool {
    match names {
        Some(names) => {
            names.len() == loads.len()
                && names
                    .iter()
                    .zip(loads)
                    .all(|(name, load)| name.as_str() == load.0)
        }
        None => false,
    }
}

// Names and what is held under them, in this order, and names with so many bytes.
const HELD: &[(&str, &[u8])] = &[("a", b"old"), ("b", b"other"), ("a", b"new")];

const LONG: &[(&str, usize)] = &[("longest", MAX_FILE), ("longer", 16_777_217)];

fn sevens(alloc: Global, count: usize) -> Result<Vec<u8>, AllocError> {
    vec![in alloc; 7; count]
}

fn fill(alloc: Global, shelf: &mut MemoryShelf) -> Result<(), AllocError> {
    for (name, bytes) in HELD {
        shelf.hold(name, bytes)?;
    }
    for (name, count) in LONG {
        shelf.hold(name, &sevens(alloc, *count)?)?;
    }
    shelf.fail_at(2)
}

fn fill_surely(alloc: Global, shelf: &mut SureShelf) -> Result<(), AllocError> {
    for (name, count) in LONG {
        shelf.hold(name, &sevens(alloc, *count)?)?;
    }
    Ok(())
}

#[test]
fn shelves_in_memory_load_what_they_hold(rt: HostRuntime) -> Result<(), Fail> {
    let mut shelf = MemoryShelf::new(rt.alloc());
    fill(rt.alloc(), &mut shelf)?;
    assert!(rt; first_misloaded(rt.alloc(), &mut shelf, LOADS).is_none());
    assert!(rt; are_names_of(shelf.asked(), LOADS));
    Ok(())
}

#[test]
fn a_sure_shelf_holds_every_name(rt: HostRuntime) -> Result<(), Fail> {
    let mut shelf = SureShelf::new(rt.alloc());
    fill_surely(rt.alloc(), &mut shelf)?;
    assert!(rt; first_misloaded(rt.alloc(), &mut shelf, SURE_LOADS).is_none());
    assert!(rt; are_names_of(shelf.asked(), SURE_LOADS));
    Ok(())
}

// Pieces that are put into a room of five bytes, and whether they are taken. The second put is to fail.
const PUTS: &[(&[u8], bool)] = &[
    (b"ab", true),
    (b"c", false),
    (b"cdef", false),
    (b"cde", true),
    (b"", true),
];

// Whether each is answered so.
fn takes(sink: &mut MemorySink) -> bool {
    let mut same = true;
    for (piece, wanted) in PUTS {
        same = sink.put(piece).is_ok() == *wanted && same;
    }
    same
}

#[test]
fn a_sink_in_memory_takes_what_fits(rt: HostRuntime) -> Result<(), Fail> {
    let mut sink = MemorySink::new(rt.alloc(), 5)?;
    sink.fail_at(2)?;
    assert!(rt; takes(&mut sink));
    assert!(rt; sink.bytes() == b"abcde".as_slice());
    assert!(rt; SureSink::new().put(b"any").is_ok());
    Ok(())
}

const ON_DISK: &[Load] = &[
    ("line", Ok(()), 20, b"a line\nand one more\n"),
    ("no such file", Err(LoadFault::Failed), 0, b""),
    (".", Err(LoadFault::Failed), 0, b""),
    ("", Err(LoadFault::Failed), 0, b""),
];

// Files of so many bytes.
const SIZES: &[(&str, usize)] = &[
    ("empty", 0),
    ("page", 4_096),
    ("chunk", 65_536),
    ("more", 65_537),
    ("most", MAX_FILE),
    ("over", 16_777_217),
];

const SIZED: &[Load] = &[
    ("empty", Ok(()), 0, b""),
    ("page", Ok(()), 4_096, b"\x07"),
    ("chunk", Ok(()), 65_536, b"\x07"),
    ("more", Ok(()), 65_537, b"\x07"),
    ("most", Ok(()), 16_777_216, b"\x07"),
    ("over", LONGER, 0, b""),
];

#[test]
fn a_file_on_the_disk_is_loaded_whole(rt: HostRuntime) -> Result<(), Fail> {
    for (name, count) in SIZES {
        fs::write(&rt, *name, &sevens(rt.alloc(), *count)?)?;
    }
    let mut shelf = DiskShelf::new(&rt);
    assert!(rt; first_misloaded(rt.alloc(), &mut shelf, SIZED).is_none());
    Ok(())
}

fn put_twice<S: Sink>(sink: &mut S) -> bool {
    sink.put(b"a line\n").is_ok() && sink.put(b"and one more\n").is_ok()
}

#[test]
fn the_adapters_reach_files(rt: HostRuntime) -> Result<(), Fail> {
    let mut sink = StreamSink::new(fs::create(&rt, "line")?);
    assert!(rt; put_twice(&mut sink));
    drop(sink);
    let mut shelf = DiskShelf::new(&rt);
    assert!(rt; first_misloaded(rt.alloc(), &mut shelf, ON_DISK).is_none());
    Ok(())
}

const SIGNED: &[(i64, &[u8])] = &[
    (0, b"0\n"),
    (-1, b"-1\n"),
    (1009, b"1009\n"),
    (i64::MIN, b"-9223372036854775808\n"),
];

fn are_shown() -> bool {
    let crcs = line_of(&[
        Word(b"crc "),
        Hex(0x1BC, 3),
        Word(b" "),
        Hex(0x9A, 6),
        Word(b" "),
        Hex(0xFEDC_BA98, 6),
    ]);
    let row = row_of(
        b"say",
        &[Natural(u64::MAX), Word(b"A"), Bytes(&[0xAB, 0x09])],
    );
    crcs.bytes() == b"crc 1BC 00009A DCBA98\n".as_slice()
        && row.bytes() == b"say,18446744073709551615,A,AB09\n".as_slice()
}

// Whether a line is spelt in the place of another one, behind a front.
fn is_spelt() -> bool {
    let mut front = Draft::new();
    front.spell_front(b"dev", &[Natural(7), Word(b"x")]);
    let mut line = Line::new();
    line.spell(&[Word(b"before")]);
    let before = line.bytes() == b"before\n".as_slice();
    line.spell_row(front.bytes(), &[Signed(-3), Word(b"")]);
    before && front.bytes() == b"dev,7,x".as_slice() && line.bytes() == b"dev,7,x,-3,\n".as_slice()
}

#[test]
fn a_line_shows_numbers(rt: HostRuntime) {
    for (value, text) in SIGNED {
        assert!(rt; line_of(&[Signed(*value)]).bytes() == *text);
    }
    assert!(rt; are_shown());
    assert!(rt; is_spelt());
}

// The put that fails, and what is written then.
const FAILING: &[(u64, &[u8])] = &[(1, b""), (2, b"one\n"), (3, b"one\ntwo\n")];

// Whether of three lines these are written, and then a put fails.
fn is_put(sink: &mut MemorySink, written: &[u8]) -> bool {
    let lines = [
        Some(line_of(&[Word(b"one")])),
        None,
        Some(line_of(&[Word(b"two")])),
        Some(line_of(&[Word(b"three")])),
    ];
    put_lines(&lines, sink) == Err(PutFault::Failed) && sink.bytes() == written
}

// Whether two lines are put one after the other.
fn are_put(sink: &mut MemorySink) -> bool {
    put_line(&line_of(&[Word(b"one")]), sink).is_ok()
        && put_line(&Line::new(), sink).is_ok()
        && sink.bytes() == b"one\n\n".as_slice()
}

#[test]
fn each_line_is_one_put(rt: HostRuntime) -> Result<(), Fail> {
    for (failing, written) in FAILING {
        let mut sink = MemorySink::new(rt.alloc(), 100)?;
        sink.fail_at(*failing)?;
        assert!(rt; is_put(&mut sink, written));
    }
    assert!(rt; are_put(&mut MemorySink::new(rt.alloc(), 100)?));
    Ok(())
}

// So many lines of 16 bytes.
fn lines_of_16(alloc: Global, count: usize) -> Result<Vec<u8>, AllocError> {
    let mut lines = Vec::new(alloc);
    for _line in 0..count {
        lines.extend_from_slice(b"fifteen letters\n")?;
    }
    Ok(lines)
}

// Pieces of so many lines of 16 bytes, one after the other: whether each is taken, and how many bytes are put behind it.
const WAITING: &[(usize, bool, usize)] = &[
    (0, false, 0),
    (4095, true, 0),
    (1, true, 65_536),
    (9217, false, 65_536),
    (9216, true, 212_992),
];

#[test]
fn lines_wait_until_they_are_many(rt: HostRuntime) -> Result<(), Fail> {
    let mut waiting = Gathered::new(rt.alloc());
    let mut sink = MemorySink::new(rt.alloc(), 300_000)?;
    for (count, taken, put) in WAITING {
        let piece = lines_of_16(rt.alloc(), *count)?;
        assert_eq!(rt; waiting.put(&piece).is_ok(), *taken);
        assert!(rt; waiting.put_many(&mut sink).is_ok());
        assert_eq!(rt; sink.bytes().len(), *put);
    }
    assert!(rt; waiting.put(b"one\n").is_ok() && waiting.len() == 4);
    assert!(rt; waiting.put_all(&mut sink).is_ok() && sink.bytes().len() == 212_996);
    Ok(())
}

const NUMBERS: &[(&[u8], Result<i64, NumberFault>)] = &[
    (b"0", Ok(0)),
    (b"-0", Ok(0)),
    (b"007", Ok(7)),
    (b"-007", Ok(-7)),
    (b"999999999999999999", Ok(999_999_999_999_999_999)),
    (b"000000000000000001", Ok(1)),
    (b"0000000000000000001", Err(NumberFault::NotDigits)),
    (b"-999999999999999999", Err(NumberFault::OutOfRange)),
    (b"-1000000000000000000", Err(NumberFault::NotDigits)),
    (b"-100", Ok(-100)),
    (b"-101", Err(NumberFault::OutOfRange)),
    (b"", Err(NumberFault::NotDigits)),
    (b"-", Err(NumberFault::NotDigits)),
    (b"--1", Err(NumberFault::NotDigits)),
    (b"+1", Err(NumberFault::NotDigits)),
    (b" 1", Err(NumberFault::NotDigits)),
];

#[test]
fn reads_what_is_a_number(rt: HostRuntime) {
    for (text, wanted) in NUMBERS {
        assert!(rt; number(text, -100, 999_999_999_999_999_999) == *wanted);
    }
}

const GIVEN: &[&str] = &["flexray", "bound", "params.csv"];

fn given_words(alloc: Global) -> Result<Vec<String>, AllocError> {
    let mut words = Vec::new(alloc);
    for word in GIVEN {
        words.push(String::from_str(alloc, word)?)?;
    }
    Ok(words)
}

// Whether these are all but the first of them.
fn are_behind_the_first(words: Option<Vec<String>>) -> bool {
    match words {
        Some(words) => {
            words.len() == 2 && words[0].as_str() == GIVEN[1] && words[1].as_str() == GIVEN[2]
        }
        None => false,
    }
}

#[test]
fn the_name_of_the_program_is_no_word(rt: HostRuntime) -> Result<(), Fail> {
    let given = given_words(rt.alloc())?;
    let words = request_words(rt.alloc(), Ok(given.into_iter()));
    assert!(rt; are_behind_the_first(words));
    Ok(())
}
