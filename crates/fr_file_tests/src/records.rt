ghost use Rattle.std.specs.Prelude.{List, ℕ, None, Some, ◌==◌, length, if◌then◌else◌, ⊤};
ghost use Rattle.fr_base.specs.declared.reason.Reason.TheVariants as reason;

use csv::ByteRecord;
use fr_base::{Channel, Reason};
use fr_text::{RowFault, Table, both, natural, read_all, reason_of};
use std::alloc::{AllocError, Global};
use std::test::Fail;

// The records so far, a `|` after each field and a `;` after each record; one of three fields is refused.
#[derive(Drop)]
struct Shown {
    text: Vec<u8>,
}

impl Table for Shown {
    ghost reason = { λ _ _ row. if length row == 3 then Some reason.Shape else None };

    ghost holds = { λ _ _. ⊤ };

    fn add(&mut self, row: &ByteRecord) -> Result<Option<Reason>, AllocError> {
        if row.len() == 3 {
            return Ok(Some(Reason::Shape));
        }
        for field in row {
            self.text.extend_from_slice(field)?;
            self.text.push(b'|')?;
        }
        self.text.push(b';')?;
        Ok(None)
    }
}

// Bytes, the records in them, and the number of the one that is refused; 0 where none is.
const FILES: &[(&[u8], &[u8], u64)] = &[
    (b"", b"", 0),
    (b"a,b\nc,d\n", b"a|b|;c|d|;", 0),
    (b"a,b\nc,d", b"a|b|;c|d|;", 0),
    (b"a,b\r\nc,d\r\n", b"a|b|;c|d|;", 0),
    (b"a\rb\r", b"a|;b|;", 0),
    (b"\n\n\r\na,b\n\n\nc\n", b"a|b|;c|;", 0),
    (b" \n", b" |;", 0),
    (b"\xEF\xBB\xBFa,b\n", b"a|b|;", 0),
    (b"a\n\xEF\xBB\xBFb\n", b"a|;\xEF\xBB\xBFb|;", 0),
    (b"\"a\",\"b\"\n", b"a|b|;", 0),
    (b"\"a,b\nc\"\n", b"a,b\nc|;", 0),
    (b"\"a\"\"b\"\n", b"a\"b|;", 0),
    (b"a\"b,c\"\n", b"a\"b|c\"|;", 0),
    (b"\"a\"b\n", b"ab|;", 0),
    (b"\"\"\n", b"|;", 0),
    (b"a,\"b\nc,d\n", b"a|b\nc,d\n|;", 0),
    (b" a , b \n", b" a | b |;", 0),
    (b"a,\n", b"a||;", 0),
    (b",,,\n", b"||||;", 0),
    (b"\xFF,\x00\n", b"\xFF|\x00|;", 0),
    (b"a,b,c,d\n", b"a|b|c|d|;", 0),
    (b"a\n\nb,c\nd,e,f\ng\nh,i,j\n", b"a|;b|c|;", 3),
];

// The records, and the number of the one that is refused; 0 where none is.
fn shown_of(alloc: Global, bytes: &[u8]) -> Result<(Vec<u8>, u64), Fail> {
    let mut shown = Shown {
        text: Vec::new(alloc),
    };
    match read_all(alloc, bytes, &mut shown) {
        Ok(()) => Ok((shown.text, 0)),
        Err(
            RowFault::Row {
                number,
                reason: Reason::Shape,
            },
        ) => Ok((shown.text, number)),
        Err(_) => Err(Fail::new("another reason")),
    }
}

fn is_shown(alloc: Global, bytes: &[u8], text: &[u8], refused: u64) -> Result<bool, Fail> {
    let (shown, number) = shown_of(alloc, bytes)?;
    Ok(shown.as_slice() == text && number == refused)
}

// The place of the first file whose records are others.
fn first_file(alloc: Global) -> Result<Option<usize>, Fail> {
    for (place, (bytes, text, refused)) in FILES.iter().enumerate() {
        if !is_shown(alloc, bytes, text, *refused)? {
            return Ok(Some(place));
        }
    }
    Ok(None)
}

#[test]
fn reads_records_as_csv_does(rt: HostRuntime) -> Result<(), Fail> {
    assert_eq!(rt; first_file(rt.alloc())?, None);
    Ok(())
}

// Two fields, and the numbers from 1 to 64 and from 0 to 9 that they are, or the reason for which they are refused.
const NUMBERS: &[(&str, &str, Result<(u64, u64), Reason>)] = &[
    ("1", "7", Ok((1, 7))),
    ("064", "0", Ok((64, 0))),
    ("0", "0", Err(Reason::OutOfRange)),
    ("65", "0", Err(Reason::OutOfRange)),
    ("-1", "0", Err(Reason::OutOfRange)),
    ("x", "0", Err(Reason::NotNumber)),
    ("0", "x", Err(Reason::NotNumber)),
    ("x", "10", Err(Reason::NotNumber)),
];

const CHANNELS: &[(&str, Option<Channel>)] = &[
    ("A", Some(Channel::A)),
    ("B", Some(Channel::B)),
    ("AB", None),
];

fn numbers_of(first: &str, second: &str) -> Result<(u64, u64), Reason> {
    let first = natural(first.as_bytes(), 1, 64);
    match both(first, natural(second.as_bytes(), 0, 9)) {
        Ok(numbers) => Ok(numbers),
        Err(fault) => Err(reason_of(fault)),
    }
}

fn first_numbers() -> Option<usize> {
    for (place, (first, second, numbers)) in NUMBERS.iter().enumerate() {
        if numbers_of(first, second) != *numbers {
            return Some(place);
        }
    }
    None
}

fn first_channel() -> Option<usize> {
    for (place, (text, channel)) in CHANNELS.iter().enumerate() {
        if Channel::spelt(text.as_bytes()) != *channel {
            return Some(place);
        }
    }
    None
}

#[test]
fn reads_fields(rt: HostRuntime) -> Result<(), Fail> {
    assert_eq!(rt; first_numbers(), None);
    assert_eq!(rt; first_channel(), None);
    Ok(())
}
