use super::{DiskShelf, StreamSink, load_from, read_whole};
use crate::watched::Watched;
use fr_base::{LoadFault, MAX_FILE, PutFault, Shelf, Sink};
use std::alloc::Global;
use std::io::{ErrorKind, Read, Write};
use std::test::Fail;
use std::{fs, io};

// Gives a byte a call, so many of them, and then an error or the end.
#[derive(Drop)]
struct Giver {
    left: usize,
    is_broken: bool,
}

impl Read for Giver {
    fn read(&mut self, buf: &mut [u8]) -> io::Result<usize> {
        if buf.is_empty() {
            return Ok(0);
        }
        if self.left == 0 {
            return if self.is_broken {
                Err(io::Error::from(ErrorKind::Other))
            } else {
                Ok(0)
            };
        }
        self.left -= 1;
        buf[0] = b'x';
        Ok(1)
    }
}

// Takes a byte a call, so many of them, and then none, or an error.
#[derive(Drop)]
struct Taker {
    room: usize,
    is_broken: bool,
    flush_is_broken: bool,
}

impl Write for Taker {
    fn write(&mut self, buf: &[u8]) -> io::Result<usize> {
        if self.room == 0 {
            return if self.is_broken {
                Err(io::Error::from(ErrorKind::Other))
            } else {
                Ok(0)
            };
        }
        self.room -= 1;
        Ok(buf.len().min(1))
    }

    fn flush(&mut self) -> io::Result<()> {
        if self.flush_is_broken {
            Err(io::Error::from(ErrorKind::Other))
        } else {
            Ok(())
        }
    }
}

// Gives so many bytes, as many at once as are asked for: all are `x`, and the last is `z`.
#[derive(Drop)]
struct Filler {
    left: usize,
}

impl Read for Filler {
    fn read(&mut self, buf: &mut [u8]) -> io::Result<usize> {
        let count = self.left.min(buf.len());
        buf[..count].fill(b'x');
        if count > 0 && count == self.left {
            buf[count - 1] = b'z';
        }
        self.left -= count;
        Ok(count)
    }
}

// How many bytes are loaded of so many, and what the last one is; or why none is, and how often that was counted.
fn loaded_of(alloc: Global, count: usize) -> (Result<(), LoadFault>, usize, Option<u8>, u64) {
    let mut faults = 7;
    let mut bytes = Vec::new(alloc);
    let mut filler = Watched::new(Filler { left: count });
    let answer = load_from(&mut filler, &mut faults, &mut bytes);
    (answer, bytes.len(), bytes.last().copied(), faults)
}

#[test]
fn a_file_is_loaded_whole_or_is_too_long(rt: HostRuntime) {
    for count in [1, 4_096, 65_536, 65_537, 131_072, MAX_FILE] {
        assert!(rt; loaded_of(rt.alloc(), count) == (Ok(()), count, Some(b'z'), 7));
    }
    assert!(rt; loaded_of(rt.alloc(), 0) == (Ok(()), 0, None, 7));
    let too_long = Err(LoadFault::TooLong { seen: 16_777_217 });
    assert!(rt; loaded_of(rt.alloc(), MAX_FILE + 1) == (too_long, 0, None, 7));
}

// Takes a byte a call, and keeps how many it has taken since it was last flushed, and how often it was.
#[derive(Drop)]
struct Holder {
    unflushed: usize,
    flushes: usize,
}

impl Write for Holder {
    fn write(&mut self, buf: &[u8]) -> io::Result<usize> {
        let count = buf.len().min(1);
        self.unflushed = self.unflushed.saturating_add(count);
        Ok(count)
    }

    fn flush(&mut self) -> io::Result<()> {
        self.unflushed = 0;
        self.flushes = self.flushes.saturating_add(1);
        Ok(())
    }
}

#[test]
fn nothing_is_unflushed_behind_a_put(rt: HostRuntime) {
    let mut sink = StreamSink::new(Holder {
        unflushed: 0,
        flushes: 0,
    });
    for (piece, flushes) in [(b"a line\n".as_slice(), 1), (b"x", 2), (b"and more\n", 3)] {
        assert!(rt; sink.put(piece).is_ok());
        assert_eq!(rt; sink.stream.unflushed, 0);
        assert_eq!(rt; sink.stream.flushes, flushes);
    }
}

#[test]
fn broken_streams_are_noticed(rt: HostRuntime) -> Result<(), Fail> {
    for (is_broken, answer) in [(false, Ok(())), (true, Err(LoadFault::Failed))] {
        let mut bytes = Vec::new(rt.alloc());
        let mut giver = Watched::new(Giver { left: 3, is_broken });
        assert_eq!(rt; read_whole(&mut giver, &mut bytes), answer);
        assert_eq!(rt; bytes.as_slice(), b"xxx".as_slice());
    }
    let failed = Err(PutFault::Failed);
    for (room, is_broken, flush_is_broken, answer) in [
        (3, false, false, Ok(())),
        (2, false, false, failed),
        (2, true, false, failed),
        (3, false, true, failed),
    ] {
        let mut sink = StreamSink::new(Taker {
            room,
            is_broken,
            flush_is_broken,
        });
        assert_eq!(rt; sink.put(b"abc"), answer);
    }
    Ok(())
}

// A fault is counted once, and nothing else is.
#[test]
fn the_real_devices_count(rt: HostRuntime) -> Result<(), Fail> {
    let alloc = rt.alloc();
    fs::write(&rt, "counted", b"bytes")?;
    fs::write(&rt, "longer", &vec![in alloc; 0; MAX_FILE + 1]?)?;
    let too_long = Err(LoadFault::TooLong { seen: 16_777_217 });
    let mut shelf = DiskShelf::new(&rt);
    for (name, answer, faults) in [
        ("counted", Ok(()), 0),
        ("no such file", Err(LoadFault::Failed), 1),
        ("longer", too_long, 1),
        ("", Err(LoadFault::Failed), 2),
        ("counted", Ok(()), 2),
    ] {
        let mut bytes = Vec::new(alloc);
        assert_eq!(rt; shelf.load(name, &mut bytes), answer);
        assert_eq!(rt; shelf.faults, faults);
    }
    shelf.faults = u64::MAX;
    let mut bytes = Vec::new(alloc);
    assert_eq!(rt;
        shelf.load("no such file", &mut bytes),
        Err(LoadFault::Failed)
    );
    assert_eq!(rt; shelf.faults, u64::MAX);

    let mut sink = StreamSink::new(Taker {
        room: 3,
        is_broken: false,
        flush_is_broken: false,
    });
    for (piece, answer, faults) in [
        (b"ab".as_slice(), Ok(()), 0),
        (b"cd", Err(PutFault::Failed), 1),
        (b"", Ok(()), 1),
        (b"e", Err(PutFault::Failed), 2),
    ] {
        assert_eq!(rt; sink.put(piece), answer);
        assert_eq!(rt; sink.faults, faults);
    }
    Ok(())
}
