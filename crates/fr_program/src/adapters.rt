ghost use Rattle.std.specs.Prelude.{◌≡◌, ◌≤◌, ◌<◌, ◌↔◌, [], false, length, take, OnOk, OnErr, IfOk, IfErr, IsErrOf, IsTrue, vec_len};
ghost use Rattle.std.specs.Io.KnownBytes.{Appends, Keeps};
ghost use Rattle.fr_base.specs.Device.{AppendsFront, IsHeld, IsLoaded, IsOneLoadLater, PutsPiece, SeesTooLong, StopsLoad, raised};
ghost use Rattle.fr_program.specs.Watched.{has_failed, reader_of};

use crate::watched::Watched;
use fr_base::{LoadFault, MAX_FILE, PutFault, Shelf, Sink};
use std::fs;
use std::io::{Read, Write};
use std::rt::Files;

// How many bytes are read at once.
const CHUNK: usize = 16_384;

/// A shelf over the files of a runtime. It tells no content and no name that it was asked for, and has one count of faults
/// for all names: each error of the file system is a fault of every name. The count stays at its last value.
#[derive(Drop)]
pub struct DiskShelf<R: Files + Drop> {
    files: R,
    faults: u64,
}

impl<R: Files + Drop> DiskShelf<R> {
    ghost use Rattle.fr_program.specs.DiskShelf.{disk_faults};

    /// A shelf over the files, with no fault counted.
    pub fn new(files: R) -> DiskShelf<R>
        ensures { disk_faults result ≡ 0 }
    {
        DiskShelf { files, faults: 0 }
    }
}

impl<R: Files + Drop> Shelf for DiskShelf<R> {
    ghost use Rattle.fr_program.specs.DiskShelf.{disk_faults, disk_state};

    ghost state = { disk_state };

    fn load(&mut self, name: &str, into: &mut Vec<u8>) -> Result<(), LoadFault>
        requires { into.old.items ≡ [] }

        // what every shelf promises
        ensures loaded { OnOk result (IsLoaded (disk_state self.old) name.now into.new.items) }
        ensures stops { IfErr result (StopsLoad (disk_state self.old) (disk_state self.new) name.now) }
        ensures emptied { OnErr result (into.new.items ≡ []) }
        ensures later { IsOneLoadLater (disk_state self.old) (disk_state self.new) name.now }

        // A failure is counted once, and nothing else is.
        ensures counted { IsErrOf result LoadFault.Failed → disk_faults self.new ≡ raised (disk_faults self.old) }
        ensures quiet { (IsErrOf result LoadFault.Failed → ⊥) → disk_faults self.new ≡ disk_faults self.old }
    {
        match fs::open(&self.files, name) {
            Ok(file) => load_from(&mut Watched::new(file), &mut self.faults, into),
            Err(_) => unopened(&mut self.faults),
        }
    }
}

/// A sink over a stream. It tells no content and no puts; each error of the stream is a counted fault. Every piece
/// is flushed.
#[derive(Drop)]
pub struct StreamSink<W: Write + Drop> {
    stream: W,
    faults: u64,
}

impl<W: Write + Drop> StreamSink<W> {
    ghost use Rattle.fr_program.specs.StreamSink.{stream_of, stream_faults};

    /// A sink over the stream, with no fault counted.
    pub fn new(stream: W) -> StreamSink<W>
        ensures stream { stream_of result ≡ stream }
        ensures none_counted { stream_faults result ≡ 0 }
    {
        StreamSink { stream, faults: 0 }
    }
}

impl<W: Write + Drop> Sink for StreamSink<W> {
    ghost use Rattle.fr_program.specs.StreamSink.{stream_of, stream_faults, stream_state};

    ghost state = { stream_state };

    fn put(&mut self, piece: &[u8]) -> Result<(), PutFault>
        // what every sink promises that tells no bytes and no puts
        ensures promised { PutsPiece result (stream_state self.old) (stream_state self.new) piece.now }

        // A fault is counted once, and nothing else is.
        ensures counted { OnErr result (stream_faults self.new ≡ raised (stream_faults self.old)) }
        ensures quiet { OnOk result (stream_faults self.new ≡ stream_faults self.old) }

        // Where the stream says what it holds, that grew by the piece, or by a front of it.
        ensures whole { OnOk result
            (Appends (W.Write.contents (stream_of self.old)) (W.Write.contents (stream_of self.new)) piece.now) }
        ensures front { OnErr result
            (AppendsFront (W.Write.contents (stream_of self.old)) (W.Write.contents (stream_of self.new)) piece.now) }
    {
        let put = write_whole(&mut self.stream, piece);
        if put.is_err() {
            self.faults = self.faults.saturating_add(1);
        }
        put
    }
}

// Loads all that an open file has left, no byte more or less, and counts a fault exactly where a read of it failed.
fn load_from<F: Read>(
    file: &mut Watched<F>,
    faults: &mut u64,
    into: &mut Vec<u8>,
) -> Result<(), LoadFault>
    requires empty { into.old.items ≡ [] }
    requires unfailed { has_failed file.old ≡ false }
    ensures whole { OnOk result (IsHeld (F.Read.remaining (reader_of file.old)) into.new.items) }
    ensures fits { OnOk result (vec_len into.new ≤ MAX_FILE) }
    ensures too_long { IfErr result (SeesTooLong (F.Read.remaining (reader_of file.old))) }
    ensures failed { IsErrOf result LoadFault.Failed ↔ IsTrue (has_failed file.new) }
    ensures emptied { OnErr result (into.new.items ≡ []) }
    ensures counted { IsErrOf result LoadFault.Failed → faults.new ≡ raised faults.old }
    ensures quiet { (IsErrOf result LoadFault.Failed → ⊥) → faults.new ≡ faults.old }
    ensures never_falls { faults.old ≤ faults.new }
{
    let loaded = read_whole(file, into);
    if loaded.is_err() {
        into.clear();
    }
    if loaded == Err(LoadFault::Failed) {
        *faults = faults.saturating_add(1);
    }
    loaded
}

// A file that can't be opened is a fault.
fn unopened(faults: &mut u64) -> Result<(), LoadFault>
    ensures failed { IsErrOf result LoadFault.Failed }
    ensures counted { faults.new ≡ raised faults.old }
    ensures never_falls { faults.old ≤ faults.new }
{
    *faults = faults.saturating_add(1);
    Err(LoadFault::Failed)
}

// Reads a file to its end, or until it is seen to be too long: at most one turn for each byte of the limit
// and one turn more, which finds the end or the byte too much.
fn read_whole<F: Read>(file: &mut Watched<F>, into: &mut Vec<u8>) -> Result<(), LoadFault>
    requires empty { into.old.items ≡ [] }
    requires unfailed { has_failed file.old ≡ false }
    ensures whole { OnOk result (IsHeld (F.Read.remaining (reader_of file.old)) into.new.items) }
    ensures fits { OnOk result (vec_len into.new ≤ MAX_FILE) }
    ensures too_long { IfErr result (SeesTooLong (F.Read.remaining (reader_of file.old))) }
    ensures failed { IsErrOf result LoadFault.Failed ↔ IsTrue (has_failed file.new) }
{
    let mut chunk = [0; CHUNK];
    'turns: for turn in 0..=MAX_FILE {
        let Ok(given) = file.read(&mut chunk) else {
            return Err(LoadFault::Failed);
        };
        if given == 0 {
            return Ok(());
        }
        let seen = into.len() + given;
        if seen > MAX_FILE {
            return Err(LoadFault::TooLong { seen: seen as u64 });
        }
        if into.extend_from_slice(&chunk[..given]).is_err() {
            return Err(LoadFault::NoMemory);
        }
    }
    unreachable!()
}

// Writes a piece to its end, and flushes: at most one turn for each byte of it and one turn more. A write
// that takes nothing is a failure.
fn write_whole<W: Write>(stream: &mut W, piece: &[u8]) -> Result<(), PutFault>
    ensures whole { OnOk result (Appends (W.contents stream.old) (W.contents stream.new) piece.now) }
    ensures front { OnErr result (AppendsFront (W.contents stream.old) (W.contents stream.new) piece.now) }
{
    let mut rest = piece;
    'turns: for turn in 0..=piece.len() {
        if rest.is_empty() {
            return flushed(stream);
        }
        match write_some(stream, rest) {
            Ok(count) => {
                let (_, after) = rest.split_at(count);
                rest = after;
            }
            Err(fault) => return Err(fault),
        }
    }
    unreachable!()
}

// Writes a front of what is left, which is not empty, and answers its number of bytes, at least 1.
fn write_some<W: Write>(stream: &mut W, rest: &[u8]) -> Result<usize, PutFault>
    ensures some { IfOk result (λ count. 0 < count) }
    ensures within { IfOk result (λ count. count ≤ length rest.now) }
    ensures taken { IfOk result (λ count.
        Appends (W.contents stream.old) (W.contents stream.new) (take count rest.now)) }
    ensures nothing { OnErr result (Keeps (W.contents stream.old) (W.contents stream.new)) }
{
    match stream.write(rest) {
        Ok(count) => {
            if count == 0 {
                return Err(PutFault::Failed);
            }
            Ok(count)
        }
        Err(_) => Err(PutFault::Failed),
    }
}

fn flushed<W: Write>(stream: &mut W) -> Result<(), PutFault>
    ensures { Keeps (W.contents stream.old) (W.contents stream.new) }
{
    match stream.flush() {
        Ok(()) => Ok(()),
        Err(_) => Err(PutFault::Failed),
    }
}

#[cfg(test)]
mod tests;
