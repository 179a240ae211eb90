ghost use Rattle.std.specs.Prelude.{◌≡◌, [], ◌++◌, take, length, IsTrue, OnOk, OnErr};
ghost use Rattle.fr_base.specs.Device.{IsEnded, Puts, PutsPiece};
ghost use Rattle.fr_program.specs.Gathered.{AreLines, Gathers, gathered_state};

use fr_base::{PutFault, Sink};
use fr_text::put_text;
use std::alloc::Global;
use std::marker::Model;

// How many bytes may wait: as many as are put, and behind them the lines of a cycle of the largest cluster.
const ROOM: usize = 147_456;

// How many bytes are many: so many are put when they are there.
const MANY: usize = 65_536;

/// Lines that wait, so that many of them go in one put. It is a sink with room for 147,456 bytes, which takes memory for
/// them once, and as they come where there was none then. A piece fails that does not fit, or for which there is no
/// memory, or that does not end with a line feed. The count of faults stays at its last value.
#[derive(Drop)]
pub struct Gathered {
    bytes: Vec<u8>,
    faults: u64,
}

impl Model for Gathered {
    ghost use Rattle.fr_program.specs.Gathered.{AreLines, GatheredView};

    ghost Value = { GatheredView };

    ghost view = { λ g. record { bytes = g.bytes.items; faults = g.faults } };

    ghost invariant = { λ g. AreLines g.bytes.items };
}

impl Gathered {
    /// No lines.
    pub fn new(alloc: Global) -> Gathered
        ensures { result.bytes ≡ [] }
    {
        let bytes = match Vec::with_capacity(alloc, ROOM) {
            Ok(bytes) => bytes,
            Err(_) => Vec::new(alloc),
        };
        Gathered { bytes, faults: 0 }
    }

    /// How many bytes wait.
    pub fn len(&self) -> usize
        ensures long { result ≡ length self.now.bytes }
        ensures lines { AreLines self.now.bytes }
    {
        self.bytes.len()
    }

    /// Lets a text of whole lines wait, and puts all that waits where it is much. A fault comes only where the sink
    /// counted it, and then a front of all this was put.
    pub fn add<O: Sink>(&mut self, text: &[u8], out: &mut O) -> Result<(), PutFault>
        requires { IsEnded text.now }
        ensures { Gathers result self.old.bytes self.new.bytes (O.state out.old) (O.state out.new) text.now }
    {
        if self.put(text).is_ok() {
            return self.put_many(out);
        }
        self.put_all(out)?;
        put_text(text, out)
    }

    /// Puts all that waits where it is much, 65,536 bytes or more. A fault comes only where the sink counted it, and
    /// then a front of this was put.
    pub fn put_many<O: Sink>(&mut self, out: &mut O) -> Result<(), PutFault>
        ensures { Gathers result self.old.bytes self.new.bytes (O.state out.old) (O.state out.new) [] }
    {
        if self.bytes.len() < MANY {
            return Ok(());
        }
        self.put_all(out)
    }

    /// Puts all that waits, in whole lines. A fault comes only where the sink counted it,
    /// and then a front of this was put. Nothing waits any more.
    pub fn put_all<O: Sink>(&mut self, out: &mut O) -> Result<(), PutFault>
        ensures puts { Puts result (O.state out.old) (O.state out.new) self.old.bytes }
        ensures emptied { self.new.bytes ≡ [] }
    {
        let put = put_waiting(&self.bytes, out);
        self.bytes.clear();
        put
    }

    /// Drops what waits behind so many bytes, and puts these as `put_all` does.
    pub fn put_front<O: Sink>(&mut self, len: usize, out: &mut O) -> Result<(), PutFault>
        requires { AreLines (take len self.old.bytes) }
        ensures puts { Puts result (O.state out.old) (O.state out.new) (take len self.old.bytes) }
        ensures emptied { self.new.bytes ≡ [] }
    {
        self.bytes.truncate(len);
        self.put_all(out)
    }
}

impl Sink for Gathered {
    ghost use Rattle.fr_program.specs.Gathered.{gathered_state};

    ghost state = { gathered_state };

    fn put(&mut self, piece: &[u8]) -> Result<(), PutFault>
        // what every sink promises that tells no puts
        ensures promised { PutsPiece result (gathered_state self.old) (gathered_state self.new) piece.now }

        // It takes a piece whole or not at all.
        ensures nothing { OnErr result (self.new.bytes ≡ self.old.bytes) }
    {
        if is_line(piece) && append_lines(&mut self.bytes, piece).is_ok() {
            return Ok(());
        }
        self.faults = self.faults.saturating_add(1);
        Err(PutFault::Failed)
    }
}

// Whether a piece ends with a line feed.
fn is_line(piece: &[u8]) -> bool
    ensures { IsTrue result → IsEnded piece.now }
{
    piece.last() == Some(&b'\n')
}

// Appends whole lines to others, where they fit and there is memory for them.
fn append_lines(bytes: &mut Vec<u8>, lines: &[u8]) -> Result<(), PutFault>
    requires { IsEnded lines.now }
    ensures taken { OnOk result (bytes.new.items ≡ bytes.old.items ++ lines.now) }
    ensures untaken { OnErr result (bytes.new.items ≡ bytes.old.items) }
    ensures lines { AreLines bytes.old.items → AreLines bytes.new.items }
{
    append(bytes, lines)
}

fn append(bytes: &mut Vec<u8>, piece: &[u8]) -> Result<(), PutFault>
    ensures taken { OnOk result (bytes.new.items ≡ bytes.old.items ++ piece.now) }
    ensures untaken { OnErr result (bytes.new.items ≡ bytes.old.items) }
{
    if bytes.len() > ROOM || piece.len() > ROOM - bytes.len() {
        return Err(PutFault::Failed);
    }
    match bytes.extend_from_slice(piece) {
        Ok(()) => Ok(()),
        Err(_) => Err(PutFault::Failed),
    }
}

// Puts whole lines, or nothing where there are none.
fn put_waiting<O: Sink>(lines: &[u8], out: &mut O) -> Result<(), PutFault>
    requires { AreLines lines.now }
    ensures { Puts result (O.state out.old) (O.state out.new) lines.now }
{
    if lines.is_empty() {
        return Ok(());
    }
    put_text(lines, out)
}
