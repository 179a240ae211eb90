ghost use Rattle.std.specs.Prelude.{◌≡◌, ◌≤◌, ◌↔◌, ◌++◌, ◌∷◌, [], false, OnOk, OnErr, IfOk, IfSome, IsTrue, IsOk, vec_len, vec_capacity};
ghost use Rattle.std.proofs.Props.{props};
ghost use Rattle.fr_base.specs.Device.{PutsPiece, raised};
ghost use Rattle.fr_program.specs.PutLog.{LogHasRoom};

use crate::put_log::PutLog;
use fr_base::{PutFault, Sink};
use std::alloc::{AllocError, Global};

// How many puts a sink in memory keeps to tell them.
const PUTS_TOLD: usize = 100;

/// A sink in memory, with a room in bytes. A piece that does not fit the room fails, and so do the puts
/// that are chosen to. It tells its puts, failed ones too, as long as there are at most 100 and their
/// pieces have no more bytes than its room. Making it reserves the room twice, for its bytes and for the
/// pieces of the puts that it tells, and room for 100 puts besides. Counters stay at their last value.
pub struct MemorySink {
    bytes: Vec<u8>,
    room: usize,
    faults: u64,
    puts: u64,
    failing: Vec<u64>,
    log: Option<PutLog>,
    ghost reserved: { room ≤ vec_capacity bytes },
    ghost within: { vec_len bytes ≤ room },
    ghost telling: { IfSome log (LogHasRoom room 100) } by { Prim.hlevel props },
}

// One call: a derived drop is opened in each function that drops a value, and proved there.
impl Drop for MemorySink {
    fn drop(self) {
        let MemorySink {
            bytes: _,
            room: _,
            faults: _,
            puts: _,
            failing: _,
            log: _,
        } = self;
    }
}

impl MemorySink {
    ghost use Rattle.fr_program.specs.MemorySink.{bytes_in, failing_puts, takes, IsNewSink, KeepsSink};

    /// A sink of no bytes, with room for this many. `AllocError` where memory ran out.
    pub fn new(alloc: Global, room: usize) -> Result<MemorySink, AllocError>
        ensures { IfOk result (IsNewSink room) }
    {
        let bytes = Vec::with_capacity(alloc, room)?;
        let log = PutLog::new(alloc, room, PUTS_TOLD)?;
        Ok(MemorySink {
            bytes,
            room,
            faults: 0,
            puts: 0,
            failing: Vec::new(alloc),
            log: Some(log),
        })
    }

    /// The bytes put so far.
    pub fn bytes(&self) -> &[u8]
        ensures { result.now ≡ bytes_in self.now }
    {
        &self.bytes
    }

    /// Lists the put of this number, counted from 1, among those that are to fail. `AllocError` where memory
    /// ran out; then nothing changed.
    pub fn fail_at(&mut self, call: u64) -> Result<(), AllocError>
        ensures listed { OnOk result (failing_puts self.new ≡ failing_puts self.old ++ call ∷ []) }
        ensures unchanged { OnErr result (failing_puts self.new ≡ failing_puts self.old) }
        ensures kept { KeepsSink self.old self.new }
    {
        self.failing.push(call)?;
        Ok(())
    }

    // Whether the next put takes the piece.
    fn is_taken(&self, piece: &[u8]) -> bool
        ensures { result ≡ takes self.now piece.now }
    {
        let number = self.puts.saturating_add(1);
        !self.failing.contains(&number) && piece.len() <= self.room - self.bytes.len()
    }
}

impl Sink for MemorySink {
    ghost use Rattle.fr_program.specs.MemorySink.{bytes_in, sink_faults, sunk_in, takes, IsOnePutLater, TellsOn};

    ghost state = { sunk_in };

    fn put(&mut self, piece: &[u8]) -> Result<(), PutFault>
        // what every sink promises
        ensures promised { PutsPiece result (sunk_in self.old) (sunk_in self.new) piece.now }

        // It takes a piece whole or not at all, and fails exactly where the put is listed or the piece
        // does not fit.
        ensures takes { IsTrue (takes self.old piece.now) ↔ IsOk result }
        ensures nothing { OnErr result (bytes_in self.new ≡ bytes_in self.old) }
        ensures counted { OnErr result (sink_faults self.new ≡ raised (sink_faults self.old)) }
        ensures quiet { OnOk result (sink_faults self.new ≡ sink_faults self.old) }
        ensures later { IsOnePutLater self.old self.new }

        // It tells this put too exactly where it told all others and has room to keep it.
        ensures told { TellsOn self.old self.new piece.now }
    {
        let taken = self.is_taken(piece);
        self.puts = self.puts.saturating_add(1);
        let log = self.log.take();
        if taken && self.bytes.extend_from_slice(piece).is_ok() {
            self.log = PutLog::noted(log, piece, true);
            return Ok(());
        }
        self.log = PutLog::noted(log, piece, false);
        self.faults = self.faults.saturating_add(1);
        Err(PutFault::Failed)
    }
}
