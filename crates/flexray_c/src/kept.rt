ghost use Rattle.std.specs.Prelude.{◌≡◌, ◌↔◌, [], OnErr, OnOk, IsTrue};
ghost use Rattle.fr_base.specs.Device.{PutsPiece, raised};
ghost use Rattle.flexray_c.specs.Kept.{kept, kept_bytes, kept_faults, kept_state};

use fr_base::{PutFault, Sink};
use std::alloc::Global;

/// A sink that keeps what is put, whole. A put fails only where memory ran out, and then nothing of its piece was put. The
/// counter of faults stays at its last value.
#[derive(Drop)]
pub struct KeptText {
    bytes: Vec<u8>,
    faults: u64,
}

impl KeptText {
    /// A sink of no bytes. It takes no memory.
    pub fn new(alloc: Global) -> KeptText
        ensures { kept_state result ≡ kept [] }
    {
        KeptText {
            bytes: Vec::new(alloc),
            faults: 0,
        }
    }

    /// The bytes put so far.
    pub fn bytes(&self) -> &[u8]
        ensures { result.now ≡ kept_bytes self.now }
    {
        &self.bytes
    }

    /// Whether no put has failed.
    pub fn is_whole(&self) -> bool
        ensures { IsTrue result ↔ (kept_faults self.now ≡ 0) }
    {
        self.faults == 0
    }
}

impl Sink for KeptText {
    ghost state = { kept_state };

    fn put(&mut self, piece: &[u8]) -> Result<(), PutFault>
        // what every sink promises
        ensures promised { PutsPiece result (kept_state self.old) (kept_state self.new) piece.now }

        // A fault is counted once, and nothing else is.
        ensures counted { OnErr result (kept_faults self.new ≡ raised (kept_faults self.old)) }
        ensures quiet { OnOk result (kept_faults self.new ≡ kept_faults self.old) }
    {
        if self.bytes.extend_from_slice(piece).is_ok() {
            return Ok(());
        }
        self.faults = self.faults.saturating_add(1);
        Err(PutFault::Failed)
    }
}
