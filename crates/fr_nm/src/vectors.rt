ghost use Rattle.std.specs.Prelude.{◌≡◌, ◌≤◌, ◌<◌, ◌+◌, ◌-◌, ◌^◌, ◌↔◌, ◌++◌, ◌∷◌, [], List, Some, IfOk, IfSome, OnOk, OnErr, IsTrue, false};
ghost use Rattle.std.specs.Option.{option_copied};
ghost use Rattle.fr_nm.specs.Vectors.{Counts, Recorded, merged, one_frame, vector_record};
ghost use Rattle.fr_nm.specs.View.{IsRowPut, VectorsStandFor};

use crate::counting::vector_of;
use crate::fault::VectorFault;
use crate::vector::{Folded, or_bytes};
use fr_base::Channel;
use std::alloc::{AllocError, Global};
use std::collections::BTreeMap;
use std::marker::Model;

/// The vectors of a recording, cycle by cycle, and how many of its records count and how many do not.
pub struct Vectors {
    pub(crate) width: usize,
    pub(crate) rows: BTreeMap<u32, Folded>,
    pub(crate) frames: u64,
    pub(crate) ignored: u64,
}

impl Model for Vectors {
    ghost use Rattle.fr_nm.specs.View.{VectorsView, IsFolding};
    ghost use Rattle.fr_nm.specs.Inside.{vectors_view_of};

    ghost Value = { VectorsView };

    ghost view = { vectors_view_of };

    ghost invariant = { λ a. IsFolding (vectors_view_of a) };
}

// One call: a derived drop is opened in each function that drops a value, and proved there.
impl Drop for Vectors {
    fn drop(self) {
        let Vectors {
            width: _,
            rows: _,
            frames: _,
            ignored: _,
        } = self;
    }
}

impl Vectors {
    /// The vectors of no records, of so many bytes each, 1 to 12. It takes no memory.
    pub fn new(alloc: Global, width: usize) -> Vectors
        requires from { 1 ≤ width }
        requires to { width ≤ 12 }
        ensures width { result.width ≡ width }
        ensures stands { VectorsStandFor result [] }
    {
        Vectors {
            width,
            rows: BTreeMap::new(alloc),
            frames: 0,
            ignored: 0,
        }
    }

    /// Adds a record: bytes that were seen on a channel in a cycle. True exactly where it counts: the bytes are a
    /// frame on the channel whose preamble and null frame indicators are set, whose cycle count is the cycle modulo
    /// 64, and whose payload has as many bytes as a vector (section 4.3.1 of the standard). After `NoMemory` nothing
    /// changed.
    pub fn add(&mut self, cycle: u32, channel: Channel, bytes: &[u8]) -> Result<bool, VectorFault>
        requires cycle { cycle ≤ 199_999 }
        requires room { self.old.frames + self.old.ignored < 2 ^ 63 - 1 }
        ensures counts { IfOk result (λ b. IsTrue b ↔ Counts self.old.width (vector_record cycle channel bytes.now)) }
        ensures width { self.new.width ≡ self.old.width }
        ensures stands { OnOk result ((records : List Recorded) → VectorsStandFor self.old records →
            VectorsStandFor self.new (records ++ vector_record cycle channel bytes.now ∷ [])) }
        ensures unchanged { OnErr result (self.new ≡ self.old) }
    {
        match vector_of(self.width, cycle, channel, bytes) {
            None => {
                self.ignored += 1;
                Ok(false)
            }
            Some(vector) => {
                let row = more(self.rows.get(&cycle), vector);
                put(&mut self.rows, cycle, row)?;
                self.frames += 1;
                Ok(true)
            }
        }
    }

    // Whether no more records can be added.
    pub(crate) fn is_full(&self) -> bool
        ensures { result ≡ false → self.now.frames + self.now.ignored < 2 ^ 63 - 1 }
    {
        self.frames >= (1 << 63) - 1 || self.ignored >= (1 << 63) - 1 - self.frames
    }
}

// The frames of a cycle with one more.
fn more(row: Option<&Folded>, vector: [u8; 12]) -> Folded
    requires { IfSome (option_copied row) (λ f. f.frames < 2 ^ 63) }
    ensures { Some result ≡ merged (option_copied row.entry) (one_frame (Some vector)) }
{
    match row {
        None => Folded { vector, frames: 1 },
        Some(row) => Folded {
            vector: or_bytes(row.vector, vector),
            frames: row.frames + 1,
        },
    }
}

// Puts the frames of a cycle in place of those that it had.
fn put(rows: &mut BTreeMap<u32, Folded>, cycle: u32, row: Folded) -> Result<(), AllocError>
    ensures put { OnOk result (IsRowPut rows.old rows.new cycle row) }
    ensures unchanged { OnErr result (rows.new.entries ≡ rows.old.entries) }
{
    rows.insert(cycle, row)?;
    Ok(())
}
