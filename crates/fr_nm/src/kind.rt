ghost use Rattle.std.specs.Prelude.{◌≡◌, ◌≤◌};

use crate::{FileFault, Vectors, fold};
use fr_text::FileKind;
use std::alloc::Global;
use std::marker::Model;

/// The kind of a recording whose vectors have so many bytes, which is what contracts see.
#[derive(Drop)]
pub struct VectorsFile {
    width: usize,
}

impl Model for VectorsFile {
    ghost use Rattle.std.specs.Prelude.{ℕ, ◌≤◌};

    ghost Value = { ℕ };

    ghost view = { λ file. file.width };

    ghost invariant = { λ file. (1 ≤ file.width) × (file.width ≤ 12) };
}

impl VectorsFile {
    /// The kind of a recording with vectors of so many bytes, 1 to 12.
    pub fn of(width: usize) -> VectorsFile
        requires from { 1 ≤ width }
        requires to { width ≤ 12 }
        ensures { result ≡ width }
    {
        VectorsFile { width }
    }
}

impl FileKind for VectorsFile {
    ghost use Rattle.fr_nm.specs.Files.{vectors_file};

    type Value = Vectors;

    type Fault = FileFault;

    ghost kind = { λ width. vectors_file width };

    fn read(&self, alloc: Global, bytes: &[u8]) -> Result<Vectors, FileFault> {
        fold(alloc, self.width, bytes)
    }

    fn is_no_memory(&self, fault: &FileFault) -> bool {
        *fault == FileFault::NoMemory
    }
}
