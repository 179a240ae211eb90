ghost use Rattle.std.specs.Prelude.{◌≡◌, ◌≤◌, IfOk};
ghost use Rattle.fr_text.specs.Kind.{Reads};
ghost use Rattle.fr_nm.specs.Files.{vectors_file};

use crate::fault::FileFault;
use crate::reading::Reading;
use crate::vectors::Vectors;
use fr_text::{RowFault, read_all};
use std::alloc::Global;

/// Folds the vectors of a recording, of so many bytes each, 1 to 12. It accepts exactly the files of which no record is
/// refused, the empty one among them; the answer is what the file stands for.
///
/// Its only refusal is `Row`, the first record that is refused, by its number from 1, with the least reason that holds.
/// `NoMemory` comes where memory ran out.
pub fn fold(alloc: Global, width: usize, bytes: &[u8]) -> Result<Vectors, FileFault>
    requires from { 1 ≤ width }
    requires to { width ≤ 12 }
    ensures reads { Reads (vectors_file width) bytes.now result }
    ensures sound { IfOk result (λ v. v.width ≡ width) }
{
    let mut reading = Reading {
        alloc,
        vectors: Vectors::new(alloc, width),
    };
    match read_all(alloc, bytes, &mut reading) {
        Ok(()) => {}
        Err(RowFault::Row { number, reason }) => return Err(FileFault::Row { number, reason }),
        Err(RowFault::NoMemory) => return Err(FileFault::NoMemory),
    }
    // No clause of the loop says that a table keeps its width, and this one does.
    if reading.vectors.width != width {
        return Err(FileFault::NoMemory);
    }
    Ok(reading.vectors)
}
