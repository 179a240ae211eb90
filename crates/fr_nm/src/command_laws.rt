ghost use Rattle.std.specs.Prelude.{ℕ};
ghost use Rattle.fr_text.specs.Files.{IsDecided};
ghost use Rattle.fr_nm.specs.NmAnswer.{nm_files};

use crate::one_answer;

/// A law: the bytes of the file and the width decide what is written. Two texts that the answer's clause allows for
/// files of the same bytes are the same.
pub fn file_decides_the_vectors()
    ensures { (width : ℕ) → IsDecided (nm_files width) }
{
    one_answer();
}
