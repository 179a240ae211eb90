use crate::fault::FileFault;
use fr_text::Piece::Word;
use fr_text::{Line, Shown, line_of, record_line};

impl Shown for FileFault {
    ghost use Rattle.std.specs.Prelude.{codes};
    ghost use Rattle.fr_nm.specs.Told.{vectors_fault_text};

    ghost called = { codes "vectors" };

    ghost words = { vectors_fault_text };

    fn called() -> &'static [u8] {
        b"vectors"
    }

    fn line(&self, role: &[u8]) -> Line {
        match *self {
            FileFault::Row { number, reason } => record_line(role, number, reason),
            FileFault::NoMemory => line_of(&[Word(role), Word(b": no memory")]),
        }
    }
}
