use crate::fault::PowerFault;
use fr_text::Piece::Word;
use fr_text::{Line, Shown, line_of, record_line};

impl Shown for PowerFault {
    ghost use Rattle.std.specs.Prelude.{codes};
    ghost use Rattle.fr_cold.specs.Told.{power_fault_text};

    ghost called = { codes "power" };

    ghost words = { power_fault_text };

    fn called() -> &'static [u8] {
        b"power"
    }

    fn line(&self, role: &[u8]) -> Line {
        match *self {
            PowerFault::Row { number, reason } => record_line(role, number, reason),
            PowerFault::MissingCycles => line_of(&[Word(role), Word(b": missing cycles")]),
            PowerFault::NoMemory => line_of(&[Word(role), Word(b": no memory")]),
        }
    }
}
