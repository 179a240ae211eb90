use crate::fault::LogFault;
use fr_text::Piece::Word;
use fr_text::{Line, Shown, line_of, record_line};

impl Shown for LogFault {
    ghost use Rattle.std.specs.Prelude.{codes};
    ghost use Rattle.fr_log.specs.Told.{log_fault_text};

    ghost called = { codes "log" };

    ghost words = { log_fault_text };

    fn called() -> &'static [u8] {
        b"log"
    }

    fn line(&self, role: &[u8]) -> Line {
        match *self {
            LogFault::Row { number, reason } => record_line(role, number, reason),
            LogFault::MissingUnit => line_of(&[Word(role), Word(b": missing unit")]),
            LogFault::MissingDrift => line_of(&[Word(role), Word(b": missing drift")]),
            LogFault::MissingDelay => line_of(&[Word(role), Word(b": missing delay")]),
            LogFault::NoMemory => line_of(&[Word(role), Word(b": no memory")]),
        }
    }
}
