use crate::fault::DriftFault;
use fr_text::Piece::Word;
use fr_text::{Line, Shown, line_of, record_line};

impl Shown for DriftFault {
    ghost use Rattle.std.specs.Prelude.{codes};
    ghost use Rattle.fr_drift.specs.Told.{drift_fault_text};

    ghost called = { codes "drift" };

    ghost words = { drift_fault_text };

    fn called() -> &'static [u8] {
        b"drift"
    }

    fn line(&self, role: &[u8]) -> Line {
        match *self {
            DriftFault::Row { number, reason } => record_line(role, number, reason),
            DriftFault::MissingDoubles => line_of(&[Word(role), Word(b": missing doubles")]),
            DriftFault::NoMemory => line_of(&[Word(role), Word(b": no memory")]),
        }
    }
}
