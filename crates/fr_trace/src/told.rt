use crate::fault::TraceFault;
use fr_text::Piece::{Natural, Word};
use fr_text::{Line, Shown, line_of, record_line};

impl Shown for TraceFault {
    ghost use Rattle.std.specs.Prelude.{codes};
    ghost use Rattle.fr_trace.specs.Told.{trace_fault_text};

    ghost called = { codes "trace" };

    ghost words = { trace_fault_text };

    fn called() -> &'static [u8] {
        b"trace"
    }

    fn line(&self, role: &[u8]) -> Line {
        match *self {
            TraceFault::Row { number, reason } => record_line(role, number, reason),
            TraceFault::Incomplete { rows } => {
                line_of(&[Word(role), Word(b": incomplete "), Natural(rows)])
            }
            TraceFault::NoMemory => line_of(&[Word(role), Word(b": no memory")]),
        }
    }
}
