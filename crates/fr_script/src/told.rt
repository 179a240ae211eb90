use crate::fault::ScriptFault;
use fr_text::Piece::Word;
use fr_text::{Line, Shown, line_of, record_line};

impl Shown for ScriptFault {
    ghost use Rattle.std.specs.Prelude.{codes};
    ghost use Rattle.fr_script.specs.Told.{script_fault_text};

    ghost called = { codes "script" };

    ghost words = { script_fault_text };

    fn called() -> &'static [u8] {
        b"script"
    }

    fn line(&self, role: &[u8]) -> Line {
        match *self {
            ScriptFault::Row { number, reason } => record_line(role, number, reason),
            ScriptFault::NoMemory => line_of(&[Word(role), Word(b": no memory")]),
        }
    }
}
