use crate::fault::ParamFault;
use crate::names::word_of;
use fr_text::Piece::{Natural, Word};
use fr_text::{Line, Shown, line_of, record_line};

impl Shown for ParamFault {
    ghost use Rattle.std.specs.Prelude.{codes};
    ghost use Rattle.fr_params.specs.Told.{param_fault_text};

    ghost called = { codes "params" };

    ghost words = { param_fault_text };

    fn called() -> &'static [u8] {
        b"params"
    }

    fn line(&self, role: &[u8]) -> Line {
        match *self {
            ParamFault::Row { number, reason } => record_line(role, number, reason),
            ParamFault::Missing(name) => {
                line_of(&[Word(role), Word(b": missing "), Word(word_of(name))])
            }
            ParamFault::Constraint(number) => line_of(&[
                Word(role),
                Word(b": constraint "),
                Natural(u64::from(number)),
            ]),
            ParamFault::NoMemory => line_of(&[Word(role), Word(b": no memory")]),
        }
    }
}
