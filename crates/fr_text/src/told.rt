ghost use Rattle.std.specs.Prelude.{◌≡◌, ◌≤◌, ◌++◌, ℕ, List, codes, length};
ghost use Rattle.fr_text.specs.Pieces.{line};
ghost use Rattle.fr_text.specs.Told.{no_memory, record_text, stop_status, stop_text, stop_told};

use crate::Piece::{Natural, Word};
use crate::kind::Stop;
use crate::status::Status;
use crate::{Line, line_of};
use fr_base::Reason;

/// What is told of a request that did not end in `Done`.
#[derive(Drop)]
pub struct Told {
    /// The exit status.
    pub status: Status,
    /// The line that says why.
    pub line: Line,
}

impl Told {
    /// What is told where memory ran out behind all files.
    pub fn no_memory() -> Told
        ensures { result ≡ no_memory }
    {
        Told {
            status: Status::NoMemory,
            line: line_of(&[Word(b"no memory")]),
        }
    }
}

/// A fault of a kind of file that a line can say.
pub trait Shown {
    /// What such a file is called.
    ghost called: { List ℕ };

    /// The words for a fault, after a text in front.
    ghost words: { List ℕ → Self → List ℕ };

    /// What such a file is called.
    fn called() -> &'static [u8]
        ensures is { result.now ≡ called }
        ensures short { length result.now ≤ 10 };

    /// The line of a fault, by what the file is called.
    fn line(&self, role: &[u8]) -> Line
        requires { length role.now ≤ 10 }
        ensures { result ≡ line (words (role.now ++ codes ": ") self.now) };
}

/// What is told of a stop at a file.
pub fn stop_told<F: Shown>(stop: &Stop<F>) -> Told
    ensures { result ≡ stop_told (stop_text F.called F.words) stop.now }
{
    Told {
        status: status_of(stop),
        line: line_at(F::called(), stop),
    }
}

impl<F: Shown + Drop> From<Stop<F>> for Told {
    ghost from_gives = { λ stop made. made ≡ stop_told (stop_text F.called F.words) stop };

    fn from(stop: Stop<F>) -> Told {
        stop_told(&stop)
    }
}

// The exit status of a stop at a file.
fn status_of<F>(stop: &Stop<F>) -> Status
    ensures { result ≡ stop_status stop.now }
{
    match stop {
        Stop::ReadFault => Status::ReadFault,
        Stop::TooLong => Status::TooLong,
        Stop::NoMemory => Status::NoMemory,
        Stop::Refused(_) => Status::Refused,
    }
}

// The line of it, by what the file is called.
fn line_at<F: Shown>(role: &[u8], stop: &Stop<F>) -> Line
    requires { length role.now ≤ 10 }
    ensures { result ≡ line (stop_text role.now F.words stop.now) }
{
    match stop {
        Stop::ReadFault => line_of(&[Word(role), Word(b": read fault")]),
        Stop::TooLong => line_of(&[Word(role), Word(b": too long")]),
        Stop::NoMemory => line_of(&[Word(b"no memory")]),
        Stop::Refused(fault) => fault.line(role),
    }
}

/// The line of a record that is refused, by what its file is called.
pub fn record_line(role: &[u8], number: u64, reason: Reason) -> Line
    requires { length role.now ≤ 10 }
    ensures { result ≡ line (record_text (role.now ++ codes ": ") number reason) }
{
    line_of(&[
        Word(role),
        Word(b": record "),
        Natural(number),
        Word(b": "),
        Word(reason.word()),
    ])
}
