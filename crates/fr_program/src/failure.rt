ghost use Rattle.std.specs.Prelude.{◌≡◌, ◌≤◌, length};
ghost use Rattle.fr_program.specs.Around.{IsLinePut};
ghost use Rattle.fr_program.specs.Failure.{failure_line, status_of};
ghost use Rattle.fr_program.specs.declared.failure.Failure.TheVariants as failure;

use fr_base::{PutFault, Sink};
use fr_text::Piece::Word;
use fr_text::{Shown, Status, Stop, Told, line_of, stop_told};

/// Why a call did not end in `Done`.
#[derive(Drop)]
pub enum Failure {
    /// The words are no request.
    Usage,
    /// It stopped at a file, or behind all of them.
    Stopped(Told),
    /// The sink failed.
    WriteFault,
}

impl Failure {
    /// The exit status.
    pub fn status(&self) -> Status
        ensures { result ≡ status_of self.now }
    {
        match self {
            Failure::Usage => Status::Usage,
            Failure::Stopped(why) => why.status,
            Failure::WriteFault => Status::WriteFault,
        }
    }

    /// Puts the line that says so, in one put; of words that are no request it is `usage`. What becomes of it changes
    /// nothing else.
    pub fn tell<E: Sink>(&self, usage: &[u8], err: &mut E)
        requires { length usage.now ≤ 100 }
        ensures { IsLinePut (E.state err.old) (E.state err.new) (failure_line usage.now self.now) }
    {
        let _ = match self {
            Failure::Usage => err.put(line_of(&[Word(usage)]).bytes()),
            Failure::Stopped(why) => err.put(why.line.bytes()),
            Failure::WriteFault => err.put(b"write fault\n"),
        };
    }
}

impl<F: Shown + Drop> From<Stop<F>> for Failure {
    ghost use Rattle.fr_text.specs.Told.{stop_text, stop_told};

    ghost from_gives = { λ stop made. made ≡ failure.Stopped (stop_told (stop_text F.called F.words) stop) };

    fn from(stop: Stop<F>) -> Failure {
        Failure::Stopped(stop_told(&stop))
    }
}

impl From<Told> for Failure {
    ghost from_gives = { λ why made. made ≡ failure.Stopped why };

    fn from(why: Told) -> Failure {
        Failure::Stopped(why)
    }
}

impl From<PutFault> for Failure {
    ghost from_gives = { λ _ made. made ≡ failure.WriteFault };

    fn from(_fault: PutFault) -> Failure {
        Failure::WriteFault
    }
}
