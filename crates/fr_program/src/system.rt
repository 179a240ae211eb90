ghost use Rattle.std.specs.Prelude.{◌≡◌, drop, IfOk, IfSome, IsErr, IsNone};
ghost use Rattle.std.specs.Process.{exit_status};
ghost use Rattle.std.specs.Vec.Iter.{into_iter_items};
ghost use Rattle.fr_text.specs.Status.{code_of};

use fr_text::Status;
use std::alloc::Global;
use std::env::Args;
use std::io;
use std::process::ExitCode;

/// The words of a request, by all words that the system gives: those behind the first, which is the program's name. None
/// where the system gives none, since one of them is no text or memory ran out, or where memory runs out here.
pub fn request_words(alloc: Global, all: io::Result<Args>) -> Option<Vec<String>>
    ensures words { IfSome result (λ words. IfOk all (λ given. words.items ≡ drop 1 (into_iter_items given))) }
    ensures none { IsErr all → IsNone result }
{
    match all {
        Ok(mut given) => {
            let _name = given.next();
            given.collect(alloc).ok()
        }
        Err(_) => None,
    }
}

/// What the process ends with: the number of the status.
pub fn exit_code(status: Status) -> ExitCode
    ensures { exit_status result ≡ code_of status }
{
    ExitCode::from(status.code())
}
