ghost use Rattle.std.specs.Prelude.{◌≡◌, ◌≢◌, ◌↔◌, IfErr, None};
ghost use Rattle.fr_program.specs.Around.{around_of};
ghost use Rattle.fr_program.specs.Failure.{EndingWritesNothing, WritesNothing, ending_status, status_of};
ghost use Rattle.fr_program.specs.Program.{IsNoRequest, IsProgramAnswer, IsProgramComplete, WordsEnd, texts};
ghost use Rattle.fr_whole.specs.Whole.{flexray_program};

use crate::pages::answer_page;
use crate::request::{WholeRequest, whole_request};
use fr_answer::{answer_core, told};
use fr_base::{Shelf, Sink};
use fr_program::Failure;
use fr_text::Status;
use std::alloc::Global;

/// Does what the words ask for, which are those after the program's name: loads the files that they name from the
/// shelf, in their order up to the first that is not accepted, each as often as it is named; puts the text of the answer
/// into `out`, and where the answer is not `Done` one line into `err`. Nothing is put into `out` before every file was
/// accepted.
pub fn flexray<S: Shelf, O: Sink, E: Sink>(
    alloc: Global,
    words: &[String],
    shelf: &mut S,
    out: &mut O,
    err: &mut E,
) -> Status
    // Words that are no request, and no others, are answered Usage, whatever the shelf and the sinks do, and
    // nothing is loaded then.
    ensures usage { (result ≡ Status.Usage) ↔ IsNoRequest flexray_program (texts words.now) }
    ensures unread { result ≡ Status.Usage → shelf.new ≡ shelf.old }

    // What each status says of what was asked for, what was written, and the line of a failure.
    ensures ends { IsProgramAnswer flexray_program (texts words.now)
        (around_of (S.state shelf.old) (S.state shelf.new) (O.state out.old) (O.state out.new))
        (E.state err.old) (E.state err.new) result }

    // Where the bytes of the files are told and no fault was counted, they decide the status, but for want of memory.
    ensures complete { IsProgramComplete flexray_program (texts words.now)
        (around_of (S.state shelf.old) (S.state shelf.new) (O.state out.old) (O.state out.new)) result }

    // Only `Done` and a failed write leave anything on `out`, and `Done` nothing on `err`.
    ensures unwritten { WritesNothing result → out.new ≡ out.old }
    ensures untold { result ≡ Status.Done → err.new ≡ err.old }
{
    match answer(alloc, words, shelf, out) {
        Ok(()) => Status::Done,
        Err(failure) => told(&failure, err),
    }
}

// The answer before its status and its line.
fn answer<S: Shelf, O: Sink>(
    alloc: Global,
    words: &[String],
    shelf: &mut S,
    out: &mut O,
) -> Result<(), Failure>
    ensures usage { ending_status result ≡ Status.Usage → IsNoRequest flexray_program (texts words.now) }
    ensures unread { ending_status result ≡ Status.Usage → shelf.new ≡ shelf.old }
    ensures undone { IfErr result (λ why. status_of why ≢ Status.Done) }
    ensures ends { WordsEnd flexray_program (texts words.now)
        (around_of (S.state shelf.old) (S.state shelf.new) (O.state out.old) (O.state out.new)) result }
    ensures unwritten { EndingWritesNothing result → out.new ≡ out.old }
{
    match whole_request(words) {
        WholeRequest::Log(files) => crate::answer_observe(alloc, files, shelf, out),
        WholeRequest::SharpReport(files) => crate::answer_sharp_run(alloc, files, shelf, out),
        WholeRequest::OnePage(page) => answer_page(page, out),
        WholeRequest::SharpCheck(files) => crate::answer_sharp_check(alloc, files, shelf, out),
        WholeRequest::PowerOn(asked) => {
            crate::answer_power_on(alloc, asked.params, asked.flutter, shelf, out)
        }
        WholeRequest::Core => answer_core(alloc, words, shelf, out),
    }
}
