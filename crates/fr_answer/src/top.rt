ghost use Rattle.std.specs.Prelude.{◌≡◌, ◌≢◌, ◌↔◌, [], Err, IfErr, codes};
ghost use Rattle.fr_program.specs.Around.{around_of};
ghost use Rattle.fr_program.specs.Command.{CommandEnds};
ghost use Rattle.fr_program.specs.Failure.{EndingWritesNothing, IsTold, WritesNothing, ending_status, status_of};
ghost use Rattle.fr_program.specs.Program.{IsNoRequest, IsProgramAnswer, IsProgramComplete, WordsEnd, texts};
ghost use Rattle.fr_answer.specs.Answer.{command_of, core_program};
ghost use Rattle.fr_answer.specs.Request.{IsInRange, asked_of};

use crate::request::{Request, request_of};
use fr_base::{Shelf, Sink};
use fr_bound::Flutter;
use fr_program::Failure;
use fr_text::Status;
use std::alloc::Global;

/// Does what the words ask for, which are those after the program's name, all but `observe`, `help`, `version`,
/// `sharp` of `run` and of `check`, and `power` of `settle`:
/// loads the files that they name from the shelf, in their order up to the first that is not accepted, each as often as it
/// is named; puts the text of the answer into `out`, and where the answer is not `Done` one line into `err`. Nothing is put
/// into `out` before every file was accepted.
pub fn flexray_core<S: Shelf, O: Sink, E: Sink>(
    alloc: Global,
    words: &[String],
    shelf: &mut S,
    out: &mut O,
    err: &mut E,
) -> Status
    // Words that are no request, and no others, are answered Usage, whatever the shelf and the sinks do, and
    // nothing is loaded then.
    ensures usage { (result ≡ Status.Usage) ↔ IsNoRequest core_program (texts words.now) }
    ensures unread { result ≡ Status.Usage → shelf.new ≡ shelf.old }

    // What each status says of what was asked for, what was written, and the line of a failure.
    ensures ends { IsProgramAnswer core_program (texts words.now)
        (around_of (S.state shelf.old) (S.state shelf.new) (O.state out.old) (O.state out.new))
        (E.state err.old) (E.state err.new) result }

    // Where the bytes of the files are told and no fault was counted, they decide the status, but for want of memory.
    ensures complete { IsProgramComplete core_program (texts words.now)
        (around_of (S.state shelf.old) (S.state shelf.new) (O.state out.old) (O.state out.new)) result }

    // Only `Done` and a failed write leave anything on `out`, and `Done` nothing on `err`.
    ensures unwritten { WritesNothing result → out.new ≡ out.old }
    ensures untold { result ≡ Status.Done → err.new ≡ err.old }
{
    match answer_core(alloc, words, shelf, out) {
        Ok(()) => Status::Done,
        Err(failure) => told(&failure, err),
    }
}

/// The status of a failure, of which `flexray` puts one line into `err`.
pub fn told<E: Sink>(failure: &Failure, err: &mut E) -> Status
    ensures status { result ≡ status_of failure.now }
    ensures told { IsTold (codes "usage: flexray COMMAND WORDS") (E.state err.old) (E.state err.new)
        (Err failure.now) }
{
    failure.tell(b"usage: flexray COMMAND WORDS", err);
    failure.status()
}

/// The answer before its status and its line.
pub fn answer_core<S: Shelf, O: Sink>(
    alloc: Global,
    words: &[String],
    shelf: &mut S,
    out: &mut O,
) -> Result<(), Failure>
    ensures usage { ending_status result ≡ Status.Usage → IsNoRequest core_program (texts words.now) }
    ensures unread { ending_status result ≡ Status.Usage → shelf.new ≡ shelf.old }
    ensures undone { IfErr result (λ why. status_of why ≢ Status.Done) }
    ensures ends { WordsEnd core_program (texts words.now)
        (around_of (S.state shelf.old) (S.state shelf.new) (O.state out.old) (O.state out.new)) result }
    ensures unwritten { EndingWritesNothing result → out.new ≡ out.old }
{
    match request_of(words) {
        Some(request) => carry_out(alloc, request, shelf, out),
        None => Err(Failure::Usage),
    }
}

fn carry_out<S: Shelf, O: Sink>(
    alloc: Global,
    request: Request<'_>,
    shelf: &mut S,
    out: &mut O,
) -> Result<(), Failure>
    requires { IsInRange request }
    ensures ends { CommandEnds (command_of (asked_of request.entry))
        (around_of (S.state shelf.old) (S.state shelf.new) (O.state out.old) (O.state out.new)) result }
    ensures stays { (command_of (asked_of request.entry)).names ≡ [] → S.state shelf.new ≡ S.state shelf.old }
    ensures unwritten { EndingWritesNothing result → out.new ≡ out.old }
{
    match request {
        Request::Frame { channel, file } => crate::answer_frame(alloc, channel, file, shelf, out),
        Request::Bound { file } => crate::answer_bound(alloc, file, shelf, out),
        Request::BoundJoin { file } => crate::answer_bound_join(alloc, file, shelf, out),
        Request::BoundSharp { file, flutter } => {
            crate::answer_bound_sharp(alloc, file, Flutter(flutter), shelf, out)
        }
        Request::BoundSharpJoin { file, flutter } => {
            crate::answer_bound_sharp_join(alloc, file, Flutter(flutter), shelf, out)
        }
        Request::BoundLost {
            file,
            flutter,
            count,
        } => crate::answer_bound_lost(alloc, file, Flutter(flutter), count, shelf, out),
        Request::Upgrade { file } => fr_params::answer_upgrade(alloc, file, shelf, out),
        Request::Settle { file, start, rate } => {
            crate::answer_settle(alloc, file, start, rate, shelf, out)
        }
        Request::SettleSharp {
            file,
            start,
            rate,
            flutter,
        } => crate::answer_settle_sharp(alloc, file, start, rate, Flutter(flutter), shelf, out),
        Request::Run(files) => crate::answer_kept_run(alloc, files, shelf, out),
        Request::Make { seed, doubles } => { fr_report::answer_made(alloc, seed, doubles, out) }
        Request::Capture { channel, file } => fr_capture::answer_capture(
            alloc, channel, file, shelf, out,
        ),
        Request::Nm { width, file } => fr_nm::answer_nm(alloc, width, file, shelf, out),
        Request::Cold(files) => fr_cold::answer_cold(alloc, files, shelf, out),
        Request::Trace(files) => fr_report::answer_trace(alloc, files, shelf, out),
        Request::Check(files) => fr_check::answer_check(alloc, files, shelf, out),
    }
}
