ghost use Rattle.std.specs.Prelude.{◌≡◌, ◌≤◌};
ghost use Rattle.fr_base.specs.Device.{Puts};
ghost use Rattle.fr_bound.specs.Settling.{most_stated};
ghost use Rattle.fr_text.specs.Lines.{joined_lines};
ghost use Rattle.fr_program.specs.Around.{around_of};
ghost use Rattle.fr_program.specs.Command.{CommandEnds};
ghost use Rattle.fr_program.specs.Failure.{EndingWritesNothing};
ghost use Rattle.fr_answer.specs.SettleAnswer.{IsSettlingFor, settle_command};
ghost use Rattle.fr_answer.specs.SettleText.{failing_line, apart_line, settle_text, stated_line, verdict_line};

use fr_base::{PutFault, Shelf, Sink};
use fr_bound::{Settling, settle};
use fr_cluster::Params;
use fr_params::ParamsFile;
use fr_program::Failure;
use fr_text::Piece::{Natural, Signed, Word};
use fr_text::{Line, accepted, line_of, put_lines};
use std::alloc::Global;

/// Reads the parameters in the file, and writes how long clocks take until they are in sync that begin at most `start`
/// ticks apart, and the lengths of whose first two cycles lie at most `rate` ticks apart, in puts of whole lines. It
/// loads the file once. A failure comes where the file can't be loaded, is not accepted, or memory runs out
/// (`Stopped`), or where the sink counted a fault (`WriteFault`).
pub fn answer_settle<S: Shelf, O: Sink>(
    alloc: Global,
    file: &str,
    start: u64,
    rate: u64,
    shelf: &mut S,
    out: &mut O,
) -> Result<(), Failure>
    requires start { start ≤ most_stated }
    requires rate { rate ≤ most_stated }
    ensures ends { CommandEnds (settle_command file.now start rate)
        (around_of (S.state shelf.old) (S.state shelf.new) (O.state out.old) (O.state out.new)) result }
    ensures unwritten { EndingWritesNothing result → out.new ≡ out.old }
{
    let params = accepted(alloc, &ParamsFile {}, file, shelf)?;
    let settling = settling_of(&params, start, rate);
    print(start, rate, &settling, out)?;
    Ok(())
}

fn settling_of(params: &Params, start: u64, rate: u64) -> Settling
    requires start { start ≤ most_stated }
    requires rate { rate ≤ most_stated }
    ensures { IsSettlingFor params.now start rate result }
{
    settle(params, start as i64, rate as i64)
}

fn print<O: Sink>(start: u64, rate: u64, settling: &Settling, out: &mut O) -> Result<(), PutFault>
    ensures { Puts result (O.state out.old) (O.state out.new) (settle_text start rate settling.now) }
{
    put_lines(&lines(start, rate, settling), out)
}

fn lines(start: u64, rate: u64, settling: &Settling) -> [Option<Line>; 3]
    ensures { joined_lines result ≡ settle_text start rate settling.now }
{
    [
        Some(stated_line(start, rate)),
        Some(apart_line(settling.peak)),
        Some(verdict_line(settling)),
    ]
}

fn stated_line(start: u64, rate: u64) -> Line
    ensures { result ≡ stated_line start rate }
{
    line_of(&[
        Word(b"start "),
        Natural(start),
        Word(b" rate "),
        Natural(rate),
    ])
}

fn apart_line(peak: i64) -> Line
    ensures { result ≡ apart_line peak }
{
    line_of(&[Word(b"peak "), Signed(peak)])
}

fn verdict_line(settling: &Settling) -> Line
    ensures { result ≡ verdict_line settling.now.doubles settling.now.failed }
{
    match settling.failed {
        None => line_of(&[Word(b"settles "), Natural(u64::from(settling.doubles))]),
        Some((number, left, right)) => failing_line(number, left, right),
    }
}

fn failing_line(number: u8, left: i64, right: i64) -> Line
    ensures { result ≡ failing_line number left right }
{
    line_of(&[
        Word(b"settles no check "),
        Natural(u64::from(number)),
        Word(b" "),
        Signed(left),
        Word(b" "),
        Signed(right),
    ])
}
