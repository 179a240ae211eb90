ghost use Rattle.std.specs.Prelude.{◌≡◌, ◌≤◌};
ghost use Rattle.fr_base.specs.Device.{Puts};
ghost use Rattle.fr_bound.specs.Settling.{most_stated};
ghost use Rattle.fr_text.specs.Lines.{joined_lines};
ghost use Rattle.fr_program.specs.Around.{around_of};
ghost use Rattle.fr_program.specs.Command.{CommandEnds};
ghost use Rattle.fr_program.specs.Failure.{EndingWritesNothing};
ghost use Rattle.fr_answer.specs.SettleAnswer.{AreSharpWays, sharp_settle_command};
ghost use Rattle.fr_answer.specs.SharpSettleText.{sharp_failing_line, sharp_peak_line, sharp_settle_text, sharp_stated_line, sharp_verdict_line};

use crate::bound_sharp::kind;
use fr_base::{PutFault, Shelf, Sink};
use fr_bound::Flutter;
use fr_cluster::Params;
use fr_params::ParamsFile;
use fr_program::Failure;
use fr_promise::{SharpWay, sharp_settle};
use fr_text::Piece::{Natural, Signed, Word};
use fr_text::{Line, accepted, line_of, put_lines};
use std::alloc::Global;

/// Reads the parameters in the file, and writes how long clocks take until they are in sharp sync that begin at most
/// `start` ticks apart, and the lengths of whose first even cycles lie at most `rate` ticks apart, where delays flutter
/// by no more than so many ticks, without arbitrary sync nodes and beside them, in puts of whole lines. It loads the
/// file once. A failure comes where the file can't be loaded, is not accepted, or memory runs out (`Stopped`), or where
/// the sink counted a fault (`WriteFault`).
pub fn answer_settle_sharp<S: Shelf, O: Sink>(
    alloc: Global,
    file: &str,
    start: u64,
    rate: u64,
    flutter: Flutter,
    shelf: &mut S,
    out: &mut O,
) -> Result<(), Failure>
    requires stated { (start ≤ most_stated) × (rate ≤ most_stated) }
    ensures ends { CommandEnds (sharp_settle_command file.now start rate flutter)
        (around_of (S.state shelf.old) (S.state shelf.new) (O.state out.old) (O.state out.new)) result }
    ensures unwritten { EndingWritesNothing result → out.new ≡ out.old }
{
    let params = accepted(alloc, &ParamsFile {}, file, shelf)?;
    let ways = ways_of(&params, start, rate, flutter);
    print_ways(start, rate, flutter, &ways, out)?;
    Ok(())
}

// Without arbitrary sync nodes, and beside them.
fn ways_of(params: &Params, start: u64, rate: u64, flutter: Flutter) -> (SharpWay, SharpWay)
    requires stated { (start ≤ most_stated) × (rate ≤ most_stated) }
    ensures { AreSharpWays params.now start rate flutter result }
{
    (
        sharp_settle(params, false, start, rate, flutter),
        sharp_settle(params, true, start, rate, flutter),
    )
}

fn print_ways<O: Sink>(
    start: u64,
    rate: u64,
    flutter: Flutter,
    ways: &(SharpWay, SharpWay),
    out: &mut O,
) -> Result<(), PutFault>
    ensures { Puts result (O.state out.old) (O.state out.new) (sharp_settle_text start rate flutter ways.now) }
{
    put_lines(&way_lines(start, rate, flutter, ways), out)
}

fn way_lines(
    start: u64,
    rate: u64,
    flutter: Flutter,
    ways: &(SharpWay, SharpWay),
) -> [Option<Line>; 5]
    ensures { joined_lines result ≡ sharp_settle_text start rate flutter ways.now }
{
    [
        Some(stated_line(start, rate, flutter)),
        Some(peak_line(false, ways.0.peak)),
        Some(verdict_line(false, &ways.0)),
        Some(peak_line(true, ways.1.peak)),
        Some(verdict_line(true, &ways.1)),
    ]
}

fn stated_line(start: u64, rate: u64, flutter: Flutter) -> Line
    ensures { result ≡ sharp_stated_line start rate flutter }
{
    line_of(&[
        Word(b"start "),
        Natural(start),
        Word(b" rate "),
        Natural(rate),
        Word(b" flutter "),
        Natural(flutter.0),
    ])
}

fn peak_line(beside: bool, peak: u64) -> Line
    ensures { result ≡ sharp_peak_line beside peak }
{
    line_of(&[Word(kind(beside)), Word(b"peak "), Natural(peak)])
}

fn verdict_line(beside: bool, way: &SharpWay) -> Line
    ensures { result ≡ sharp_verdict_line beside way.now.doubles way.now.failed }
{
    let doubles = u64::from(way.doubles);
    match way.failed {
        None => line_of(&[Word(kind(beside)), Word(b"settles "), Natural(doubles)]),
        Some((number, left, right)) => failing_line(beside, number, left, right),
    }
}

fn failing_line(beside: bool, number: u8, left: i64, right: i64) -> Line
    ensures { result ≡ sharp_failing_line beside number left right }
{
    line_of(&[
        Word(kind(beside)),
        Word(b"settles no check "),
        Natural(u64::from(number)),
        Word(b" "),
        Signed(left),
        Word(b" "),
        Signed(right),
    ])
}
