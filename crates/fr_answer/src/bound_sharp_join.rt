ghost use Rattle.std.specs.Prelude.{◌≡◌, ◌≤◌, length};
ghost use Rattle.fr_base.specs.Device.{Puts};
ghost use Rattle.fr_promise.specs.JoinedHistories.{first_rates_last};
ghost use Rattle.fr_text.specs.Lines.{joined_lines};
ghost use Rattle.fr_program.specs.Around.{around_of};
ghost use Rattle.fr_program.specs.Command.{CommandEnds};
ghost use Rattle.fr_program.specs.Failure.{EndingWritesNothing};
ghost use Rattle.fr_answer.specs.BoundAnswer.{sharp_join_command};
ghost use Rattle.fr_answer.specs.SharpJoinText.{first_rates_text, sharp_join_check_line, sharp_reach_line};
ghost use Rattle.fr_answer.specs.SharpJoinText.{sharp_reach_text, sharp_with_join_text};

use crate::bound_sharp::{kind_line, print_sharp};
use fr_base::{PutFault, Shelf, Sink};
use fr_bound::{CheckSides, Flutter};
use fr_cluster::Params;
use fr_params::ParamsFile;
use fr_program::Failure;
use fr_promise::{first_rates_last, sharp_join_side, sharp_reach};
use fr_text::Piece::{Natural, Word};
use fr_text::{Line, accepted, line_of, put_lines};
use std::alloc::Global;

/// Reads the parameters in the file, and writes their sharper bounds and checks where delays flutter by no more than so
/// many ticks, and then the sharper reach and checks of a cluster that nodes join, without arbitrary sync nodes and
/// beside them, in puts of whole lines. It loads the file once. A failure comes where the file can't be loaded, is not
/// accepted, or memory runs out (`Stopped`), or where the sink counted a fault (`WriteFault`).
pub fn answer_bound_sharp_join<S: Shelf, O: Sink>(
    alloc: Global,
    file: &str,
    flutter: Flutter,
    shelf: &mut S,
    out: &mut O,
) -> Result<(), Failure>
    ensures ends { CommandEnds (sharp_join_command file.now flutter)
        (around_of (S.state shelf.old) (S.state shelf.new) (O.state out.old) (O.state out.new)) result }
    ensures unwritten { EndingWritesNothing result → out.new ≡ out.old }
{
    let params = accepted(alloc, &ParamsFile {}, file, shelf)?;
    print_with_join(&params, flutter, out)?;
    Ok(())
}

fn print_with_join<O: Sink>(params: &Params, flutter: Flutter, out: &mut O) -> Result<(), PutFault>
    ensures { Puts result (O.state out.old) (O.state out.new) (sharp_with_join_text params.now flutter) }
{
    print_sharp(params, flutter, out)?;
    put_lines(&join_lines(params, flutter), out)
}

// The reach of both kinds, the four checks of a cluster that nodes join, and how long first rates last.
fn join_lines(params: &Params, flutter: Flutter) -> [Option<Line>; 10]
    ensures { joined_lines result ≡ sharp_reach_text params.now flutter }
{
    [
        Some(reach_line(params, false, flutter)),
        Some(reach_line(params, true, flutter)),
        Some(check_line(b"", params, false, flutter, 6)),
        Some(check_line(b"alone ", params, false, flutter, 7)),
        Some(check_line(b"alone ", params, false, flutter, 8)),
        Some(check_line(b"alone ", params, false, flutter, 9)),
        Some(check_line(b"beside ", params, true, flutter, 7)),
        Some(check_line(b"beside ", params, true, flutter, 8)),
        Some(check_line(b"beside ", params, true, flutter, 9)),
        Some(first_rates_line(params, flutter)),
    ]
}

fn reach_line(params: &Params, beside: bool, flutter: Flutter) -> Line
    ensures { result ≡ sharp_reach_line beside params.now flutter }
{
    let reach = sharp_reach(params, beside, flutter) as u64;
    kind_line(beside, b"reach ", reach)
}

fn check_line(front: &[u8], params: &Params, beside: bool, flutter: Flutter, number: u8) -> Line
    requires front { length front.now ≤ 20 }
    requires from { 6 ≤ number }
    requires to { number ≤ 9 }
    ensures { result ≡ sharp_join_check_line front.now beside flutter number params.now }
{
    let CheckSides { left, right, holds } = sharp_join_side(params, beside, flutter, number);
    line_of(&[
        Word(front),
        Word(b"C"),
        Natural(u64::from(number)),
        Word(if holds { b" holds " } else { b" fails " }),
        Natural(left as u64),
        Word(b" "),
        Natural(right as u64),
    ])
}

fn first_rates_line(params: &Params, flutter: Flutter) -> Line
    ensures { result ≡ first_rates_text (first_rates_last params.now flutter) }
{
    first_rates_told(first_rates_last(params, flutter))
}

fn first_rates_told(doubles: Option<u64>) -> Line
    ensures { result ≡ first_rates_text doubles }
{
    match doubles {
        None => line_of(&[Word(b"first rates last on")]),
        Some(doubles) => line_of(&[Word(b"first rates last "), Natural(doubles)]),
    }
}
