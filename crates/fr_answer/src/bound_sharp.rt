ghost use Rattle.std.specs.Prelude.{◌≡◌, ◌≤◌, ◌++◌, length};
ghost use Rattle.std.specs.Fmt.{decimal};
ghost use Rattle.fr_base.specs.Device.{Puts};
ghost use Rattle.fr_text.specs.Lines.{joined_lines};
ghost use Rattle.fr_text.specs.Pieces.{line};
ghost use Rattle.fr_program.specs.Around.{around_of};
ghost use Rattle.fr_program.specs.Command.{CommandEnds};
ghost use Rattle.fr_program.specs.Failure.{EndingWritesNothing};
ghost use Rattle.fr_answer.specs.BoundAnswer.{sharp_command};
ghost use Rattle.fr_answer.specs.SharpText.{kind_text, lambda_line, lasting_text, lasts_text, pi_line, precision_line};
ghost use Rattle.fr_answer.specs.SharpText.{sharp_bounds_text, sharp_check_line, sharp_checks_text, sharp_text};

use crate::bound::value_line;
use fr_base::{PutFault, Shelf, Sink};
use fr_bound::{CheckSides, Flutter, sharp_bounds, sharp_side, side};
use fr_cluster::Params;
use fr_params::ParamsFile;
use fr_program::Failure;
use fr_promise::lasts_by;
use fr_text::Piece::{Natural, Word};
use fr_text::{Line, accepted, line_of, put_lines};
use std::alloc::Global;

/// Reads the parameters in the file, and writes their sharper bounds and checks where delays flutter by no more than so
/// many ticks, without arbitrary sync nodes and beside them, in puts of whole lines. It loads the file once. A failure
/// comes where the file can't be loaded, is not accepted, or memory runs out (`Stopped`), or where the sink counted a
/// fault (`WriteFault`).
pub fn answer_bound_sharp<S: Shelf, O: Sink>(
    alloc: Global,
    file: &str,
    flutter: Flutter,
    shelf: &mut S,
    out: &mut O,
) -> Result<(), Failure>
    ensures ends { CommandEnds (sharp_command file.now flutter)
        (around_of (S.state shelf.old) (S.state shelf.new) (O.state out.old) (O.state out.new)) result }
    ensures unwritten { EndingWritesNothing result → out.new ≡ out.old }
{
    let params = accepted(alloc, &ParamsFile {}, file, shelf)?;
    print_sharp(&params, flutter, out)?;
    Ok(())
}

// Writes the sharper bounds and checks of each cluster.
pub(crate) fn print_sharp<O: Sink>(
    params: &Params,
    flutter: Flutter,
    out: &mut O,
) -> Result<(), PutFault>
    ensures { Puts result (O.state out.old) (O.state out.new) (sharp_text params.now flutter) }
{
    print_bounds(params, flutter, out)?;
    put_lines(&check_lines(params, flutter), out)
}

fn print_bounds<O: Sink>(params: &Params, flutter: Flutter, out: &mut O) -> Result<(), PutFault>
    ensures { Puts result (O.state out.old) (O.state out.new) (sharp_bounds_text params.now flutter) }
{
    put_lines(&bound_lines(params, flutter), out)
}

// The flutter, and the bounds of both kinds.
fn bound_lines(params: &Params, flutter: Flutter) -> [Option<Line>; 7]
    ensures { joined_lines result ≡ sharp_bounds_text params.now flutter }
{
    [
        Some(value_line(b"flutter ", flutter.0)),
        Some(lambda_line(params, false, flutter)),
        Some(pi_line(params, false, flutter)),
        Some(precision_line(params, false, flutter)),
        Some(lambda_line(params, true, flutter)),
        Some(pi_line(params, true, flutter)),
        Some(precision_line(params, true, flutter)),
    ]
}

pub(crate) fn lambda_line(params: &Params, beside: bool, flutter: Flutter) -> Line
    ensures { result ≡ lambda_line beside params.now flutter }
{
    let lambda = sharp_bounds(params, beside, flutter).lambda as u64;
    kind_line(beside, b"lambda ", lambda)
}

pub(crate) fn pi_line(params: &Params, beside: bool, flutter: Flutter) -> Line
    ensures { result ≡ pi_line beside params.now flutter }
{
    let pi = sharp_bounds(params, beside, flutter).pi as u64;
    kind_line(beside, b"pi ", pi)
}

pub(crate) fn precision_line(params: &Params, beside: bool, flutter: Flutter) -> Line
    ensures { result ≡ precision_line beside params.now flutter }
{
    let precision = sharp_bounds(params, beside, flutter).precision as u64;
    kind_line(beside, b"precision ", precision)
}

pub(crate) fn kind_line(beside: bool, label: &[u8], value: u64) -> Line
    requires { length label.now ≤ 20 }
    ensures { result ≡ line (kind_text beside ++ label.now ++ decimal value) }
{
    line_of(&[Word(kind(beside)), Word(label), Natural(value)])
}

pub(crate) fn kind(beside: bool) -> &'static [u8]
    ensures text { result.now ≡ kind_text beside }
    ensures short { length result.now ≤ 7 }
{
    if beside { b"beside " } else { b"alone " }
}

// The checks, and how long sharp sync lasts.
fn check_lines(params: &Params, flutter: Flutter) -> [Option<Line>; 9]
    ensures { joined_lines result ≡ sharp_checks_text params.now flutter }
{
    [
        Some(sharp_line(b"", params, false, flutter, 1)),
        Some(sharp_line(b"", params, false, flutter, 2)),
        Some(sharp_line(b"alone ", params, false, flutter, 3)),
        Some(sharp_line(b"alone ", params, false, flutter, 4)),
        Some(sharp_line(b"alone ", params, false, flutter, 5)),
        Some(sharp_line(b"beside ", params, true, flutter, 3)),
        Some(sharp_line(b"beside ", params, true, flutter, 4)),
        Some(sharp_line(b"beside ", params, true, flutter, 5)),
        Some(lasts_line(params, true, flutter)),
    ]
}

fn sharp_line(front: &[u8], params: &Params, beside: bool, flutter: Flutter, number: u8) -> Line
    requires front { length front.now ≤ 20 }
    requires from { 1 ≤ number }
    requires to { number ≤ 5 }
    ensures { result ≡ sharp_check_line front.now beside flutter number params.now }
{
    let CheckSides { left, right, holds } = sharp_side(params, beside, flutter, number);
    line_of(&[
        Word(front),
        Word(b"C"),
        Natural(u64::from(number)),
        Word(if holds { b" holds " } else { b" fails " }),
        Natural(left as u64),
        Word(b" "),
        Natural(right as u64),
    ])
}

pub(crate) fn lasts_line(params: &Params, heard: bool, flutter: Flutter) -> Line
    ensures { result ≡ lasts_text heard params.now flutter }
{
    if side(params, 2).holds {
        lasting_line(lasts_by(params, heard, flutter))
    } else {
        lasting_line(Some(0))
    }
}

fn lasting_line(doubles: Option<u64>) -> Line
    ensures { result ≡ lasting_text doubles }
{
    match doubles {
        None => line_of(&[Word(b"lasts on")]),
        Some(doubles) => line_of(&[Word(b"lasts "), Natural(doubles)]),
    }
}
