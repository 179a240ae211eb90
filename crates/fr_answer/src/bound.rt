ghost use Rattle.std.specs.Prelude.{◌≡◌, ◌≤◌, ◌++◌, length};
ghost use Rattle.std.specs.Fmt.{decimal};
ghost use Rattle.fr_base.specs.Device.{Puts};
ghost use Rattle.fr_text.specs.Lines.{joined_lines};
ghost use Rattle.fr_text.specs.Pieces.{line};
ghost use Rattle.fr_program.specs.Around.{around_of};
ghost use Rattle.fr_program.specs.Command.{CommandEnds};
ghost use Rattle.fr_answer.specs.BoundAnswer.{bound_command};
ghost use Rattle.fr_answer.specs.BoundText.{bound_text, check_line};
ghost use Rattle.fr_program.specs.Failure.{EndingWritesNothing};

use fr_base::{PutFault, Shelf, Sink};
use fr_bound::{CheckSides, bounds, side};
use fr_cluster::Params;
use fr_params::ParamsFile;
use fr_program::Failure;
use fr_text::Piece::{Natural, Word};
use fr_text::{Line, accepted, line_of, put_lines};
use std::alloc::Global;

/// Reads the parameters in the file, and writes their bounds and checks, in puts of whole lines. It loads the file
/// once. A failure comes where the file can't be loaded, is not accepted, or memory runs out (`Stopped`), or where
/// the sink counted a fault (`WriteFault`).
pub fn answer_bound<S: Shelf, O: Sink>(
    alloc: Global,
    file: &str,
    shelf: &mut S,
    out: &mut O,
) -> Result<(), Failure>
    ensures ends { CommandEnds (bound_command file.now)
        (around_of (S.state shelf.old) (S.state shelf.new) (O.state out.old) (O.state out.new)) result }
    ensures unwritten { EndingWritesNothing result → out.new ≡ out.old }
{
    let params = accepted(alloc, &ParamsFile {}, file, shelf)?;
    print(&params, out)?;
    Ok(())
}

// Writes the bounds and the checks of each cluster.
pub(crate) fn print<O: Sink>(params: &Params, out: &mut O) -> Result<(), PutFault>
    ensures { Puts result (O.state out.old) (O.state out.new) (bound_text params.now) }
{
    put_lines(&lines(params), out)
}

// The four bounds, and then the five checks.
fn lines(params: &Params) -> [Option<Line>; 9]
    ensures { joined_lines result ≡ bound_text params.now }
{
    let bounds = bounds(params);
    [
        Some(value_line(b"y1 ", bounds.y1 as u64)),
        Some(value_line(b"lambda ", bounds.lambda as u64)),
        Some(value_line(b"pi ", bounds.pi as u64)),
        Some(value_line(b"precision ", bounds.precision as u64)),
        Some(check_line(params, 1)),
        Some(check_line(params, 2)),
        Some(check_line(params, 3)),
        Some(check_line(params, 4)),
        Some(check_line(params, 5)),
    ]
}

pub(crate) fn value_line(label: &[u8], value: u64) -> Line
    requires { length label.now ≤ 20 }
    ensures { result ≡ line (label.now ++ decimal value) }
{
    line_of(&[Word(label), Natural(value)])
}

pub(crate) fn check_line(params: &Params, number: u8) -> Line
    requires from { 1 ≤ number }
    requires to { number ≤ 9 }
    ensures { result ≡ check_line number params.now }
{
    let CheckSides { left, right, holds } = side(params, number);
    line_of(&[
        Word(b"C"),
        Natural(u64::from(number)),
        Word(if holds { b" holds " } else { b" fails " }),
        Natural(left as u64),
        Word(b" "),
        Natural(right as u64),
    ])
}
