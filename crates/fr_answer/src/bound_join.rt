ghost use Rattle.std.specs.Prelude.{◌≡◌};
ghost use Rattle.fr_base.specs.Device.{Puts};
ghost use Rattle.fr_text.specs.Lines.{joined_lines};
ghost use Rattle.fr_program.specs.Around.{around_of};
ghost use Rattle.fr_program.specs.Command.{CommandEnds};
ghost use Rattle.fr_program.specs.Failure.{EndingWritesNothing};
ghost use Rattle.fr_answer.specs.BoundAnswer.{join_command};
ghost use Rattle.fr_answer.specs.BoundText.{reach_text, with_join_text};

use crate::bound::{check_line, print, value_line};
use fr_base::{PutFault, Shelf, Sink};
use fr_bound::reach;
use fr_cluster::Params;
use fr_params::ParamsFile;
use fr_program::Failure;
use fr_text::{Line, accepted, put_lines};
use std::alloc::Global;

/// Reads the parameters in the file, and writes their bounds and checks, and then the reach and the checks of a cluster
/// that nodes join, in puts of whole lines. It loads the file once. A failure comes where the file can't be loaded, is
/// not accepted, or memory runs out (`Stopped`), or where the sink counted a fault (`WriteFault`).
pub fn answer_bound_join<S: Shelf, O: Sink>(
    alloc: Global,
    file: &str,
    shelf: &mut S,
    out: &mut O,
) -> Result<(), Failure>
    ensures ends { CommandEnds (join_command file.now)
        (around_of (S.state shelf.old) (S.state shelf.new) (O.state out.old) (O.state out.new)) result }
    ensures unwritten { EndingWritesNothing result → out.new ≡ out.old }
{
    let params = accepted(alloc, &ParamsFile {}, file, shelf)?;
    print_with_join(&params, out)?;
    Ok(())
}

fn print_with_join<O: Sink>(params: &Params, out: &mut O) -> Result<(), PutFault>
    ensures { Puts result (O.state out.old) (O.state out.new) (with_join_text params.now) }
{
    print(params, out)?;
    put_lines(&join_lines(params), out)
}

// The reach, and then the four checks of a cluster that nodes join.
fn join_lines(params: &Params) -> [Option<Line>; 5]
    ensures { joined_lines result ≡ reach_text params.now }
{
    [
        Some(value_line(b"reach ", reach(params) as u64)),
        Some(check_line(params, 6)),
        Some(check_line(params, 7)),
        Some(check_line(params, 8)),
        Some(check_line(params, 9)),
    ]
}
