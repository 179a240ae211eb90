ghost use Rattle.std.specs.Prelude.{◌≡◌, ◌≤◌, ◌+◌, ◌-◌, ◌/◌, ◌++◌, length};
ghost use Rattle.std.specs.Fmt.{decimal};
ghost use Rattle.fr_base.specs.Device.{Puts};
ghost use Rattle.fr_precision.specs.Rows.{longest_cycle};
ghost use Rattle.fr_program.specs.Around.{around_of};
ghost use Rattle.fr_program.specs.Command.{CommandEnds};
ghost use Rattle.fr_program.specs.Failure.{EndingWritesNothing};
ghost use Rattle.fr_text.specs.Lines.{joined_lines};
ghost use Rattle.fr_text.specs.Pieces.{line};
ghost use Rattle.fr_whole.specs.PowerOn.{leads_ticks, synced_ticks};
ghost use Rattle.fr_whole.specs.PowerOnAnswer.{all_synced_line, failing_at_start, power_on_command, power_on_text};

use crate::power_on_laws::a_power_on_is_told;
use crate::sharp_gaps::{failing_at, failing_to_join};
use fr_base::{PutFault, Shelf, Sink};
use fr_bound::{Flutter, longest_microtick, sharp_pi};
use fr_cluster::{ParamName, Params};
use fr_coverage::{Gap, gap_line};
use fr_params::ParamsFile;
use fr_program::Failure;
use fr_text::Piece::{Natural, Word};
use fr_text::{Line, accepted, line_of, put_lines};
use std::alloc::Global;

/// Reads the parameters in the file, and writes how long it takes from the first power-on until a node leads, and until
/// all are in sharp sync that join it, without arbitrary sync nodes, where delays flutter by no more than so many ticks,
/// in puts of whole lines. It loads the file once. A failure comes where the file can't be loaded, is not accepted, or
/// memory runs out (`Stopped`), or where the sink counted a fault (`WriteFault`).
pub fn answer_power_on<S: Shelf, O: Sink>(
    alloc: Global,
    file: &str,
    flutter: Flutter,
    shelf: &mut S,
    out: &mut O,
) -> Result<(), Failure>
    ensures ends { CommandEnds (power_on_command file.now flutter)
        (around_of (S.state shelf.old) (S.state shelf.new) (O.state out.old) (O.state out.new)) result }
    ensures unwritten { EndingWritesNothing result → out.new ≡ out.old }
{
    a_power_on_is_told();
    let params = accepted(alloc, &ParamsFile {}, file, shelf)?;
    print_power_on(&params, flutter, out)?;
    Ok(())
}

fn print_power_on<O: Sink>(params: &Params, flutter: Flutter, out: &mut O) -> Result<(), PutFault>
    ensures { Puts result (O.state out.old) (O.state out.new) (power_on_text params.now flutter) }
{
    put_lines(&power_on_lines(params, flutter), out)
}

fn power_on_lines(params: &Params, flutter: Flutter) -> [Option<Line>; 3]
    ensures { joined_lines result ≡ power_on_text params.now flutter }
{
    [
        Some(value_line(b"flutter ", flutter.0)),
        Some(value_line(b"leads ", leads_ticks(params))),
        Some(synced_line(params, flutter)),
    ]
}

fn value_line(front: &[u8], value: u64) -> Line
    requires { length front.now ≤ 20 }
    ensures { result ≡ line (front.now ++ decimal value) }
{
    line_of(&[Word(front), Natural(value)])
}

fn synced_line(params: &Params, flutter: Flutter) -> Line
    ensures { result ≡ all_synced_line params.now flutter (failing_at_start params.now flutter) }
{
    match failing_at_start(params, flutter) {
        Some(gap) => gap_line(b"alone synced no ", gap),
        None => value_line(b"alone synced ", synced_ticks(params, flutter)),
    }
}

// The first check that fails of those that are asked.
fn failing_at_start(params: &Params, flutter: Flutter) -> Option<Gap>
    ensures { result ≡ failing_at_start params.now flutter }
{
    failing_at(params, false, flutter, 1)
        .or(failing_to_join(params, true, false, flutter, 6))
        .or(failing_to_join(params, true, false, flutter, 7))
        .or(failing_to_join(params, true, false, flutter, 8))
        .or(failing_to_join(params, true, false, flutter, 9))
}

// How long until all are in sharp sync, in ticks.
fn synced_ticks(params: &Params, flutter: Flutter) -> u64
    ensures { result ≡ synced_ticks params.now flutter }
{
    leads_ticks(params) + 6 * longest_cycle(params) + sharp_pi(params, false, flutter)
}

// How long until a node leads, in ticks.
fn leads_ticks(params: &Params) -> u64
    ensures value { result ≡ leads_ticks params.now }
    ensures most { result ≤ 100_000_000_000_000_000 }
{
    let macroticks = params.natural(ParamName::gMacroPerCycle);
    rounded_up((6 * macroticks + 1) * longest_cycle(params), macroticks)
}

fn rounded_up(ticks: u64, parts: u64) -> u64
    requires ticks { ticks ≤ 90_000_000_000_000_000 }
    requires from { 1 ≤ parts }
    requires to { parts ≤ 16_000 }
    ensures value { result ≡ (ticks + (parts - 1)) / parts }
    ensures most { result ≤ 100_000_000_000_000_000 }
{
    (ticks + (parts - 1)) / parts
}

fn longest_cycle(params: &Params) -> u64
    ensures value { result ≡ longest_cycle params.now }
    ensures most { result ≤ 650_000_000_000 }
{
    params.natural(ParamName::pMicroPerCycle) * longest_microtick(params)
}
