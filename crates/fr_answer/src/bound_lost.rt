ghost use Rattle.std.specs.Prelude.{◌≡◌, ◌≤◌, ◌+◌, ◌++◌, codes, length};
ghost use Rattle.std.specs.Fmt.{decimal};
ghost use Rattle.fr_base.specs.Device.{Puts};
ghost use Rattle.fr_sharp.specs.Losses.{lost_apart};
ghost use Rattle.fr_sharp.specs.LossCosts.{heard_behind, limits_hold};
ghost use Rattle.fr_sharp.specs.LossSteps.{most_lost};
ghost use Rattle.fr_text.specs.Lines.{joined_lines};
ghost use Rattle.fr_text.specs.Pieces.{line};
ghost use Rattle.fr_program.specs.Around.{around_of};
ghost use Rattle.fr_program.specs.Command.{CommandEnds};
ghost use Rattle.fr_program.specs.Failure.{EndingWritesNothing};
ghost use Rattle.fr_answer.specs.LossAnswer.{AreLossFigures, AreReachesSmall, loss_command};
ghost use Rattle.fr_answer.specs.LossText.{fails_text, longest_line, loss_apart_line, loss_apart_lines, loss_bounds_text};
ghost use Rattle.fr_answer.specs.LossText.{loss_check_line, loss_figures_text, loss_text, meeting_line};

use crate::bound::value_line;
use crate::bound_sharp::{lambda_line, lasts_line, pi_line, precision_line};
use fr_base::{PutFault, Shelf, Sink};
use fr_bound::Flutter;
use fr_cluster::Params;
use fr_params::ParamsFile;
use fr_program::Failure;
use fr_sharp::{
    CrossingCost, Digits, LossCost, LossSides, LossSpread, MeetingCost, SecondCost, crossing_cost,
    every_second_cost, heard_behind, limits_hold, longest_loss, loss_cost, loss_side, meeting_cost,
};
use fr_text::Piece::{Natural, Word};
use fr_text::{Line, accepted, line_of, put_line, put_lines};
use std::alloc::Global;

/// What losses cost, as a request for it tells.
#[derive(Clone, Copy, Debug, PartialEq, Eq)]
pub struct LossFigures {
    /// So many double cycles in a row.
    pub row: LossCost,
    /// So many odd cycles and the even ones behind them.
    pub crossing: CrossingCost,
    /// Every second double cycle for ever.
    pub second: SecondCost,
    /// Each double cycle for ever where lists meet.
    pub meeting: MeetingCost,
    /// How many double cycles in a row the limits bear; none where they do not though nothing is lost.
    pub longest: Option<u32>,
}

/// Reads the parameters in the file, and writes how far clocks may lie apart where any frames may be lost in so many
/// double cycles in a row, 1 to 1000, without arbitrary sync nodes, and delays flutter by no more than so many ticks;
/// with the checks for that, in puts of whole lines. It loads the file once. A failure comes where the file can't be
/// loaded, is not accepted, or memory runs out (`Stopped`), or where the sink counted a fault (`WriteFault`).
pub fn answer_bound_lost<S: Shelf, O: Sink>(
    alloc: Global,
    file: &str,
    flutter: Flutter,
    count: u32,
    shelf: &mut S,
    out: &mut O,
) -> Result<(), Failure>
    requires from { 1 ≤ count }
    requires to { count ≤ 1000 }
    ensures ends { CommandEnds (loss_command file.now flutter count)
        (around_of (S.state shelf.old) (S.state shelf.new) (O.state out.old) (O.state out.new)) result }
    ensures unwritten { EndingWritesNothing result → out.new ≡ out.old }
{
    let params = accepted(alloc, &ParamsFile {}, file, shelf)?;
    let figures = figures_of(&params, flutter, count);
    print_losses(&params, flutter, count, &figures, out)?;
    Ok(())
}

fn figures_of(params: &Params, flutter: Flutter, count: u32) -> LossFigures
    requires from { 1 ≤ count }
    requires to { count ≤ 1000 }
    ensures are { AreLossFigures params.now flutter count result }
    ensures reaches { AreReachesSmall result }
    ensures back { result.row.back ≤ 1002 }
{
    LossFigures {
        row: loss_cost(params, flutter, count),
        crossing: crossing_cost(params, flutter, count),
        second: every_second_cost(params, flutter),
        meeting: meeting_cost(params, flutter),
        longest: longest_loss(params, flutter),
    }
}

fn print_losses<O: Sink>(
    params: &Params,
    flutter: Flutter,
    count: u32,
    figures: &LossFigures,
    out: &mut O,
) -> Result<(), PutFault>
    requires reaches { AreReachesSmall figures.now }
    requires back { figures.now.row.back ≤ 1002 }
    ensures { Puts result (O.state out.old) (O.state out.new) (loss_text params.now flutter count figures.now) }
{
    put_lines(&bound_lines(params, flutter, count), out)?;
    put_behind(params, flutter, count, figures, out)
}

// Writes what comes behind the bounds.
fn put_behind<O: Sink>(
    params: &Params,
    flutter: Flutter,
    count: u32,
    figures: &LossFigures,
    out: &mut O,
) -> Result<(), PutFault>
    requires reaches { AreReachesSmall figures.now }
    requires back { figures.now.row.back ≤ 1002 }
    ensures { Puts result (O.state out.old) (O.state out.new)
        (loss_apart_lines params.now flutter count 0 (figures.now.row.back + 1)
        ++ loss_figures_text params.now flutter figures.now) }
{
    put_aparts(params, flutter, count, figures.row.back + 1, out)?;
    put_lines(&figure_lines(params, flutter, figures), out)
}

// The flutter, the number of double cycles, and the bounds.
fn bound_lines(params: &Params, flutter: Flutter, count: u32) -> [Option<Line>; 5]
    ensures { joined_lines result ≡ loss_bounds_text params.now flutter count }
{
    [
        Some(value_line(b"flutter ", flutter.0)),
        Some(value_line(b"lost ", u64::from(count))),
        Some(lambda_line(params, false, flutter)),
        Some(pi_line(params, false, flutter)),
        Some(precision_line(params, false, flutter)),
    ]
}

// Writes a line for each of so many double cycles, from the first that loses frames on.
fn put_aparts<O: Sink>(
    params: &Params,
    flutter: Flutter,
    count: u32,
    doubles: u32,
    out: &mut O,
) -> Result<(), PutFault>
    requires doubles { doubles ≤ 1003 }
    ensures { Puts result (O.state out.old) (O.state out.new)
        (loss_apart_lines params.now flutter count 0 doubles) }
{
    let mut spread = LossSpread::first(params, false, flutter);
    for double in 0..doubles {
        let heard = heard_behind(count, double);
        put_line(
            &apart_line(double, spread.apart(params, flutter, heard)),
            out,
        )?;
        spread.step(params, flutter, heard);
    }
    Ok(())
}

fn apart_line(double: u32, apart: u128) -> Line
    ensures { result ≡ line (codes "apart " ++ decimal double ++ codes " " ++ decimal apart) }
{
    let digits = Digits::of(apart);
    line_of(&[
        Word(b"apart "),
        Natural(u64::from(double)),
        Word(b" "),
        Word(digits.bytes()),
    ])
}

// The peak, the reach, the checks with it, how long the walk lasts, and the way back; and what is of the parameters alone.
fn figure_lines(params: &Params, flutter: Flutter, figures: &LossFigures) -> [Option<Line>; 13]
    requires reaches { AreReachesSmall figures.now }
    ensures { joined_lines result ≡ loss_figures_text params.now flutter figures.now }
{
    let reach = figures.row.reach;
    let (crossing, second) = (figures.crossing, figures.second);
    [
        Some(wide_line(b"peak ", figures.row.peak)),
        Some(wide_line(b"reach ", reach)),
        Some(check_line(params, flutter, reach, 1)),
        Some(check_line(params, flutter, reach, 2)),
        Some(check_line(params, flutter, reach, 3)),
        Some(check_line(params, flutter, reach, 4)),
        Some(check_line(params, flutter, reach, 5)),
        Some(lasts_line(params, false, flutter)),
        Some(value_line(b"back ", u64::from(figures.row.back))),
        Some(peak_line(b"crossing ", params, flutter, crossing.peak, crossing.reach)),
        Some(peak_line(b"every second ", params, flutter, second.peak, second.reach)),
        Some(meeting_line(params, flutter, &figures.meeting)),
        Some(longest_line(figures.longest)),
    ]
}

fn wide_line(label: &[u8], value: u128) -> Line
    requires { length label.now ≤ 20 }
    ensures { result ≡ line (label.now ++ decimal value) }
{
    let digits = Digits::of(value);
    line_of(&[Word(label), Word(digits.bytes())])
}

fn check_line(params: &Params, flutter: Flutter, reach: u128, number: u8) -> Line
    requires from { 1 ≤ number }
    requires to { number ≤ 5 }
    requires reach { reach ≤ most_lost }
    ensures { result ≡ loss_check_line number flutter reach params.now }
{
    let LossSides { left, right, holds } = loss_side(params, flutter, reach, number);
    let digits = Digits::of(right);
    line_of(&[
        Word(b"C"),
        Natural(u64::from(number)),
        Word(if holds { b" holds " } else { b" fails " }),
        Natural(left),
        Word(b" "),
        Word(digits.bytes()),
    ])
}

// How far macroticks may lie apart in some case, and whether a check of the limits fails with the reach of that.
fn peak_line(label: &[u8], params: &Params, flutter: Flutter, peak: u128, reach: u128) -> Line
    requires label { length label.now ≤ 20 }
    requires reach { reach ≤ most_lost }
    ensures { result ≡ line (label.now ++ decimal peak ++ fails_text (limits_hold flutter reach params.now)) }
{
    let digits = Digits::of(peak);
    let holds = limits_hold(params, flutter, reach);
    line_of(&[Word(label), Word(digits.bytes()), Word(fails(holds))])
}

fn meeting_line(params: &Params, flutter: Flutter, meeting: &MeetingCost) -> Line
    ensures { result ≡ meeting_line params.now flutter meeting.now }
{
    let holds = limits_hold(params, flutter, u128::from(meeting.reach));
    line_of(&[
        Word(b"meeting "),
        Natural(meeting.peak),
        Word(b" "),
        Natural(u64::from(meeting.missed)),
        Word(fails(holds)),
    ])
}

fn fails(holds: bool) -> &'static [u8]
    ensures text { result.now ≡ fails_text holds }
    ensures short { length result.now ≤ 6 }
{
    if holds { b"" } else { b" fails" }
}

fn longest_line(longest: Option<u32>) -> Line
    ensures { result ≡ longest_line longest }
{
    match longest {
        None => line_of(&[Word(b"longest none")]),
        Some(longest) => line_of(&[Word(b"longest "), Natural(u64::from(longest))]),
    }
}
