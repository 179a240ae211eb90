ghost use Rattle.std.specs.Prelude.{◌≡◌, ◌+◌, ◌-◌, ◌*◌, ◌≤◌, ◌<◌, All, OnOk};
ghost use Rattle.std.specs.List.{flat_map, range_with_len};
ghost use Rattle.std.specs.Option.{option_or};
ghost use Rattle.fr_base.specs.Device.{Puts};
ghost use Rattle.fr_findings.specs.Ground.{AreWalked, CountsFew, IsAround, IsDouble, OffendInOrder, basis_in, double_around, double_in, offending_given};
ghost use Rattle.fr_observe.specs.Observing.{cycles_text, double_rows, node_row};
ghost use Rattle.fr_observe.specs.Skews.{AreSkews};
ghost use Rattle.fr_findings.specs.Verdict.{double_told, even_says, no_progress, odd_says, over_row, progress_of, progress_told, told_of_doubles};
ghost use Rattle.fr_sightings.specs.Ranges.{IsProperSender};

use crate::contradicting::{earlier, put_faults, put_numbers, put_own, standing_of};
use crate::ground::{Around, Double, Doubles, Frames, Ground, Offending};
use crate::progress::{Outcome, OverRow, Progress};
use fr_base::{PutFault, Sink};
use fr_bound::DoubleNumber;
use fr_course::Scale;
use fr_observe::{Says, Skews, cycle_row, node_row, skews_of};
use fr_sightings::{Observed, Sender, Sighting, look_at, look_from, seen_senders};
use fr_text::put_line;

fn put_nodes<O: Sink>(
    scale: &Scale,
    double: u32,
    senders: &[Sender],
    out: &mut O,
) -> Result<(), PutFault>
    requires senders { All (IsProperSender scale.now) senders.now }
    ensures { Puts result (O.state out.old) (O.state out.new) (flat_map (node_row scale.now double) senders.now) }
{
    for sender in senders {
        put_line(&node_row(scale, double, sender), out)?;
    }
    Ok(())
}

// The rows of both cycles of a double cycle.
#[tactic(auto, unfolding(fr_observe::specs::Observing::cycles_text))]
fn put_cycles<O: Sink>(
    ground: &Ground<'_>,
    double: &Double<'_>,
    out: &mut O,
) -> Result<(), PutFault>
    requires { IsDouble ground.now double.now }
    ensures { Puts result (O.state out.old) (O.state out.new)
        (cycles_text ground.now.precision ground.now.scale.now double.now.number double.now.senders.now) }
{
    let (precision, count, skews) = (ground.precision, double.senders.len(), double.skews);
    let (even, odd) = (2 * double.number, 2 * double.number + 1);
    put_line(
        &cycle_row(precision, even, count, skews.even_low, skews.even_high),
        out,
    )?;
    put_line(
        &cycle_row(precision, odd, count, skews.odd_low, skews.odd_high),
        out,
    )
}

// The rows of a double cycle.
#[tactic(auto, unfolding(fr_observe::specs::Observing::double_rows))]
fn put_rows<O: Sink>(ground: &Ground<'_>, double: &Double<'_>, out: &mut O) -> Result<(), PutFault>
    requires double { IsDouble ground.now double.now }
    ensures { Puts result (O.state out.old) (O.state out.new)
        (double_rows ground.now.precision ground.now.scale.now double.now.number double.now.senders.now) }
{
    put_cycles(ground, double, out)?;
    put_nodes(ground.scale, double.number, double.senders, out)
}

// What both cycles of a double cycle say.
fn both_say(ground: &Ground<'_>, double: &Double<'_>, skews: &Skews) -> (Says, Says)
    requires skews { AreSkews ground.now.scale.now double.now.senders.now skews.now }
    ensures even { result.0 ≡ even_says (basis_in ground.now) (double_in double.now) }
    ensures odd { result.1 ≡ odd_says (basis_in ground.now) (double_in double.now) }
{
    let precision = ground.precision;
    (
        Says::of(precision, skews.even_low, skews.even_high),
        Says::of(precision, skews.odd_low, skews.odd_high),
    )
}

// The first row that says over of those of two cycles that say this.
fn first_over(double: DoubleNumber, skews: &Skews, even: Says, odd: Says) -> Option<OverRow>
    ensures { result ≡ option_or (over_row (2 * double) skews.now.even_low even)
        (over_row (2 * double + 1) skews.now.odd_low odd) }
{
    over_row(2 * double.0, skews.even_low, even).or(over_row(2 * double.0 + 1, skews.odd_low, odd))
}

fn over_row(cycle: u32, low: i64, says: Says) -> Option<OverRow>
    ensures { result ≡ over_row cycle low says }
{
    match says {
        Says::Over => Some(OverRow { cycle, low }),
        Says::Within | Says::Open => None,
    }
}

// A double cycle: its rows, behind them those of its faults, how many senders its nodes must have missed, and the numbers that it
// is judged by.
#[tactic(auto, unfolding(crate::specs::Verdict::double_told, crate::specs::Verdict::progress_told))]
fn put_double<'a, O: Sink>(
    ground: &'a Ground<'a>,
    double: &'a Double<'a>,
    progress: &mut Progress,
    out: &mut O,
) -> Result<(), PutFault>
    requires double { IsDouble ground.now double.now }
    requires few { CountsFew 900_000 progress.old }
    ensures puts { Puts result (O.state out.old) (O.state out.new)
        (double_told (basis_in ground.now) (double_in double.now) progress.old) }
    ensures progress { OnOk result (progress.new ≡
        progress_told (basis_in ground.now) (double_in double.now) progress.old) }
{
    put_rows(ground, double, out)?;
    let mut told = None;
    put_own(ground, double, &mut told, out)?;
    let standing = standing_of(ground, double, progress.known, &told);
    let first = earlier(progress.first, told);
    progress.first = None;
    put_faults(ground, double, &standing, progress, out)?;
    put_numbers(ground, double, &standing, &progress.first, out)?;
    progress.first = earlier(first, progress.first);
    let said = both_say(ground, double, double.skews);
    let over = first_over(DoubleNumber(double.number), double.skews, said.0, said.1);
    let outcome = Outcome {
        double: double.number,
        is_judged: standing.is_judged,
        said,
    };
    let reach = progress.reach_passed(&outcome);
    progress.pass(&outcome, reach, over);
    Ok(())
}

// The same by the sightings that it is looked at with.
fn put_around<O: Sink>(
    ground: &Ground<'_>,
    around: &Around<'_>,
    number: DoubleNumber,
    progress: &mut Progress,
    out: &mut O,
) -> Result<(), PutFault>
    requires around { IsAround ground.now around.now }
    requires few { CountsFew 900_000 progress.old }
    ensures puts { Puts result (O.state out.old) (O.state out.new)
        (double_told (basis_in ground.now) (double_around ground.now around.now number) progress.old) }
    ensures progress { OnOk result (progress.new ≡
        progress_told (basis_in ground.now) (double_around ground.now around.now number) progress.old) }
{
    let observed = Observed {
        scale: ground.scale,
        params: ground.params,
        log: ground.log,
    };
    let list = seen_senders(&observed, around.here, around.next, number);
    let skews = skews_of(ground.scale, list.as_slice());
    let double = Double {
        number: number.0,
        before: around.before,
        here: around.here,
        offending: around.offending,
        senders: list.as_slice(),
        skews: &skews,
    };
    put_double(ground, &double, progress, out)
}

// The double cycles from the first to the last.
pub(crate) fn put_doubles<O: Sink>(
    ground: &Ground<'_>,
    frames: &Frames<'_>,
    doubles: Doubles,
    progress: &mut Progress,
    out: &mut O,
) -> Result<(), PutFault>
    requires seen { AreWalked ground.now doubles.first frames.now.seen.now }
    requires offending { OffendInOrder ground.now.log.now (offending_given frames.now.offending) }
    requires first { doubles.first ≤ doubles.last }
    requires last { doubles.last < 100_000 }
    requires progress { progress.old ≡ no_progress }
    ensures puts { Puts result (O.state out.old) (O.state out.new)
        (told_of_doubles (basis_in ground.now) frames.now.seen.now (offending_given frames.now.offending) no_progress
        (range_with_len doubles.first (doubles.last + 1 - doubles.first))) }
    ensures progress { OnOk result (progress.new ≡
        progress_of (basis_in ground.now) frames.now.seen.now (offending_given frames.now.offending) no_progress
        (range_with_len doubles.first (doubles.last + 1 - doubles.first))) }
{
    let mut before: &[Sighting] = &[];
    let mut rest = frames.seen;
    let mut rest_untimely = look_from(frames.offending.untimely, doubles.first);
    let mut rest_irregular = look_from(frames.offending.irregular, doubles.first);
    let mut double = doubles.first;
    while double <= doubles.last {
        let number = DoubleNumber(double);
        let look = look_at(rest, number);
        let untimely = look_at(rest_untimely, number);
        let irregular = look_at(rest_irregular, number);
        let around = Around {
            before,
            here: look.here,
            next: look.next,
            offending: Offending {
                untimely: untimely.here,
                irregular: irregular.here,
            },
        };
        put_around(ground, &around, number, progress, out)?;
        before = look.here;
        rest = look.behind;
        rest_untimely = untimely.behind;
        rest_irregular = irregular.behind;
        double += 1;
    }
    Ok(())
}
