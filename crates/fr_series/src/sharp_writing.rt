ghost use Rattle.std.specs.Prelude.{◌≡◌, ◌+◌, ◌*◌, All, [], IsOk};
ghost use Rattle.fr_base.specs.Device.{Puts};
ghost use Rattle.fr_drift.specs.Questions.{doubles_of};
ghost use Rattle.fr_history.specs.Next.{cycles_of};
ghost use Rattle.fr_skew.specs.Sync.{are_in_sync_by_even};
ghost use Rattle.fr_time.specs.Placed.{IsPlacedRow};
ghost use Rattle.fr_world.specs.World.{setting_after};
ghost use Rattle.fr_series.specs.Basis.{tally_of, AreScales};
ghost use Rattle.fr_series.specs.Scale.{IsScale};
ghost use Rattle.fr_series.specs.SharpText.{sharp_rows, sharp_series_text};
ghost use Rattle.fr_series.specs.Stopping.{RowsEnd, SharpSeriesEnds, sharp_rows_before};
ghost use Rattle.fr_series.specs.Writing.{sharp_double_at, sharp_text_of_double, IsAtDouble, IsKnown};

use crate::basis::Basis;
use crate::course::Course;
use crate::kept::{Kept, begun, next_kept};
use crate::known::Known;
use crate::scale::Scale;
use crate::sharp_lines::{older_lines, sharp_cycle_line, sharp_head_line, sharp_lines};
use crate::tally::Tally;
use crate::writing::{are_in_sync, next_rows};
use fr_base::{NodeRow, PutFault, RowList, Sink};
use fr_bound::{DoubleNumber, Flutter};
use fr_sharp::LossSpread;
use fr_skew::in_sync_by_even;
use fr_text::{put_line, put_lines};
use fr_world::World;

/// Runs all cycles of a world that has run none, and writes the sharper series of the run: a line for each cycle, as
/// soon as its double cycle was run, and ten lines at the end. Puts have whole lines. A fault comes only where the
/// sink counted it, and then a front of the text was put, and no further cycle is run: of the double cycles that were
/// run the lines of all but the last had been put whole. It takes no memory but what the sink does.
pub fn write_sharp_series<O: Sink>(world: &mut World, out: &mut O) -> Result<(), PutFault>
    requires { world.old.cycles ≡ 0 }
    ensures text { Puts result (O.state out.old) (O.state out.new)
        (sharp_series_text world.old.params world.old.drift world.old.script) }
    ensures ran { SharpSeriesEnds result world.old world.new (O.state out.old) (O.state out.new) }
{
    let mut tally = Tally::none();
    put_line(&sharp_head_line(), out)?;
    write_sharp_rows(world, &mut tally, out)?;
    let from = tally.sharp.synced.unwrap_or(0);
    let basis = Basis::of(world.params(), world.drift(), world.script(), from);
    put_lines(&older_lines(&tally), out)?;
    put_lines(&sharp_lines(&basis, &tally), out)
}

// Writes the lines of all cycles, and gathers the figures.
fn write_sharp_rows<O: Sink>(
    world: &mut World,
    tally: &mut Tally,
    out: &mut O,
) -> Result<(), PutFault>
    requires fresh { world.old.cycles ≡ 0 }
    requires none { tally.old ≡ tally_of world.old.params world.old.drift world.old.script [] }
    ensures ran { RowsEnd (sharp_rows_before world.old) result world.old world.new
        (O.state out.old) (O.state out.new) }
    ensures text { Puts result (O.state out.old) (O.state out.new)
        (sharp_rows world.old.params world.old.drift world.old.script
        (cycles_of (setting_after world.old) (2 * doubles_of world.old.drift))) }
    ensures tally { IsOk result →
        tally.new ≡ tally_of world.old.params world.old.drift world.old.script
        (cycles_of (setting_after world.old) (2 * doubles_of world.old.drift)) }
{
    let doubles = world.drift().doubles();
    let mut known = Known {
        older: Scale::of(world.params()),
        course: Course::from(world.params(), world.drift(), world.script(), 0),
        basis: None,
    };
    let mut spread = LossSpread::first(world.params(), false, Flutter(0));
    for double in 0..doubles {
        write_sharp_double(
            world,
            &mut known,
            &mut spread,
            tally,
            DoubleNumber(double),
            out,
        )?;
    }
    Ok(())
}

// Runs a double cycle, and writes its lines.
fn write_sharp_double<O: Sink>(
    world: &mut World,
    known: &mut Known,
    spread: &mut LossSpread,
    tally: &mut Tally,
    double: DoubleNumber,
    out: &mut O,
) -> Result<(), PutFault>
    requires at { IsAtDouble world.old double }
    requires known { IsKnown world.old double known.old spread.old tally.old }
    ensures ran { world.new ≡ record world.old { cycles = world.old.cycles + 2 } }
    ensures known { IsKnown world.old (double + 1) known.new spread.new tally.new }
    ensures text { Puts result (O.state out.old) (O.state out.new) (sharp_double_at world.old double) }
{
    let mut even = RowList::new();
    let mut odd = RowList::new();
    let followed = next_rows(world, &mut even);
    let following = next_rows(world, &mut odd);
    let (even, odd) = (even.as_slice(), odd.as_slice());
    let Known {
        older,
        course,
        basis,
    } = *known;
    *tally = tally.followed(
        &older,
        &course.scale,
        double,
        even,
        odd,
        followed || following,
    );
    let synced = tally.sharp.synced;
    let basis = begun(world, basis, synced, double.0, spread);
    let kept = next_kept(world, &basis, double, spread);
    *known = Known {
        older,
        course: course.behind(
            world.params(),
            world.drift(),
            world.script(),
            synced,
            double,
        ),
        basis,
    };
    put_sharp_double(&older, &course.scale, kept, double, even, odd, out)
}

// Writes the lines of a double cycle, by the rows of its two cycles.
fn put_sharp_double<O: Sink>(
    older: &Scale,
    sharper: &Scale,
    kept: Kept,
    double: DoubleNumber,
    even: &[NodeRow],
    odd: &[NodeRow],
    out: &mut O,
) -> Result<(), PutFault>
    requires scales { AreScales older.now sharper.now }
    requires even { All (IsPlacedRow older.now.grid) even.now }
    requires odd { All (IsPlacedRow older.now.grid) odd.now }
    ensures text { Puts result (O.state out.old) (O.state out.new)
        (sharp_text_of_double older.now sharper.now kept double even.now odd.now) }
{
    let in_sync = are_in_sync(older, even, odd);
    let sharp = are_in_sharp_sync(sharper, even, odd);
    let cycle = 2 * double.0;
    put_line(
        &sharp_cycle_line(cycle, in_sync, sharp, kept, older.peak(cycle, even)),
        out,
    )?;
    put_line(
        &sharp_cycle_line(cycle + 1, in_sync, sharp, kept, older.peak(cycle + 1, odd)),
        out,
    )
}

/// Whether the clocks are in sharp sync in a double cycle, by the numbers of sharp sync.
pub fn are_in_sharp_sync(scale: &Scale, even: &[NodeRow], odd: &[NodeRow]) -> bool
    requires scale { IsScale scale.now }
    requires even { All (IsPlacedRow scale.now.grid) even.now }
    requires odd { All (IsPlacedRow scale.now.grid) odd.now }
    ensures { result ≡ are_in_sync_by_even scale.now.bounds even.now odd.now }
{
    in_sync_by_even(&scale.bounds, even, odd)
}
