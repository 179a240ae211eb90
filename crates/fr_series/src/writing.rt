ghost use Rattle.std.specs.Prelude.{◌≡◌, ◌+◌, ◌*◌, ◌<◌, ◌++◌, All, [], IsOk};
ghost use Rattle.fr_base.specs.Device.{Puts};
ghost use Rattle.fr_drift.specs.Questions.{doubles_of};
ghost use Rattle.fr_history.specs.Cycles.{told_of};
ghost use Rattle.fr_history.specs.Next.{cycles_of};
ghost use Rattle.fr_skew.specs.Sync.{are_in_sync};
ghost use Rattle.fr_time.specs.Placed.{IsPlacedRow};
ghost use Rattle.fr_time.specs.Position.{grid_for};
ghost use Rattle.fr_world.specs.World.{setting_after};
ghost use Rattle.fr_series.specs.Figures.{figures_of};
ghost use Rattle.fr_series.specs.Scale.{IsScale, followed, scale_of};
ghost use Rattle.fr_series.specs.SeriesText.{double_by, series_end, series_rows, series_text};
ghost use Rattle.fr_series.specs.Stopping.{RowsEnd, SeriesEnds, rows_before};
ghost use Rattle.fr_series.specs.Writing.{IsAtDouble, is_double_followed, is_followed, rows_of, text_of_double};

use crate::figures::Figures;
use crate::lines::{cycle_line, end_lines, head_line};
use crate::scale::Scale;
use fr_base::{NodeRow, PutFault, RowList, Sink};
use fr_bound::DoubleNumber;
use fr_skew::in_sync_within;
use fr_text::{put_line, put_lines};
use fr_world::World;

/// Runs all cycles of a world that has run none, and writes the series of the run: a line for each cycle, as soon as
/// its double cycle was run, and three lines at the end. Puts have whole lines. A fault comes only where the sink
/// counted it, and then a front of the text was put, and no further cycle is run: of the double cycles that were run
/// the lines of all but the last had been put whole. It takes no memory but what the sink does.
pub fn write_series<O: Sink>(world: &mut World, out: &mut O) -> Result<(), PutFault>
    requires { world.old.cycles ≡ 0 }
    ensures text { Puts result (O.state out.old) (O.state out.new)
        (series_text world.old.params world.old.drift world.old.script) }
    ensures ran { SeriesEnds result world.old world.new (O.state out.old) (O.state out.new) }
{
    let mut figures = Figures::none();
    put_line(&head_line(), out)?;
    write_rows(world, &mut figures, out)?;
    put_lines(&end_lines(&figures), out)
}

// Writes the lines of all cycles, and gathers the figures.
fn write_rows<O: Sink>(
    world: &mut World,
    figures: &mut Figures,
    out: &mut O,
) -> Result<(), PutFault>
    requires fresh { world.old.cycles ≡ 0 }
    requires none { figures.old ≡ figures_of world.old.params [] }
    ensures ran { RowsEnd (rows_before world.old) result world.old world.new (O.state out.old) (O.state out.new) }
    ensures text { Puts result (O.state out.old) (O.state out.new)
        (series_rows world.old.params
        (told_of (cycles_of (setting_after world.old) (2 * doubles_of world.old.drift)))) }
    ensures figures { IsOk result →
        figures.new ≡ figures_of world.old.params
        (cycles_of (setting_after world.old) (2 * doubles_of world.old.drift)) }
{
    let scale = Scale::of(world.params());
    let doubles = world.drift().doubles();
    for double in 0..doubles {
        write_double(world, &scale, DoubleNumber(double), figures, out)?;
    }
    Ok(())
}

// Runs a double cycle, and writes its lines.
fn write_double<O: Sink>(
    world: &mut World,
    scale: &Scale,
    double: DoubleNumber,
    figures: &mut Figures,
    out: &mut O,
) -> Result<(), PutFault>
    requires at { IsAtDouble world.old double }
    requires scale { scale.now ≡ scale_of world.old.params }
    requires proper { IsScale scale.now }
    ensures ran { world.new ≡ record world.old { cycles = world.old.cycles + 2 } }
    ensures figures { figures.new ≡ followed scale.now double
        (rows_of world.old world.old.cycles) (rows_of world.old (world.old.cycles + 1))
        (is_double_followed world.old world.old.cycles) figures.old }
    ensures text { Puts result (O.state out.old) (O.state out.new)
        (text_of_double scale.now double
        (rows_of world.old world.old.cycles) (rows_of world.old (world.old.cycles + 1))) }
{
    let mut even = RowList::new();
    let mut odd = RowList::new();
    let followed = next_rows(world, &mut even);
    let following = next_rows(world, &mut odd);
    put_double(
        scale,
        double,
        even.as_slice(),
        odd.as_slice(),
        followed || following,
        figures,
        out,
    )
}

// Runs the next cycle, and keeps its rows; whether a node follows in it.
pub(crate) fn next_rows(world: &mut World, rows: &mut RowList) -> bool
    requires { world.old.cycles < 2 * doubles_of world.old.drift }
    ensures ran { world.new ≡ record world.old { cycles = world.old.cycles + 1 } }
    ensures rows { rows.new ≡ rows_of world.old world.old.cycles }
    ensures placed { All (IsPlacedRow (grid_for world.old.params)) rows.new }
    ensures following { result ≡ is_followed world.old world.old.cycles }
{
    match world.cycle() {
        Some(row) => rows.assign(&row.rows),
        None => unreachable!(),
    }
    world.following()
}

// Writes the lines of a double cycle, by the rows of its two cycles, and gathers its figures with whether a node follows
// in it.
fn put_double<O: Sink>(
    scale: &Scale,
    double: DoubleNumber,
    even: &[NodeRow],
    odd: &[NodeRow],
    following: bool,
    figures: &mut Figures,
    out: &mut O,
) -> Result<(), PutFault>
    requires scale { IsScale scale.now }
    requires even { All (IsPlacedRow scale.now.grid) even.now }
    requires odd { All (IsPlacedRow scale.now.grid) odd.now }
    ensures figures { figures.new ≡ followed scale.now double even.now odd.now following figures.old }
    ensures text { Puts result (O.state out.old) (O.state out.new)
        (text_of_double scale.now double even.now odd.now) }
{
    let in_sync = are_in_sync(scale, even, odd);
    *figures = figures.followed(scale, double, even, odd, in_sync, following);
    let cycle = 2 * double.0;
    put_line(&cycle_line(cycle, in_sync, scale.peak(cycle, even)), out)?;
    put_line(
        &cycle_line(cycle + 1, in_sync, scale.peak(cycle + 1, odd)),
        out,
    )
}

// Whether the clocks are in sync in a double cycle.
pub(crate) fn are_in_sync(scale: &Scale, even: &[NodeRow], odd: &[NodeRow]) -> bool
    requires scale { IsScale scale.now }
    requires even { All (IsPlacedRow scale.now.grid) even.now }
    requires odd { All (IsPlacedRow scale.now.grid) odd.now }
    ensures { result ≡ are_in_sync scale.now.bounds even.now odd.now }
{
    in_sync_within(&scale.bounds, even, odd)
}
