ghost use Rattle.std.specs.Prelude.{◌≡◌, ◌+◌, ◌*◌, ◌<◌, All, [], unwrap_or};
ghost use Rattle.fr_base.specs.Device.{Puts};
ghost use Rattle.fr_drift.specs.Questions.{doubles_of};
ghost use Rattle.fr_history.specs.Next.{cycles_of};
ghost use Rattle.fr_lines.specs.Held.{ReportHolds};
ghost use Rattle.fr_report.specs.Worlds.{IsReportOf};
ghost use Rattle.fr_time.specs.Placed.{IsPlacedRow};
ghost use Rattle.fr_time.specs.Position.{grid_for};
ghost use Rattle.fr_world.specs.World.{setting_after};
ghost use Rattle.fr_series.specs.Basis.{sharp_figures_of, IsCourse};
ghost use Rattle.fr_series.specs.Scale.{IsScale};
ghost use Rattle.fr_whole.specs.SharpReport.{sharp_report_text};
ghost use Rattle.fr_series.specs.Writing.{first_sharp_at, is_followed, rows_of, IsAtDouble};

use crate::report_lines::sharp_report_lines;
use crate::sharp_gaps::SharpGaps;
use fr_base::{PutFault, RowList, Sink};
use fr_bound::{DoubleNumber, Flutter};
use fr_coverage::covered;
use fr_report::{Report, add_next, write_report};
use fr_series::{Basis, Course, SharpFigures, are_in_sharp_sync};
use fr_text::put_lines;
use fr_world::World;

/// Runs all cycles of a world that has run none, and writes what the sharper bounds say of the run, and behind it its
/// report. Each cycle is run once, and puts have whole lines. A fault comes only where the sink counted it, and then a
/// front of the text was put; all cycles are run also then. It takes no memory but what the sink does.
pub fn write_sharp_report<O: Sink>(world: &mut World, out: &mut O) -> Result<(), PutFault>
    requires { world.old.cycles ≡ 0 }
    ensures ran { world.new ≡ record world.old { cycles = 2 * doubles_of world.old.drift } }
    ensures text { Puts result (O.state out.old) (O.state out.new)
        (sharp_report_text world.old.params world.old.drift world.old.script) }
{
    let mut report = Report::new(world.params());
    let mut figures = SharpFigures::none();
    run_all(world, &mut report, &mut figures);
    let (params, drift, script) = (world.params(), world.drift(), world.script());
    let basis = Basis::of(params, drift, script, figures.synced.unwrap_or(0));
    let gaps = SharpGaps::of(params, drift, script, basis.from, Flutter(basis.flutter));
    put_lines(&sharp_report_lines(&basis, &gaps, &figures), out)?;
    let gap = covered(world.params(), world.drift(), world.script());
    write_report(&report, world, gap, out)
}

// Runs all cycles, and gathers their report and the figures of sharp sync.
fn run_all(world: &mut World, report: &mut Report, figures: &mut SharpFigures)
    requires fresh { world.old.cycles ≡ 0 }
    requires held { ReportHolds world.old.params report.old [] }
    requires none { figures.old ≡ sharp_figures_of world.old.params world.old.drift world.old.script [] }
    ensures ran { world.new ≡ record world.old { cycles = 2 * doubles_of world.old.drift } }
    ensures held { IsReportOf world.new report.new }
    ensures figures { figures.new ≡ sharp_figures_of world.old.params world.old.drift world.old.script
        (cycles_of (setting_after world.old) (2 * doubles_of world.old.drift)) }
{
    let doubles = world.drift().doubles();
    let mut course = Course::from(world.params(), world.drift(), world.script(), 0);
    for double in 0..doubles {
        add_double(world, double, &mut course, report, figures);
    }
}

// Runs a double cycle, and adds it to the report and to the figures of sharp sync.
fn add_double(
    world: &mut World,
    double: u32,
    course: &mut Course,
    report: &mut Report,
    figures: &mut SharpFigures,
)
    requires at { IsAtDouble world.old double }
    requires proper { IsScale course.old.scale }
    requires course { IsCourse world.old.params world.old.drift world.old.script
        (unwrap_or (first_sharp_at world.old double) double) course.old }
    requires held { IsReportOf world.old report.old }
    requires figures { figures.old ≡ sharp_figures_of world.old.params world.old.drift world.old.script
        (cycles_of (setting_after world.old) (2 * double)) }
    ensures ran { world.new ≡ record world.old { cycles = world.old.cycles + 2 } }
    ensures held { IsReportOf world.new report.new }
    ensures proper { IsScale course.new.scale }
    ensures course { IsCourse world.old.params world.old.drift world.old.script
        (unwrap_or (first_sharp_at world.old (double + 1)) (double + 1)) course.new }
    ensures figures { figures.new ≡ sharp_figures_of world.old.params world.old.drift world.old.script
        (cycles_of (setting_after world.old) (2 * (double + 1))) }
{
    let mut even = RowList::new();
    let mut odd = RowList::new();
    let followed = add_rows(world, report, &mut even);
    let following = add_rows(world, report, &mut odd);
    let (even, odd) = (even.as_slice(), odd.as_slice());
    let scale = course.scale;
    let in_sync = are_in_sharp_sync(&scale, even, odd);
    *figures = figures.followed(
        &scale,
        DoubleNumber(double),
        even,
        odd,
        in_sync,
        followed || following,
    );
    *course = course.behind(
        world.params(),
        world.drift(),
        world.script(),
        figures.synced,
        DoubleNumber(double),
    );
}

// Runs the next cycle, adds it to the report, and keeps its rows; whether a node follows in it.
fn add_rows(world: &mut World, report: &mut Report, rows: &mut RowList) -> bool
    requires more { world.old.cycles < 2 * doubles_of world.old.drift }
    requires held { IsReportOf world.old report.old }
    ensures ran { world.new ≡ record world.old { cycles = world.old.cycles + 1 } }
    ensures held { IsReportOf world.new report.new }
    ensures rows { rows.new ≡ rows_of world.old world.old.cycles }
    ensures placed { All (IsPlacedRow (grid_for world.old.params)) rows.new }
    ensures following { result ≡ is_followed world.old world.old.cycles }
{
    add_next(report, world);
    match world.row() {
        Some(row) => rows.assign(&row.rows),
        None => unreachable!(),
    }
    world.following()
}
