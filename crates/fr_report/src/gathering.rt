ghost use Rattle.std.specs.Prelude.{◌≡◌, ◌+◌, ◌*◌, ◌<◌};
ghost use Rattle.std.specs.Result.{result_err};
ghost use Rattle.fr_base.specs.Device.{Puts};
ghost use Rattle.fr_coverage.specs.Coverage.{first_gap};
ghost use Rattle.fr_drift.specs.Questions.{doubles_of};
ghost use Rattle.fr_lines.specs.Text.{report_of};
ghost use Rattle.fr_lines.specs.Told.{run_told};
ghost use Rattle.fr_report.specs.Worlds.{IsReportOf, world_text};
ghost use Rattle.fr_world.specs.World.{setting_after, world_cycles};

use crate::clocks::clocks_of;
use fr_base::{PutFault, Sink};
use fr_coverage::Gap;
use fr_lines::{Report, Told};
use fr_world::World;

/// Runs the next cycle of a world, and adds its row to a report with whether a node followed: one that held the
/// cycles of the world holds them then too.
pub fn add_next(report: &mut Report, world: &mut World)
    requires more { world.old.cycles < 2 * doubles_of world.old.drift }
    requires held { IsReportOf world.old report.old }
    ensures ran { world.new ≡ record world.old { cycles = world.old.cycles + 1 } }
    ensures held { IsReportOf world.new report.new }
{
    // It bounds the cycles of a world.
    let _doubles = world.drift().doubles();
    run_next(world);
    let following = world.following();
    match world.row() {
        Some(row) => report.add(row, following),
        None => unreachable!(),
    }
}

// Runs the next cycle of a world that has one.
fn run_next(world: &mut World)
    requires { world.old.cycles < 2 * doubles_of world.old.drift }
    ensures { world.new ≡ record world.old { cycles = world.old.cycles + 1 } }
{
    match world.cycle() {
        Some(_row) => {}
        None => unreachable!(),
    }
}

/// What is told of the cycles that a world has run, which the report holds, with the first gap of the run where it is
/// not covered.
pub fn told_of(report: &Report, world: &World, gap: Result<(), Gap>) -> Told
    requires { IsReportOf world.now report.now }
    ensures { result ≡ run_told (setting_after world.now) (result_err gap) (world_cycles world.now) }
{
    let params = world.params();
    let clocks = clocks_of(world.nodes(), report);
    report.told(params, world.drift(), world.script(), gap, clocks)
}

/// Writes the report of the cycles that a world has run, which this one holds, with the first gap of the run where it
/// is not covered: with that which the world's files have it is their report. Puts have whole lines. A fault comes only
/// where the sink counted it, and then a front of the text was put.
pub fn write_report<O: Sink>(
    report: &Report,
    world: &World,
    gap: Result<(), Gap>,
    out: &mut O,
) -> Result<(), PutFault>
    requires { IsReportOf world.now report.now }
    ensures any { Puts result (O.state out.old) (O.state out.new)
        (report_of (setting_after world.now) (result_err gap) (world_cycles world.now)) }
    ensures first { result_err gap ≡ first_gap world.now.params world.now.drift world.now.script →
        Puts result (O.state out.old) (O.state out.new) (world_text world.now) }
{
    told_of(report, world, gap).write(out)
}
