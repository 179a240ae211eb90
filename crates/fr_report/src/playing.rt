ghost use Rattle.std.specs.Prelude.{◌≡◌, ◌+◌, ◌*◌, ◌<◌};
ghost use Rattle.fr_base.specs.Device.{Puts};
ghost use Rattle.fr_drift.specs.Questions.{doubles_of};
ghost use Rattle.fr_history.specs.Next.{cycles_of};
ghost use Rattle.fr_promise.specs.Files.{IsPrecise};
ghost use Rattle.fr_report.specs.Worlds.{IsReportOf};
ghost use Rattle.fr_world.specs.World.{setting_after};
ghost use Rattle.fr_report.specs.RunText.{IsRunText, run_text};

use crate::gathering::{add_next, write_report};
use crate::run_laws::a_run_is_lawful;
use fr_base::{PutFault, Sink};
use fr_coverage::covered;
use fr_lines::Report;
use fr_world::World;

/// Runs all cycles of a world that has run none, and writes the report of the run: the greatest skew and its
/// first place over all its macroticks beside the precision, whether the run is covered, from which double
/// cycle on the clocks are in sync and no node follows, what was sent and heard, and where each node with a row
/// ends. Puts have whole lines. A fault comes only where the sink counted it, and then a front of the text was
/// put; all cycles are run also then. It takes no memory but what the sink does. With either result the text is the
/// report of the one lawful run, whose figures mean what they are called; where it is covered, the run keeps its
/// precision from its first double cycle in sync on in which no node follows.
pub fn play<O: Sink>(world: &mut World, out: &mut O) -> Result<(), PutFault>
    requires { world.old.cycles ≡ 0 }
    ensures ran { world.new ≡ record world.old { cycles = 2 * doubles_of world.old.drift } }
    ensures text { Puts result (O.state out.old) (O.state out.new)
        (run_text world.old.params world.old.drift world.old.script) }
    ensures means { IsRunText world.old.params world.old.drift world.old.script
        (run_text world.old.params world.old.drift world.old.script) }
    ensures precise { IsPrecise world.old.params world.old.drift world.old.script
        (cycles_of (setting_after world.old) (2 * doubles_of world.old.drift)) }
{
    a_run_is_lawful();
    let report = run_all(world);
    let gap = covered(world.params(), world.drift(), world.script());
    write_report(&report, world, gap, out)
}

// Runs all cycles, and gathers their report.
fn run_all(world: &mut World) -> Report
    requires { world.old.cycles ≡ 0 }
    ensures ran { world.new ≡ record world.old { cycles = 2 * doubles_of world.old.drift } }
    ensures held { IsReportOf world.new result }
{
    let mut report = Report::new(world.params());
    let cycles = 2 * world.drift().doubles();
    for _done in 0..cycles {
        add_next(&mut report, world);
    }
    report
}
