ghost use Rattle.std.specs.Prelude.{◌+◌, ◌<◌, All};
ghost use Rattle.fr_script.specs.Promises.{NodesJoinProperly};
ghost use Rattle.fr_air.specs.Files.{setting_in};
ghost use Rattle.fr_air.specs.Listening.{StartsEarly};
ghost use Rattle.fr_world.specs.World.{IsRowOf, StandAfter};

use crate::stage::Stage;
use fr_air::files::{RunInputs, files_are_lawful, sane};
use fr_base::{CycleRow, Slot};

// Runs a cycle of all nodes, and writes its row: as an even one begins, followers join or go on, and listeners begin to
// follow; and behind all slots those that listen catch what their references sent.
pub(crate) fn run_cycle(
    files: &RunInputs,
    keys: &[Slot],
    cycle: u32,
    stage: &mut Stage,
    row: &mut CycleRow,
)
    requires in_run { cycle < 200_000 }
    requires joins { NodesJoinProperly files.now.params files.now.script }
    requires stand { StandAfter files.now cycle keys.now stage.old row.old.devs }
    ensures stand { StandAfter files.now (cycle + 1) keys.now stage.new row.new.devs }
    ensures row { IsRowOf (setting_in files.now) cycle row.new }
    ensures early { All (StartsEarly files.now cycle) row.new.rows }
{
    sane(&files.params);
    files_are_lawful(files);
    stage.succeed(files, cycle);
    stage.begin(files, cycle);
    stage.hear_all(files, cycle);
    stage.listen(files, cycle);
    stage.end(files, keys, cycle, row);
}
