ghost use Rattle.std.specs.Prelude.{◌≡◌, [], IfOk, IfErr, OnOk};
ghost use Rattle.fr_base.specs.Device.{Asks};
ghost use Rattle.fr_text.specs.Files.{StopsIn};
ghost use Rattle.fr_report.specs.Files.{HaveFiles, IsAnyText, run_files};
ghost use Rattle.fr_report.specs.Names.{names_in, run_names_of};

use crate::files::RunFiles;
use fr_base::Shelf;
use fr_drift::DriftFile;
use fr_params::ParamsFile;
use fr_script::ScriptFile;
use fr_text::{Told, accepted};
use fr_world::{BuildFault, World};
use std::alloc::Global;

/// Reads the three files, one after the other, and builds the world of the run that they decide, before its first
/// cycle. Each file is loaded once, and only where those before it are accepted. A failure comes where a file can't be
/// loaded, is not accepted, or memory runs out, and tells the first such file; or where memory runs out for the run.
pub fn world_of<S: Shelf>(alloc: Global, files: RunFiles<'_>, shelf: &mut S) -> Result<World, Told>
    ensures fresh { IfOk result (λ world. world.cycles ≡ 0) }
    ensures files { IfOk result (λ world.
        HaveFiles (S.state shelf.old) (run_names_of files.entry) world.params world.drift world.script) }
    ensures stops { IfErr result
        (StopsIn (run_files IsAnyText) [] (names_in (run_names_of files.entry)) (S.state shelf.old)
        (S.state shelf.new)) }
    ensures asked { OnOk result
        (Asks (S.state shelf.old).asked (S.state shelf.new).asked (names_in (run_names_of files.entry))) }
{
    let params = accepted(alloc, &ParamsFile {}, files.params, shelf)?;
    let drift = accepted(alloc, &DriftFile { params: &params }, files.drift, shelf)?;
    let script = accepted(alloc, &ScriptFile { params: &params }, files.script, shelf)?;
    match World::build(alloc, params, drift, script) {
        Ok(world) => Ok(world),
        Err(BuildFault::NoMemory) => Err(Told::no_memory()),
    }
}
