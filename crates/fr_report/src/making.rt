ghost use Rattle.std.specs.Prelude.{◌≡◌, IfErr, IfOk};
ghost use Rattle.fr_generator.specs.Generated.{IsGenerated, IsMadeCount};
ghost use Rattle.fr_base.specs.Device.{Shelved};
ghost use Rattle.fr_program.specs.Around.{around_of};
ghost use Rattle.fr_program.specs.Command.{CommandEnds};
ghost use Rattle.fr_program.specs.Failure.{EndingWritesNothing};
ghost use Rattle.fr_text.specs.Told.{no_memory};
ghost use Rattle.fr_report.specs.MakeAnswer.{make_command};
ghost use Rattle.fr_report.specs.RunText.{IsRunText, run_text};

use crate::answer_world;
use crate::run::ReportWriter;
use crate::run_laws::a_run_is_lawful;
use fr_base::Sink;
use fr_generator::{Generated, generate};
use fr_program::Failure;
use fr_text::Told;
use fr_world::{BuildFault, World};
use std::alloc::Global;

/// Makes the cluster of a seed, over 1 to 10,000 double cycles, runs it, and writes the report: that of `run`
/// on its parameters, its drift and its script. It loads no file. A failure comes where memory runs out
/// (`Stopped`), or where the sink counted a fault (`WriteFault`).
pub fn answer_made<O: Sink>(
    alloc: Global,
    seed: u32,
    doubles: u32,
    out: &mut O,
) -> Result<(), Failure>
    requires { IsMadeCount doubles }
    ensures ends { (shelf : Shelved) → CommandEnds (make_command seed doubles)
        (around_of shelf shelf (O.state out.old) (O.state out.new)) result }
    ensures unwritten { EndingWritesNothing result → out.new ≡ out.old }
{
    answer_world(made_world(alloc, seed, doubles), &ReportWriter {}, out)
}

// The world of a seed, before its first cycle.
fn made_world(alloc: Global, seed: u32, doubles: u32) -> Result<World, Told>
    requires { IsMadeCount doubles }
    ensures fresh { IfOk result (λ world. world.cycles ≡ 0) }
    ensures made { IfOk result (λ world.
        IsGenerated seed doubles (record { params = world.params; drift = world.drift; script = world.script })) }
    ensures shown { IfOk result (λ world. IsRunText world.params world.drift world.script
        (run_text world.params world.drift world.script)) }
    ensures failed { IfErr result (λ why. why ≡ no_memory) }
{
    let Ok(made) = generate(alloc, seed, doubles) else {
        return Err(Told::no_memory());
    };
    let Generated {
        params,
        drift,
        script,
    } = made;
    match World::build(alloc, params, drift, script) {
        Ok(world) => {
            report_is_lawful(&world);
            Ok(world)
        }
        Err(BuildFault::NoMemory) => Err(Told::no_memory()),
    }
}

// The text of a world's run is the report of its one lawful run.
fn report_is_lawful(world: &World)
    ensures { IsRunText world.now.params world.now.drift world.now.script
        (run_text world.now.params world.now.drift world.now.script) }
{
    a_run_is_lawful();
    let _ = world.params();
    let _ = world.drift();
    let _ = world.script();
}
