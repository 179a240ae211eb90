ghost use Rattle.std.specs.Prelude.{◌≡◌, ℕ, List, IfErr, IfOk, Err};
ghost use Rattle.fr_base.specs.Device.{Puts};
ghost use Rattle.fr_cluster.specs.Values.{Values};
ghost use Rattle.fr_drift.specs.View.{DriftView};
ghost use Rattle.fr_program.specs.declared.failure.Failure.TheVariants as failure;
ghost use Rattle.fr_script.specs.View.{ScriptView};
ghost use Rattle.fr_report.specs.Worlds.{IsPutOnly};

use fr_base::{PutFault, Sink};
use fr_program::Failure;
use fr_text::Told;
use fr_world::World;

/// Writes a text of a run.
pub trait RunWriter {
    /// The text, by the three files.
    ghost text: { Values → DriftView → ScriptView → List ℕ };

    /// Runs all cycles of a world that has run none, and writes the text of the run. A fault comes only where the sink
    /// counted it, and then a front of the text was put.
    fn write<O: Sink>(&self, world: &mut World, out: &mut O) -> Result<(), PutFault>
        requires { world.old.cycles ≡ 0 }
        ensures { Puts result (O.state out.old) (O.state out.new)
            (text world.old.params world.old.drift world.old.script) };
}

/// Writes a text of the run of a world, before its first cycle, or answers why there is none. Where there is one
/// nothing but a put can fail: want of memory is no answer then.
pub fn answer_world<W: RunWriter, O: Sink>(
    world: Result<World, Told>,
    writer: &W,
    out: &mut O,
) -> Result<(), Failure>
    requires { IfOk world (λ world. world.cycles ≡ 0) }
    ensures stopped { IfErr world (λ why. result ≡ Err (failure.Stopped why)) }
    ensures unwritten { IfErr world (λ why. out.new ≡ out.old) }
    ensures written { IfOk world (λ world.
        IsPutOnly (W.text world.params world.drift world.script) (O.state out.old) (O.state out.new) result) }
{
    let mut world = world?;
    match writer.write(&mut world, out) {
        Ok(()) => Ok(()),
        Err(_) => Err(Failure::WriteFault),
    }
}
