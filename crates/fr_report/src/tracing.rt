ghost use Rattle.std.specs.Prelude.{◌≡◌, ◌+◌, ◌*◌, ◌<◌, length};
ghost use Rattle.fr_base.specs.Device.{Puts};
ghost use Rattle.fr_coverage.specs.Decided.{setting_of};
ghost use Rattle.fr_drift.specs.Questions.{doubles_of};
ghost use Rattle.fr_history.specs.Cycles.{told_of};
ghost use Rattle.fr_history.specs.History.{History};
ghost use Rattle.fr_history.specs.Next.{cycles_of, next_cycle};
ghost use Rattle.fr_history.specs.Recorded.{recorded};
ghost use Rattle.fr_trace.specs.Items.{items_in};
ghost use Rattle.fr_trace.specs.Text.{arbitrary_in, cycle_text, head_text, items_text, joining_in};
ghost use Rattle.fr_world.specs.World.{setting_after};
ghost use Rattle.fr_program.specs.Around.{around_of};
ghost use Rattle.fr_program.specs.Command.{CommandEnds};
ghost use Rattle.fr_program.specs.Failure.{EndingWritesNothing};
ghost use Rattle.fr_program.specs.Gathered.{Gathers};
ghost use Rattle.fr_report.specs.Files.{run_command};
ghost use Rattle.fr_report.specs.Names.{run_names_of};
ghost use Rattle.fr_report.specs.TraceAnswer.{IsTraceText, trace_text};

use crate::trace_laws::a_trace_is_lawful;
use crate::{RunFiles, RunWriter, answer_world, world_of};
use fr_base::{CycleRow, PutFault, Shelf, Sink};
use fr_cluster::Params;
use fr_drift::Drift;
use fr_history::one_lawful_run;
use fr_program::{Failure, Gathered};
use fr_script::Script;
use fr_trace::{write_cycle, write_head};
use fr_world::World;
use std::alloc::Global;

/// Reads the three files, one after the other, runs the cluster that they decide, and writes the trace of the run,
/// cycle by cycle. Each file is loaded once, and only where those before it are accepted. A failure comes where a
/// file can't be loaded, is not accepted, or memory runs out, and tells the first such file; where memory runs out
/// for the run (`Stopped`); or where the sink counted a fault (`WriteFault`).
pub fn answer_trace<S: Shelf, O: Sink>(
    alloc: Global,
    files: RunFiles<'_>,
    shelf: &mut S,
    out: &mut O,
) -> Result<(), Failure>
    ensures ends { CommandEnds (run_command IsTraceText (run_names_of files.entry))
        (around_of (S.state shelf.old) (S.state shelf.new) (O.state out.old) (O.state out.new)) result }
    ensures unwritten { EndingWritesNothing result → out.new ≡ out.old }
{
    a_trace_is_lawful();
    answer_world(world_of(alloc, files, shelf), &TraceWriter { alloc }, out)
}

// Writes the trace; it takes memory for lines that wait.
#[derive(Drop)]
struct TraceWriter {
    alloc: Global,
}

impl RunWriter for TraceWriter {
    ghost use Rattle.fr_report.specs.TraceAnswer.{trace_text};

    ghost text = { trace_text };

    fn write<O: Sink>(&self, world: &mut World, out: &mut O) -> Result<(), PutFault> {
        write_trace(self.alloc, world, out)
    }
}

// Runs all cycles of a world that has run none, and writes the trace of the run.
fn write_trace<O: Sink>(alloc: Global, world: &mut World, out: &mut O) -> Result<(), PutFault>
    requires { world.old.cycles ≡ 0 }
    ensures { Puts result (O.state out.old) (O.state out.new)
        (trace_text world.old.params world.old.drift world.old.script) }
{
    let mut waiting = Gathered::new(alloc);
    write_lines(world, &mut waiting, out)?;
    waiting.put_all(out)
}

// Writes all lines, of which the last ones wait in the end.
fn write_lines<O: Sink>(
    world: &mut World,
    waiting: &mut Gathered,
    out: &mut O,
) -> Result<(), PutFault>
    requires { world.old.cycles ≡ 0 }
    ensures { Gathers result waiting.old.bytes waiting.new.bytes (O.state out.old) (O.state out.new)
        (trace_text world.old.params world.old.drift world.old.script) }
{
    gather_head(world.params(), world.drift(), world.script(), waiting, out)?;
    write_cycles(world, waiting, out)
}

// Writes the lines of all cycles.
fn write_cycles<O: Sink>(
    world: &mut World,
    waiting: &mut Gathered,
    out: &mut O,
) -> Result<(), PutFault>
    requires { world.old.cycles ≡ 0 }
    ensures { Gathers result waiting.old.bytes waiting.new.bytes (O.state out.old) (O.state out.new)
        (items_text (items_in (told_of (cycles_of (setting_after world.old) (2 * doubles_of world.old.drift))))) }
{
    let cycles = 2 * world.drift().doubles();
    for _done in 0..cycles {
        write_next(world, waiting, out)?;
    }
    Ok(())
}

// Runs the next cycle, and writes its lines.
fn write_next<O: Sink>(
    world: &mut World,
    waiting: &mut Gathered,
    out: &mut O,
) -> Result<(), PutFault>
    requires { world.old.cycles < 2 * doubles_of world.old.drift }
    ensures ran { world.new ≡ record world.old { cycles = world.old.cycles + 1 } }
    ensures text { Gathers result waiting.old.bytes waiting.new.bytes (O.state out.old) (O.state out.new)
        (cycle_text (told_of (cycles_of (setting_after world.old) world.old.cycles))
        (next_cycle (setting_after world.old) (cycles_of (setting_after world.old) world.old.cycles)).told) }
{
    one_lawful_run();
    match world.cycle() {
        Some(row) => gather_cycle(row, waiting, out),
        None => unreachable!(),
    }
}

// Lets the lines before the cycles wait, or puts them behind what waits where there is no room for them.
fn gather_head<O: Sink>(
    params: &Params,
    drift: &Drift,
    script: &Script,
    waiting: &mut Gathered,
    out: &mut O,
) -> Result<(), PutFault>
    ensures { Gathers result waiting.old.bytes waiting.new.bytes (O.state out.old) (O.state out.new)
        (head_text (doubles_of drift.now) (arbitrary_in (setting_of params.now drift.now script.now))
        (joining_in (setting_of params.now drift.now script.now))) }
{
    let before = waiting.len();
    match write_head(params, drift, script, waiting) {
        Ok(()) => waiting.put_many(out),
        Err(_) => {
            waiting.put_front(before, out)?;
            write_head(params, drift, script, out)
        }
    }
}

// The same of the lines of a cycle.
fn gather_cycle<O: Sink>(
    row: &CycleRow,
    waiting: &mut Gathered,
    out: &mut O,
) -> Result<(), PutFault>
    ensures { (h : History) → length h ≡ row.now.cycle →
        Gathers result waiting.old.bytes waiting.new.bytes (O.state out.old) (O.state out.new)
        (cycle_text h (recorded row.now)) }
{
    let before = waiting.len();
    match write_cycle(row, waiting) {
        Ok(()) => waiting.put_many(out),
        Err(_) => {
            waiting.put_front(before, out)?;
            write_cycle(row, out)
        }
    }
}
