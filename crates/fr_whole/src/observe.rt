ghost use Rattle.std.specs.Prelude.{◌≡◌, IfErr, IfOk};
ghost use Rattle.fr_findings.specs.Text.{AreGathered};
ghost use Rattle.fr_program.specs.Around.{around_of};
ghost use Rattle.fr_program.specs.Command.{CommandEnds};
ghost use Rattle.fr_program.specs.Failure.{EndingWritesNothing};
ghost use Rattle.fr_text.specs.Files.{IsDecided};
ghost use Rattle.fr_text.specs.Told.{no_memory};
ghost use Rattle.fr_whole.specs.ObserveAnswer.{observe_command, observe_files};

use crate::observe_laws::an_observed_text_is_so;
use fr_base::{Shelf, Sink};
use fr_cluster::Params;
use fr_findings::write_observed;
use fr_log::{Log, LogFile};
use fr_params::ParamsFile;
use fr_program::Failure;
use fr_sightings::{SightingList, sightings};
use fr_text::{Told, accepted};
use std::alloc::Global;

/// The names of the files of a request for what a log tells.
#[derive(Clone, Copy)]
pub struct ObserveFiles<'a> {
    /// The parameters of the cluster.
    pub params: &'a str,
    /// The log of an observer of it.
    pub log: &'a str,
}

/// Reads the two files, one after the other, and writes what the log tells of the cluster's clocks, in puts of whole
/// lines. Each file is loaded once, the second only where the first is accepted. A failure comes where a file can't be
/// loaded, is not accepted, or memory runs out, and tells the first such file (`Stopped`); or where the sink counted a
/// fault (`WriteFault`).
pub fn answer_observe<S: Shelf, O: Sink>(
    alloc: Global,
    files: ObserveFiles<'_>,
    shelf: &mut S,
    out: &mut O,
) -> Result<(), Failure>
    ensures ends { CommandEnds (observe_command files.entry.params.now files.entry.log.now)
        (around_of (S.state shelf.old) (S.state shelf.new) (O.state out.old) (O.state out.new)) result }
    ensures unwritten { EndingWritesNothing result → out.new ≡ out.old }
{
    an_observed_text_is_so();
    let params = accepted(alloc, &ParamsFile {}, files.params, shelf)?;
    let log = accepted(alloc, &LogFile { params: &params }, files.log, shelf)?;
    let seen = seen_in(alloc, &params, &log)?;
    match write_observed(&params, &log, &seen, out) {
        Ok(()) => Ok(()),
        Err(_) => Err(Failure::WriteFault),
    }
}

// The sightings of a log.
fn seen_in(alloc: Global, params: &Params, log: &Log) -> Result<SightingList, Told>
    ensures gathered { IfOk result (AreGathered params.now log.now) }
    ensures failed { IfErr result (λ why. why ≡ no_memory) }
{
    match sightings(alloc, params, log) {
        Ok(seen) => Ok(seen),
        Err(_) => Err(Told::no_memory()),
    }
}

/// A law: the bytes of both files decide what is written. Two texts that the answer's clause allows for files of the
/// same bytes are the same.
pub fn files_decide_what_is_told()
    ensures { IsDecided observe_files }
{
    fr_params::one_answer();
    fr_log::one_answer();
}
