ghost use Rattle.std.specs.Prelude.{IfOk};
ghost use Rattle.fr_text.specs.Kind.{Reads};
ghost use Rattle.fr_log.specs.Files.{IsSoundLog, log_file};

use crate::draft::Draft;
use crate::fault::LogFault;
use crate::log::Log;
use fr_cluster::Params;
use fr_text::{RowFault, read_records};
use std::alloc::Global;

/// Reads the log of an observer of a cluster with these parameters. It accepts exactly the files of which no record is
/// refused, that say how long a unit is and how far off the observer's clock, and that limit the delay of each correct
/// node with a key slot on each of its channels; the answer is what the file stands for.
///
/// Its refusal is the first in this order: `Row`, the first record that is refused, by its number from 1, with the
/// least reason that holds; `MissingUnit`; `MissingDrift`; `MissingDelay`. `NoMemory` comes where memory ran out.
pub fn read(alloc: Global, params: &Params, bytes: &[u8]) -> Result<Log, LogFault>
    ensures reads { Reads (log_file params.now) bytes.now result }
    ensures sound { IfOk result (IsSoundLog params.now) }
{
    let mut draft = Draft::new(alloc, params);
    match read_records(alloc, bytes, &mut draft) {
        Ok(()) => draft.into_log(params),
        Err(RowFault::Row { number, reason }) => Err(LogFault::Row { number, reason }),
        Err(RowFault::NoMemory) => Err(LogFault::NoMemory),
    }
}
