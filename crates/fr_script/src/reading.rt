ghost use Rattle.std.specs.Prelude.{IfOk};
ghost use Rattle.fr_text.specs.Kind.{Reads};
ghost use Rattle.fr_script.specs.Files.{IsSoundScript, script_file};

use crate::draft::Draft;
use crate::fault::ScriptFault;
use crate::script::Script;
use fr_cluster::Params;
use fr_text::{RowFault, read_records};
use std::alloc::Global;

/// Reads the fault script of a cluster with these parameters: which nodes are arbitrary and which join the running
/// cluster, and what is done to frames. It accepts exactly the files of which no record is refused, the empty one
/// among them; the answer is what the file stands for.
///
/// Its only refusal is `Row`, the first record that is refused, by its number from 1, with the least reason
/// that holds. `NoMemory` comes where memory ran out.
pub fn read(alloc: Global, params: &Params, bytes: &[u8]) -> Result<Script, ScriptFault>
    ensures reads { Reads (script_file params.now) bytes.now result }
    ensures sound { IfOk result (IsSoundScript params.now) }
{
    let mut draft = Draft::new(alloc, params);
    match read_records(alloc, bytes, &mut draft) {
        Ok(()) => Ok(draft.into_script()),
        Err(RowFault::Row { number, reason }) => Err(ScriptFault::Row { number, reason }),
        Err(RowFault::NoMemory) => Err(ScriptFault::NoMemory),
    }
}
