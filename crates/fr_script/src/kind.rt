use crate::{Script, ScriptFault, read};
use fr_cluster::Params;
use fr_text::FileKind;
use std::alloc::Global;

/// The kind of a script, by the parameters of its cluster.
#[derive(Clone, Copy)]
pub struct ScriptFile<'a> {
    /// The parameters of the cluster.
    pub params: &'a Params,
}

impl<'a> FileKind for ScriptFile<'a> {
    ghost use Rattle.fr_script.specs.Files.{script_file};

    type Value = Script;

    type Fault = ScriptFault;

    ghost kind = { λ file. script_file file.params.now };

    fn read(&self, alloc: Global, bytes: &[u8]) -> Result<Script, ScriptFault> {
        read(alloc, self.params, bytes)
    }

    fn is_no_memory(&self, fault: &ScriptFault) -> bool {
        *fault == ScriptFault::NoMemory
    }
}
