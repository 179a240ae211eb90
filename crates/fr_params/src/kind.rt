use crate::{ParamFault, read};
use fr_cluster::Params;
use fr_text::FileKind;
use std::alloc::Global;

/// The kind of a parameter file.
#[derive(Clone, Copy, Debug)]
pub struct ParamsFile {}

impl FileKind for ParamsFile {
    ghost use Rattle.fr_params.specs.Files.{params_file};

    type Value = Params;

    type Fault = ParamFault;

    ghost kind = { λ _. params_file };

    fn read(&self, alloc: Global, bytes: &[u8]) -> Result<Params, ParamFault> {
        read(alloc, bytes)
    }

    fn is_no_memory(&self, fault: &ParamFault) -> bool {
        *fault == ParamFault::NoMemory
    }
}
