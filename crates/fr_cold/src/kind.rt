use crate::{Power, PowerFault, read};
use fr_cluster::Params;
use fr_text::FileKind;
use std::alloc::Global;

/// The kind of a power file, by the parameters of its cluster.
#[derive(Clone, Copy)]
pub struct PowerFile<'a> {
    /// The parameters of the cluster.
    pub params: &'a Params,
}

impl<'a> FileKind for PowerFile<'a> {
    ghost use Rattle.fr_cold.specs.Files.{power_file};

    type Value = Power;

    type Fault = PowerFault;

    ghost kind = { λ file. power_file file.params.now };

    fn read(&self, alloc: Global, bytes: &[u8]) -> Result<Power, PowerFault> {
        read(alloc, self.params, bytes)
    }

    fn is_no_memory(&self, fault: &PowerFault) -> bool {
        *fault == PowerFault::NoMemory
    }
}
