use crate::{Drift, DriftFault, read};
use fr_cluster::Params;
use fr_text::FileKind;
use std::alloc::Global;

/// The kind of a drift file, by the parameters of its cluster.
#[derive(Clone, Copy)]
pub struct DriftFile<'a> {
    /// The parameters of the cluster.
    pub params: &'a Params,
}

impl<'a> FileKind for DriftFile<'a> {
    ghost use Rattle.fr_drift.specs.Files.{drift_file};

    type Value = Drift;

    type Fault = DriftFault;

    ghost kind = { λ file. drift_file file.params.now };

    fn read(&self, alloc: Global, bytes: &[u8]) -> Result<Drift, DriftFault> {
        read(alloc, self.params, bytes)
    }

    fn is_no_memory(&self, fault: &DriftFault) -> bool {
        *fault == DriftFault::NoMemory
    }
}
