use crate::{Trace, TraceFault, read};
use fr_cluster::Params;
use fr_text::FileKind;
use std::alloc::Global;

/// The kind of a trace, by the parameters of its cluster.
#[derive(Clone, Copy)]
pub struct TraceFile<'a> {
    /// The parameters of the cluster.
    pub params: &'a Params,
}

impl<'a> FileKind for TraceFile<'a> {
    ghost use Rattle.fr_trace.specs.Files.{trace_file};

    type Value = Trace;

    type Fault = TraceFault;

    ghost kind = { λ file. trace_file file.params.now };

    fn read(&self, alloc: Global, bytes: &[u8]) -> Result<Trace, TraceFault> {
        read(alloc, self.params, bytes)
    }

    fn is_no_memory(&self, fault: &TraceFault) -> bool {
        *fault == TraceFault::NoMemory
    }
}
