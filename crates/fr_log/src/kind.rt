use crate::{Log, LogFault, read};
use fr_cluster::Params;
use fr_text::FileKind;
use std::alloc::Global;

/// The kind of a log, by the parameters of its cluster.
#[derive(Clone, Copy)]
pub struct LogFile<'a> {
    /// The parameters of the cluster.
    pub params: &'a Params,
}

impl<'a> FileKind for LogFile<'a> {
    ghost use Rattle.fr_log.specs.Files.{log_file};

    type Value = Log;

    type Fault = LogFault;

    ghost kind = { λ file. log_file file.params.now };

    fn read(&self, alloc: Global, bytes: &[u8]) -> Result<Log, LogFault> {
        read(alloc, self.params, bytes)
    }

    fn is_no_memory(&self, fault: &LogFault) -> bool {
        *fault == LogFault::NoMemory
    }
}
