use fr_pool::PoolFault;
use std::alloc::AllocError;

/// Why a world is not built.
#[derive(Clone, Copy, Debug, PartialEq, Eq)]
pub enum BuildFault {
    /// Memory ran out.
    NoMemory,
}

impl From<AllocError> for BuildFault {
    fn from(_: AllocError) -> BuildFault {
        BuildFault::NoMemory
    }
}

impl From<PoolFault> for BuildFault {
    fn from(_: PoolFault) -> BuildFault {
        BuildFault::NoMemory
    }
}
