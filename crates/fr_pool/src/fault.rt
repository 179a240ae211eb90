use std::alloc::AllocError;

/// Why a pool is not made.
#[derive(Clone, Copy, Debug, PartialEq, Eq)]
pub enum PoolFault {
    /// Memory ran out.
    NoMemory,
}

impl From<AllocError> for PoolFault {
    fn from(_: AllocError) -> PoolFault {
        PoolFault::NoMemory
    }
}
