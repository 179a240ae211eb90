ghost use Rattle.std.specs.Prelude.{◌≡◌};
ghost use Rattle.fr_nm.specs.declared.fault.VectorFault.TheVariants as vector;

use fr_base::Reason;
use std::alloc::AllocError;

/// Why a record is not taken.
#[derive(Clone, Copy, Debug, PartialEq, Eq)]
pub enum VectorFault {
    /// Memory ran out.
    NoMemory,
}

impl From<AllocError> for VectorFault {
    ghost from_gives = { λ _ made. made ≡ vector.NoMemory };

    fn from(_fault: AllocError) -> VectorFault {
        VectorFault::NoMemory
    }
}

/// Why a recording is not accepted.
#[derive(Clone, Copy, Debug, PartialEq, Eq)]
pub enum FileFault {
    /// The first record that is refused, by its number from 1, and the least reason that holds.
    Row { number: u64, reason: Reason },
    /// Memory ran out.
    NoMemory,
}
