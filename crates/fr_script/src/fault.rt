use fr_base::Reason;
use thiserror::Error;

/// Why a script is not accepted.
#[derive(Clone, Copy, Debug, PartialEq, Eq, Error)]
pub enum ScriptFault {
    /// The first record that is refused, by its number from 1, and the least reason that holds.
    #[error("record {number} is refused: {reason:?}")]
    Row { number: u64, reason: Reason },
    /// Memory ran out.
    #[error("out of memory")]
    NoMemory,
}
