use fr_base::Reason;
use thiserror::Error;

/// Why a power file is not accepted, in the order in which the causes are looked for.
#[derive(Clone, Copy, Debug, PartialEq, Eq, Error)]
pub enum PowerFault {
    /// The first record that is refused, by its number from 1, and the least reason that holds.
    #[error("record {number} is refused: {reason:?}")]
    Row { number: u64, reason: Reason },
    /// No record says how many cycles the run has.
    #[error("cycles is missing")]
    MissingCycles,
    /// Memory ran out.
    #[error("out of memory")]
    NoMemory,
}
