use fr_base::Reason;
use thiserror::Error;

/// Why a drift file is not accepted, in the order in which the causes are looked for.
#[derive(Clone, Copy, Debug, PartialEq, Eq, Error)]
pub enum DriftFault {
    /// The first record that is refused, by its number from 1, and the least reason that holds.
    #[error("record {number} is refused: {reason:?}")]
    Row { number: u64, reason: Reason },
    /// No record says how many double cycles the run has.
    #[error("doubles is missing")]
    MissingDoubles,
    /// Memory ran out.
    #[error("out of memory")]
    NoMemory,
}
