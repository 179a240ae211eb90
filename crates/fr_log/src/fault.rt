use fr_base::Reason;
use thiserror::Error;

/// Why a log is not accepted, in the order in which the causes are looked for.
#[derive(Clone, Copy, Debug, PartialEq, Eq, Error)]
pub enum LogFault {
    /// The first record that is refused, by its number from 1, and the least reason that holds.
    #[error("record {number} is refused: {reason:?}")]
    Row { number: u64, reason: Reason },
    /// No record says how long a unit of stamps is.
    #[error("unit is missing")]
    MissingUnit,
    /// No record says how far off the observer's clock is.
    #[error("drift is missing")]
    MissingDrift,
    /// A correct node with a key slot has a channel, and no record says what the delay of its frames there is.
    #[error("delay is missing")]
    MissingDelay,
    /// Memory ran out.
    #[error("out of memory")]
    NoMemory,
}
