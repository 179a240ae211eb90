use fr_base::Reason;
use thiserror::Error;

/// Why a trace is not accepted, in the order in which the causes are looked for.
#[derive(Clone, Copy, Debug, PartialEq, Eq, Error)]
pub enum TraceFault {
    /// The first record that is refused, by its number from 1, and the least reason that holds.
    #[error("record {number} is refused: {reason:?}")]
    Row { number: u64, reason: Reason },
    /// The file ends before its last row: it has so many records.
    #[error("it ends after {rows} records")]
    Incomplete { rows: u64 },
    /// Memory ran out.
    #[error("out of memory")]
    NoMemory,
}
