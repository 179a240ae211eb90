use fr_base::Reason;
use fr_cluster::ParamName;
use thiserror::Error;

/// Why a parameter file is not accepted, in the order in which the causes are looked for.
#[derive(Clone, Copy, Debug, PartialEq, Eq, Error)]
pub enum ParamFault {
    /// The first record that is refused, by its number from 1, and the least reason that holds.
    #[error("record {number} is refused: {reason:?}")]
    Row { number: u64, reason: Reason },
    /// The first name of the table of the file's version that has no row.
    #[error("{0:?} is missing")]
    Missing(ParamName),
    /// The least number, from 1 to 8, of a constraint that fails.
    #[error("constraint {0} fails")]
    Constraint(u8),
    /// Memory ran out.
    #[error("out of memory")]
    NoMemory,
}
