use crate::basis::Basis;
use crate::course::Course;
use crate::scale::Scale;

/// What the double cycles of a run are told by, one after the other.
#[derive(Clone, Copy, Debug, PartialEq, Eq)]
pub struct Known {
    /// The numbers of a series.
    pub older: Scale,
    /// Those by which the next double cycle is in sharp sync.
    pub course: Course,
    /// What the run rests on from its first double cycle in sharp sync on, if there was one.
    pub basis: Option<Basis>,
}
