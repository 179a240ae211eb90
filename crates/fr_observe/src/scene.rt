use crate::fault::LogSpan;
use crate::skews::Skews;
use fr_cluster::Params;
use fr_course::Scale;
use fr_log::Log;
use fr_sightings::{Sender, Sighting};

/// What a double cycle of a log is looked at with.
#[derive(Clone, Copy)]
pub struct Scene<'a> {
    /// The parameters of the cluster.
    pub params: &'a Params,
    /// The cluster's numbers as readings.
    pub scale: &'a Scale,
    pub log: &'a Log,
    /// The cycles from the first sighting of the log to the last.
    pub span: LogSpan,
    /// The sightings of the double cycle before.
    pub before: &'a [Sighting],
    /// Its own sightings.
    pub here: &'a [Sighting],
    /// Its number in the log, below 1,000,000.
    pub number: u32,
    /// Its senders, at most 64.
    pub senders: &'a [Sender],
    /// The limits of their skew, in ticks.
    pub skews: &'a Skews,
}
