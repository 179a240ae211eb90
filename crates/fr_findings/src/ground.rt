ghost use Rattle.fr_sightings.specs.Ranges.{IsScaleOf};

use fr_bound::Heard;
use fr_cluster::Params;
use fr_course::Scale;
use fr_log::Log;
use fr_observe::{LogSpan, Skews};
use fr_sightings::{Sender, Sighting};

// What stays the same over a log: the precision of its cluster in ticks, the cluster's numbers as readings, both files,
// the cycles from the first sighting to the last, and what nodes hear of each other, if that is told.
#[derive(Clone, Copy)]
pub(crate) struct Ground<'a> {
    pub(crate) precision: i64,
    pub(crate) scale: &'a Scale,
    pub(crate) params: &'a Params,
    pub(crate) log: &'a Log,
    pub(crate) span: LogSpan,
    pub(crate) heard: Option<Heard>,
    ghost of_cluster: { IsScaleOf params.now scale.now },
}

// The offending frames of a log, or of a double cycle: those that do not come in time, and irregular ones.
#[derive(Clone, Copy)]
pub(crate) struct Offending<'a> {
    pub(crate) untimely: &'a [Sighting],
    pub(crate) irregular: &'a [Sighting],
}

/// The frames of a log that tell something: its sightings, and its offending frames.
#[derive(Clone, Copy)]
pub(crate) struct Frames<'a> {
    pub(crate) seen: &'a [Sighting],
    pub(crate) offending: Offending<'a>,
}

/// The double cycles of a log, from the first to the last.
#[derive(Clone, Copy)]
pub(crate) struct Doubles {
    pub(crate) first: u32,
    pub(crate) last: u32,
}

// The sightings that a double cycle is looked at with: those of the one before, its own, those of the next one, and its
// offending frames.
#[derive(Clone, Copy)]
pub(crate) struct Around<'a> {
    pub(crate) before: &'a [Sighting],
    pub(crate) here: &'a [Sighting],
    pub(crate) next: &'a [Sighting],
    pub(crate) offending: Offending<'a>,
}

// A double cycle: its number, the sightings of the one before and its own, its offending frames, and its senders with the
// limits of their skew.
#[derive(Clone, Copy)]
pub(crate) struct Double<'a> {
    pub(crate) number: u32,
    pub(crate) before: &'a [Sighting],
    pub(crate) here: &'a [Sighting],
    pub(crate) offending: Offending<'a>,
    pub(crate) senders: &'a [Sender],
    pub(crate) skews: &'a Skews,
}
