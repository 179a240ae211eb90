ghost use Rattle.fr_precision.specs.Deviations.{CountedIsDeviation, RecordedIsDeviation};

/// The law of deviations: what a receiver counts of a frame is the gap of two instants, but for the error of
/// an arrival and for less than a microtick; so is each value that the gap allows.
pub fn deviations_are_gaps()
    ensures counted { CountedIsDeviation }
    ensures recorded { RecordedIsDeviation }
{}
