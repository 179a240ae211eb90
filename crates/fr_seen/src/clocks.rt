ghost use Rattle.fr_seen.specs.Clocks.{IntervalsAreThere, IntervalsMeet, ReadingsHaveTicks, SpansPlace, StampsPlace, TicksHaveReadings};

/// A law: on a straight clock within its drift so many ticks are from their least to their greatest reading, and a
/// reading from one number to another is from the least to the greatest number of ticks that these can be.
pub fn readings_are_near_ticks()
    ensures readings { TicksHaveReadings }
    ensures ticks { ReadingsHaveTicks }
{}

/// A law: what lies in two intervals lies in what they share, which is then not empty.
pub fn intervals_are_shared()
    ensures meet { IntervalsMeet }
    ensures there { IntervalsAreThere }
{}

/// The law of stamps: the action point of a stamped frame lies where its stamp puts it, and two of them lie as far
/// apart as their stamps span, whatever their delays are but for the jitter.
pub fn stamps_place_action_points()
    ensures one { StampsPlace }
    ensures two { SpansPlace }
{}
