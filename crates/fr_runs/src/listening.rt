ghost use Rattle.fr_runs.specs.Listening.{CaughtLengthIsNear, FirstLengthsAreNear, FirstRateIsWithin, FirstStartIsNatural, FirstStartIsNear, FollowersLengthsAreNear};

/// The law of listening: what a node counts from one frame of its reference to the next is the length of the
/// reference's odd cycle, in ticks, but for the errors of both arrivals, one change and less than a microtick. So its
/// first rate is within the limit, and its first cycles are about as long.
pub fn references_are_caught()
    ensures caught { CaughtLengthIsNear }
    ensures rate { FirstRateIsWithin }
    ensures lengths { FirstLengthsAreNear }
    ensures followers { FollowersLengthsAreNear }
{}

/// The law of the first start: it lies near the end of the reference's odd cycle before its offset correction, in
/// ticks, and is not negative.
pub fn first_starts_are_near()
    ensures near { FirstStartIsNear }
    ensures natural { FirstStartIsNatural }
{}
