ghost use Rattle.fr_promise.specs.SharpListening.{CountedLengthIsNear, SharpCatchesSuffice, SharpFirstLengthIsNear, SharpFirstRateIsWithin, SharpFirstStartIsNear};

/// The law of listening, where delays flutter little: of a reference's even cycle a node counts the length, in its own
/// microticks, but for the flutter, a change and less than a microtick. So its first rate is within the rate limit, in
/// microticks, its first even cycle about as long as the reference's, and its first start near the end of the
/// reference's odd one, in ticks; it suffices to begin with. The reference's cycle may lie beyond its range, as far as
/// the rate limit takes in.
pub fn listeners_come_near()
    ensures counted { CountedLengthIsNear }
    ensures rate { SharpFirstRateIsWithin }
    ensures length { SharpFirstLengthIsNear }
    ensures start { SharpFirstStartIsNear }
    ensures suffice { SharpCatchesSuffice }
{}
