ghost use Rattle.fr_precision.specs.Rates.{LengthsDrawTogether, LengthsStayInRange, LengthsStayNear, LengthsStayTogether, NearLengthIsBelowLambda, RateTermsAreUncut};

/// The law of the range: where the first two checks hold, no node's rate term is cut, and the lengths of its
/// next cycles stay in their range, in ticks.
pub fn lengths_stay_in_range()
    ensures uncut { RateTermsAreUncut }
    ensures range { LengthsStayInRange }
{}

/// The law of rates: the lengths of two nodes' next cycles, in ticks, lie half as far apart as the odd
/// cycles of the senders, and half of lambda; so they stay within lambda.
pub fn lengths_draw_together()
    ensures together { LengthsDrawTogether }
    ensures fixed { LengthsStayTogether }
    ensures near { LengthsStayNear }
    ensures bounded { NearLengthIsBelowLambda }
{}
