ghost use Rattle.fr_precision.specs.Placement.{DifferencePlaces, HalfPlaces, OwnValuePlaces};

/// The law of rate values: of a sender that is within reach, the difference of both deviations, counted in
/// the receiver's microticks, places the length of the sender's odd cycle within y1 ticks; so do half the
/// sum of two such values and a receiver's own 0.
pub fn rate_values_place_lengths()
    ensures difference { DifferencePlaces }
    ensures half { HalfPlaces }
    ensures own { OwnValuePlaces }
{}
