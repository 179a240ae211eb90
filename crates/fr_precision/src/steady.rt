ghost use Rattle.fr_precision.specs.Steady.{CountedAreSteady, DelaysFlutterLittle, DeviationsAreSteady, FramesAreSteady, HalfPlacesEven, OwnValuePlacesEven, SteadyValuesPlace};

/// The law of steady pairs: two deviations of a sender on one channel, one in each cycle, leave less than the
/// flutter of the delay and a microtick, in ticks, where they are counted from arrivals; where they are recorded,
/// with the errors of both arrivals for the flutter. Any two delays of a channel flutter by no more than twice the
/// delay error.
pub fn pairs_are_steady()
    ensures counted { CountedAreSteady }
    ensures frames { FramesAreSteady }
    ensures recorded { DeviationsAreSteady }
    ensures flutter { DelaysFlutterLittle }
{}

/// The law of steady rate values: the difference of such a pair, counted in the receiver's microticks, places the
/// length of the sender's even cycle by the flutter, a microtick and the changes, in ticks; so do half the sum of
/// two such values and a receiver's own 0.
pub fn steady_values_place()
    ensures difference { SteadyValuesPlace }
    ensures half { HalfPlacesEven }
    ensures own { OwnValuePlacesEven }
{}
