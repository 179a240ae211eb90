ghost use Rattle.fr_seen.specs.TermsSeen.{OffsetsAreSeen, RateStepsAreSeen};

/// The law of terms: of a node whose courses in two double cycles hold, the offset term that it applied between them,
/// and by how much its rate term grew, in microticks, lie where the courses see them.
pub fn terms_are_seen()
    ensures offset { OffsetsAreSeen }
    ensures rate { RateStepsAreSeen }
{}
