ghost use Rattle.fr_correct.specs.Damping.{DampingTakesToward, IsTakenOnce};

/// The law of damping: a damped number lies between 0 and the number, no further from it than the damping,
/// and where it is not 0 exactly that far. No other number does.
pub fn damping_takes_toward_zero()
    ensures takes { DampingTakesToward }
    ensures once { IsTakenOnce }
{}
