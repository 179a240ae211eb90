ghost use Rattle.fr_bound.specs.SharpBounds.{AloneIsBelow, NearIsBelow, SharpIsBelow};
ghost use Rattle.fr_precision.specs.Lengths.{WalkIsHeld};
ghost use Rattle.fr_bound.specs.SharpChecks.{FirstCheckStopsWalk, OlderChecksSuffice, WalkIsBounded};
ghost use Rattle.fr_precision.specs.SharpChecks.{SharpChecksSuffice};
ghost use Rattle.fr_precision.specs.SharpStep.{KeySlotsActEarly, SharpChecksReach};

/// A law: the sharper bounds, in ticks, are no greater than the older ones where delays flutter by no more than
/// twice the error of an arrival, and without arbitrary nodes no greater than beside them; action points lie no
/// further apart than macroticks.
pub fn sharp_bounds_are_below()
    ensures below { SharpIsBelow }
    ensures alone { AloneIsBelow }
    ensures near { NearIsBelow }
{}

/// The law of the walk: it bounds by how many ticks the lengths of cycles leave their range in a double cycle.
/// Where the first check holds they do not. Where the second one does, the rate limit suffices for ever if they
/// do not, and else for as many double cycles as are told.
pub fn walks_are_bounded()
    ensures bounded { WalkIsBounded }
    ensures stops { FirstCheckStopsWalk }
    ensures held { WalkIsHeld }
{}

/// A law: where the sharper checks hold, the offset limit suffices for how far action points lie apart, and the
/// static slots leave room for it. They hold where the older checks do and delays flutter by no more than twice the
/// error of an arrival.
pub fn sharp_checks_suffice()
    ensures suffice { SharpChecksSuffice }
    ensures older { OlderChecksSuffice }
    ensures early { KeySlotsActEarly }
    ensures reach { SharpChecksReach }
{}
