ghost use Rattle.fr_runs.specs.Drawn.{RoundsDrawNear};
ghost use Rattle.fr_runs.specs.Hearers.{RoundsAreKept};
ghost use Rattle.fr_runs.specs.Succession.{SucceedingGoesOn};

/// A law: where the nodes with rows are in sync in a double cycle and those that follow lie near them, and each has
/// the deviations of every sender (section 8.5), no term of any of them is cut, no macrotick of two nodes with rows
/// lies further apart than the precision, in ticks, and the next double cycle is such a one.
pub fn rounds_are_kept()
    ensures { RoundsAreKept }
{}

/// A law: where the nodes with rows lie apart by some numbers and not yet in sync, no term of any of them is cut
/// either, and any two of them draw near: behind the double cycle they lie half as far apart, and some.
pub fn rounds_draw_near()
    ensures { RoundsDrawNear }
{}

/// A law: so it goes on in a run, by the laws of its clocks, whoever begins to follow and whoever follows no longer:
/// whoever followed twice is in sync with the nodes with rows, and whoever followed once, or begins to, lies near them.
pub fn succeeding_goes_on()
    ensures { SucceedingGoesOn }
{}
