ghost use Rattle.fr_seen.specs.Completeness.{CornersAreNarrow, FarMacroticksAreTold, FarOddMacroticksAreTold, FarSendersAreTold, NearOddSendersAreWithin, NearSendersAreWithin};

/// A law: the corners of a sender's course, in ticks of the observer's clock, are no wider than its stamps and the limits
/// of its delays make them, where it has frames in both cycles of a double cycle on one channel.
pub fn corners_are_narrow()
    ensures { CornersAreNarrow }
{}

/// The law of completeness: where two such senders start a cycle further apart than the precision, in ticks, and than such
/// corners can hide, or come so far apart to where an offset correction would start, its row says over. Where any
/// macrotick of theirs comes so far apart, and a microtick, its row or that of the next cycle says over: in an odd cycle
/// up to where an offset correction would start, its row does, and behind that where they are such in the next cycle too.
pub fn far_senders_are_told()
    ensures corners { FarSendersAreTold }
    ensures macroticks { FarMacroticksAreTold }
    ensures odd_macroticks { FarOddMacroticksAreTold }
{}

/// A law: where all senders are such, and no two start either cycle of a double cycle so far apart, in ticks, the row of
/// the even cycle says within; where they are such in the next double cycle too, and start the odd and the next cycle, and
/// come in the odd one to where an offset correction would start, no further apart, that of the odd cycle does.
pub fn near_senders_are_within()
    ensures even { NearSendersAreWithin }
    ensures odd { NearOddSendersAreWithin }
{}
