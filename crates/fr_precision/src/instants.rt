ghost use Rattle.fr_precision.specs.Instants.{ActionsStayNear, MacroticksLieBetween, MacroticksLieWithin, MacroticksStayNear, PrecisionHolds};

/// The law of nearness: up to the start of the offset correction two nodes' macroticks lie no further apart
/// than their starts and the lengths of their cycles, and a microtick, in ticks; so do the action points of
/// either cycle.
pub fn macroticks_stay_near()
    ensures near { MacroticksStayNear }
    ensures actions { ActionsStayNear }
{}

/// The law of interpolation: between starts that lie near each other at both ends of a double cycle, no
/// macrotick of two nodes lies far apart; where starts lie within pi and lengths within lambda, no further
/// than the precision.
pub fn precision_holds()
    ensures within { MacroticksLieWithin }
    ensures between { MacroticksLieBetween }
    ensures precision { PrecisionHolds }
{}
