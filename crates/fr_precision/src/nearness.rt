ghost use Rattle.fr_precision.specs.Nearness.{ActionsLieNear, MacroticksLieInReach, OddLengthsFollow};

/// The law of nearness, in ticks: odd lengths follow the even ones by two changes; action points lie apart by no
/// more than the last one's share of the odd lengths, beside starts, even lengths and a microtick; and macroticks
/// by no more than what both ends of the double cycle say.
pub fn nodes_lie_near()
    ensures odd { OddLengthsFollow }
    ensures actions { ActionsLieNear }
    ensures macroticks { MacroticksLieInReach }
{}
