ghost use Rattle.fr_runs.specs.Spread.{SpreadsAreKept};

/// The law of the step with free numbers, over a list of nodes: no term is cut, and the rows of the next double cycle
/// are active, with starts and lengths, in ticks, that are spread half as far, and some.
pub fn spreads_are_kept()
    ensures { SpreadsAreKept }
{}
