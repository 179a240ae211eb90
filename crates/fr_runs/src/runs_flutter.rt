ghost use Rattle.fr_runs.specs.Flutter.{StatedDelaysFlutter};

/// A law: the delays of a run that keep within what is stated of them, from a double cycle on, flutter by no more than
/// twice the delay error, in ticks, from there on.
pub fn stated_delays_flutter()
    ensures { StatedDelaysFlutter }
{}
