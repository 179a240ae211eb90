ghost use Rattle.fr_seen_runs.specs.NotContradicted.{NoRunHasOwnFaults, NoRunIsContradicted, WithinIsSo, WithinIsThere, WithinReachesEnd};
ghost use Rattle.fr_seen_runs.specs.OverRows.{OverIsCounted, OverIsSo};

/// The law of contradictions: where the verdict of a log is no, it is seen of no run that is as the log states: with delays
/// and changes within what is stated, in which no node misses more senders of a double cycle than the log says, in sync or
/// not, whoever joins. And where the fault does not ask for that, of no run at all whose oscillators keep within
/// what is stated. Where it asks for own slots, as that of an irregular frame does, this is said of runs in which each
/// whole frame of the log in the slot of a node that the log does not name arbitrary is one that the node sends there, in
/// some cycle.
pub fn no_run_is_contradicted()
    ensures own { NoRunHasOwnFaults }
    ensures sync { NoRunIsContradicted }
{}

/// The law of what is within: where the verdict of a log is within, each run that the log is seen of has each of its
/// cycles, and in these the skew of the senders, in ticks, is no greater than the precision. The last of them is the last
/// cycle but one that has a row. The precision is the sharper one, a yardstick that is promised under its own checks alone.
pub fn within_is_so()
    ensures there { WithinIsThere }
    ensures within { WithinIsSo }
    ensures ends { WithinReachesEnd }
{}

/// The law of what is over: where the verdict of a log is over, it has the first row that says over, and how many do; in the
/// cycle of each of them each run that the log is seen of has a skew of the senders, in ticks, of no less than the row has
/// it, which is above the precision.
pub fn over_is_so()
    ensures counted { OverIsCounted }
    ensures over { OverIsSo }
{}
