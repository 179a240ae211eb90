ghost use Rattle.fr_seen_runs.specs.KnownDoubles.{NoFaultBeyond, NoKnownFault, NoKnownFrameMissing, NoSkewFaultWithin, SeenIsKnown};
ghost use Rattle.fr_seen_runs.specs.Standings.{MissingsAreSo, SpreadsAreSo, StandingsAreSo};

/// A law of what is seen of a double cycle in which all nodes that are not arbitrary were seen in both cycles. Its starts
/// and even lengths lie no further apart, in ticks, than its courses tell, and these no further beyond their range. That is
/// so in each run that the log is seen of, in sync or not. All nodes are active in it, and each correct node has a row.
pub fn seen_numbers_are_known()
    ensures { SeenIsKnown }
{}

/// A law of what is known of a double cycle of a run: nothing that a log tells of it contradicts that. Neither how far
/// starts and lengths lie apart is a fault, nor how far lengths lie beyond their range. And no frame is missing, if each
/// correct node has a row and the observer missed none. For that the log names the arbitrary nodes of the run.
pub fn known_faults_are_none()
    ensures beyond { NoFaultBeyond }
    ensures missing { NoKnownFrameMissing }
    ensures none { NoKnownFault }
{}

/// A law: where no macroticks of it lie further apart than so many ticks, its skew is no fault by these either.
pub fn skew_faults_within_are_none()
    ensures { NoSkewFaultWithin }
{}

/// The law of how double cycles stand: in a log that is seen of a run, as the log states, nothing contradicts how one does;
/// the numbers, in ticks, that it is judged by are so in the run, and what is known of the next one behind it. No check, and
/// no sync, is asked of the run, and nodes may join it.
pub fn standings_are_so()
    ensures { StandingsAreSo }
{}

/// The law of the rows of spread: each has numbers, in ticks, that are so in each run that the log is seen of, as it states:
/// starts and even lengths lie no further apart in its double cycle, and these no further beyond their range; and no
/// macroticks of it lie further apart than the row's last number.
pub fn spreads_are_so()
    ensures { SpreadsAreSo }
{}

/// The law of the rows of what was missed. In each run that the log is seen of, as it states in the double cycles before
/// that of the row, and in which, in that one, all nodes hear all, also beside arbitrary sync nodes, or, without these, none
/// is deaf, the node of the row missed no fewer senders in it than the row says; so where all hear all, and where the row says
/// none, there is no such run. What the log states of how many senders a node misses is not asked of that double cycle, nor of later ones, so
/// the row may say more than that.
pub fn missings_are_so()
    ensures { MissingsAreSo }
{}
