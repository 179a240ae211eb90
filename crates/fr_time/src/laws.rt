ghost use Rattle.std.specs.Prelude.{ℕ};
ghost use Rattle.fr_cluster.specs.Values.{Values};
ghost use Rattle.fr_cluster.specs.Sane.{IsSane};
ghost use Rattle.fr_time.specs.Laws.{CyclesHaveTheirLengths, IsInItsDouble, SlotsHaveTheirSenders, SlotsLieInTime, TermsArePlaceable};

/// A law: in a cluster the macroticks of a cycle can be placed under every rate and every offset term
/// within its limit, since the shortest cycle has a microtick for each macrotick of the offset correction.
pub fn placeable()
    ensures { TermsArePlaceable }
{}

/// A law: macrotick 0 lies at the start of its cycle, and the one after the last at the start of the next;
/// the cycle has its microticks and both terms, of which the offset term is 0 in an even cycle. At the start
/// of the offset correction both rules give the same.
pub fn a_cycle_begins_and_ends()
    ensures { CyclesHaveTheirLengths }
{}

/// A law: of a static slot of a cluster, the action point lies between its bounds, and its end before the
/// start of the offset correction.
pub fn slots_end_before_the_correction()
    ensures { SlotsLieInTime }
{}

/// A law: in a cluster a node sends a sync frame in its key slot in every cycle, and a node with a further
/// slot sends there what the slot carries.
pub fn each_slot_has_its_sender()
    ensures { (p : Values) (cycle : ℕ) → IsSane p → SlotsHaveTheirSenders p cycle }
{}

/// A law: each cycle is the even or the odd cycle of its double cycle.
pub fn each_cycle_is_in_a_double_cycle()
    ensures { (cycle : ℕ) → IsInItsDouble cycle }
{}
