ghost use Rattle.std.specs.Prelude.{◌≡◌, ℕ, None};
ghost use Rattle.fr_cluster.specs.Values.{Values};
ghost use Rattle.fr_cluster.specs.Sane.{IsSane};
ghost use Rattle.fr_drift.specs.View.{DriftView};
ghost use Rattle.fr_script.specs.View.{ScriptView};
ghost use Rattle.fr_coverage.specs.Coverage.{first_gap};
ghost use Rattle.fr_coverage.specs.Flutter.{FlutterFalls, FlutterGapsAreFound, FlutterIsGreatest, HasOneFlutter, TellsFluttering, fluttering_from};
ghost use Rattle.fr_coverage.specs.Kinds.{gaps_by_kind, AreFirstGaps};
ghost use Rattle.fr_coverage.specs.Order.{AllGapsAreBehind, FindsFirst, FindsGapFrom, FindsGapOfRun, FirstIsFound, HasNoGap};

/// What is found of a run is its first gap: it is a gap of the run, and none is looked for before it.
pub fn found_gap_is_first()
    ensures { (p : Values) (d : DriftView) (s : ScriptView) → IsSane p → FindsFirst p d s }
{}

/// The first gap of a run is found.
pub fn first_gap_is_found()
    ensures { (p : Values) (d : DriftView) (s : ScriptView) → IsSane p → FirstIsFound p d s }
{}

/// Where none is found the run has no gap.
pub fn covered_run_has_no_gap()
    ensures { (p : Values) (d : DriftView) (s : ScriptView) → IsSane p → first_gap p d s ≡ None → HasNoGap p d s }
{}

/// So it is of the gaps of a run itself, whatever the checks of its parameters say: what is found is the first of them, and
/// where none is found it has none.
pub fn found_gap_of_run_is_first()
    ensures { (p : Values) (d : DriftView) (s : ScriptView) → IsSane p → FindsGapOfRun p d s }
{}

/// And so it is of those from a double cycle on; from the first one on they are all gaps of the run itself.
pub fn found_gap_from_is_first()
    ensures found { (p : Values) (d : DriftView) (s : ScriptView) (from : ℕ) → IsSane p → FindsGapFrom p d s from }
    ensures all { (p : Values) (d : DriftView) (s : ScriptView) → AllGapsAreBehind p d s }
{}

/// What is found of each kind from a double cycle on is the first gap of that kind, and nothing only where the run has none
/// of that kind from there on.
pub fn each_kind_is_found()
    ensures { (p : Values) (d : DriftView) (s : ScriptView) (from : ℕ) → IsSane p →
        AreFirstGaps p d s from (gaps_by_kind p d s from) }
{}

/// What is found as the place of the flutter from a double cycle on is that place: a delay flutters so much there, none does
/// by more ticks from there on, none by as many in a later double cycle, and none in that one before it, by sender, receiver and
/// channel. Up to there the flutter stays, it falls with the double cycle, and where no place is found it is 0.
pub fn flutter_is_told()
    ensures told { (p : Values) (d : DriftView) (s : ScriptView) (from : ℕ) → IsSane p →
        TellsFluttering p d s from (fluttering_from p d s from) }
    ensures falls { FlutterFalls }
{}

/// What is found as the flutter from a double cycle on is the greatest: no delay of a correct node's sync frames at another correct node, on a
/// channel that both have, differs by more ticks between the two cycles of a double cycle from there on, and some differs by
/// as many, or it is 0; so it is of one number only. Where delays are stated to flutter by no more than so many ticks, this is
/// so of all of them exactly where the flutter is no more.
pub fn flutter_is_the_greatest()
    ensures greatest { FlutterIsGreatest }
    ensures one { HasOneFlutter }
    ensures gap { FlutterGapsAreFound }
{}
