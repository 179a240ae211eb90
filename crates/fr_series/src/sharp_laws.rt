ghost use Rattle.std.specs.Prelude.{◌≡◌, ◌↔◌, ◌*◌, ℕ, None, length};
ghost use Rattle.fr_cluster.specs.Sane.{IsSane};
ghost use Rattle.fr_cluster.specs.Values.{Values};
ghost use Rattle.fr_coverage.specs.Decided.{setting_of};
ghost use Rattle.fr_coverage.specs.Flutter.{flutter_from};
ghost use Rattle.fr_drift.specs.Questions.{doubles_of};
ghost use Rattle.fr_drift.specs.View.{DriftView};
ghost use Rattle.fr_script.specs.View.{IsScript, ScriptView};
ghost use Rattle.fr_history.specs.Cycles.{Cycles};
ghost use Rattle.fr_history.specs.Lawful.{IsLawful};
ghost use Rattle.fr_text.specs.Files.{IsDecided};
ghost use Rattle.fr_report.specs.Files.{run_files};
ghost use Rattle.fr_sharp.specs.SharpStatement.{has_arbitrary};
ghost use Rattle.fr_promise.specs.SharpTested.{IsFirstSharpSyncBy};
ghost use Rattle.fr_series.specs.SharpAnswer.{FitsToJoin, IsSharpSeriesText, KeepsAndTells};
ghost use Rattle.fr_sharp.specs.SharpCovered.{first_sharp_gap, IsCoveredSharply};
ghost use Rattle.fr_series.specs.SharpText.{sharp_series_text};

use fr_coverage::{flutter_is_the_greatest, flutter_is_told, found_gap_from_is_first};
use fr_history::one_lawful_run;
use fr_promise::one_first_sharp_sync;
use fr_sharp::{covered_files_keep_sharply, covered_files_keep_sharply_joined, losses_are_told};
use fr_world::files_decide_one_run;

/// A law: the text of the sharper series of some parameters, a drift and a script is that of their one lawful run over all
/// cycles; it says that this is sharply covered from its first double cycle in sharp sync on exactly where it is, and then
/// the run keeps the sharper precision as the promise says, whoever joins, and the text tells it; and its figures are what
/// they are called, what it loses too. Where a correct node joins the drift and the script fit the parameters; the other
/// premises are the invariants of `Params` and of `Script`.
pub fn a_sharp_series_is_lawful()
    ensures { (p : Values) (d : DriftView) (s : ScriptView) →
        IsSane p → FitsToJoin p d s → IsScript s → IsSharpSeriesText p d s (sharp_series_text p d s) }
{
    one_lawful_run();
    files_decide_one_run();
    a_gap_is_told();
    a_covered_run_stays_in_sharp_sync();
    found_gap_from_is_first();
    flutter_is_the_greatest();
    flutter_is_told();
    one_first_sharp_sync();
    losses_are_told();
}

/// A law: the bytes of the files decide what is written: two texts that the clause allows for the same bytes are one.
pub fn files_decide_the_sharp_series()
    ensures { IsDecided (run_files IsSharpSeriesText) }
{
    fr_params::one_answer();
    fr_drift::one_answer();
    fr_script::one_answer();
    files_decide_one_run();
}

/// A law: no gap is found from a double cycle on exactly where the run is sharply covered from there on, with its own
/// flutter, in ticks.
pub fn a_gap_is_told()
    ensures { (p : Values) (d : DriftView) (s : ScriptView) (from : ℕ) → IsSane p →
        (first_sharp_gap p d s from (flutter_from p d s from) ≡ None)
        ↔ IsCoveredSharply p d s from (flutter_from p d s from) }
{
    found_gap_from_is_first();
}

/// A law: where the run is sharply covered from its first double cycle in sharp sync on in which no node follows, it keeps
/// from there on what the promise says, whoever joins: as long as sharp sync lasts, and, where a node joins, the rate
/// limit suffices for first rates, no macroticks lie further apart than the sharper precision. So its line `sharp
/// within` names no place in those double cycles, and says yes where they reach to the end of the run. If one joins,
/// drift and script fit.
pub fn a_covered_run_stays_in_sharp_sync()
    ensures { (p : Values) (d : DriftView) (s : ScriptView) (h : Cycles) (first : ℕ) →
        IsSane p → FitsToJoin p d s → IsCoveredSharply p d s first (flutter_from p d s first) →
        IsLawful (setting_of p d s) h → length h ≡ 2 * doubles_of d →
        IsFirstSharpSyncBy (has_arbitrary p s) p (flutter_from p d s) h first →
        KeepsAndTells p d s h first }
{
    covered_files_keep_sharply();
    covered_files_keep_sharply_joined();
    found_gap_from_is_first();
}
