ghost use Rattle.std.specs.Prelude.{◌≡◌, ◌*◌, ℕ, None, length};
ghost use Rattle.fr_cluster.specs.Sane.{IsSane};
ghost use Rattle.fr_cluster.specs.Values.{Values};
ghost use Rattle.fr_coverage.specs.Coverage.{first_gap};
ghost use Rattle.fr_coverage.specs.Decided.{setting_of};
ghost use Rattle.fr_drift.specs.Files.{DriftFits};
ghost use Rattle.fr_drift.specs.Questions.{doubles_of};
ghost use Rattle.fr_drift.specs.View.{DriftView};
ghost use Rattle.fr_script.specs.Files.{ScriptFits};
ghost use Rattle.fr_script.specs.View.{IsScript, ScriptView};
ghost use Rattle.fr_history.specs.Cycles.{Cycles};
ghost use Rattle.fr_history.specs.Lawful.{IsLawful};
ghost use Rattle.fr_history.specs.Unfollowed.{IsUnfollowedSyncAt};
ghost use Rattle.fr_text.specs.Files.{IsDecided};
ghost use Rattle.fr_report.specs.Files.{run_files};
ghost use Rattle.fr_series.specs.SeriesText.{series_text};
ghost use Rattle.fr_series.specs.SeriesAnswer.{IsSeriesText, TellsInSync};

use fr_history::{one_first_unfollowed_sync, one_lawful_run};
use fr_promise::files_keep_precision;
use fr_world::files_decide_one_run;

/// A law: the text of the series of some parameters, and of a drift and a script that fit them, is that of their one
/// lawful run over all cycles; where it is covered and comes into sync while no node follows, its end says that it
/// stayed so. The other premises are the invariants of `Params` and of `Script`.
pub fn a_series_is_lawful()
    ensures { (p : Values) (d : DriftView) (s : ScriptView) →
        IsSane p → DriftFits p d → ScriptFits p s → IsScript s → IsSeriesText p d s (series_text p d s) }
{
    one_lawful_run();
    files_decide_one_run();
    a_covered_run_stays_in_sync();
    one_first_unfollowed_sync();
}

/// A law: the bytes of the files decide what is written: two texts that the clause allows for the same bytes are one.
pub fn files_decide_the_series()
    ensures { IsDecided (run_files IsSeriesText) }
{
    fr_params::one_answer();
    fr_drift::one_answer();
    fr_script::one_answer();
    files_decide_one_run();
}

/// A law: where the run has no gap and some double cycle of it is in sync in which no node follows, the last one is in
/// sync, and since the first such one the skew stayed within the precision, whoever joins: the last two lines of its
/// series say yes.
pub fn a_covered_run_stays_in_sync()
    ensures { (p : Values) (d : DriftView) (s : ScriptView) (h : Cycles) (double : ℕ) →
        IsSane p → DriftFits p d → ScriptFits p s → first_gap p d s ≡ None →
        IsLawful (setting_of p d s) h → length h ≡ 2 * doubles_of d → IsUnfollowedSyncAt p h double →
        TellsInSync p h }
{
    files_keep_precision();
}
