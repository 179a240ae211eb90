ghost use Rattle.std.specs.Prelude.{◌*◌};
ghost use Rattle.fr_cluster.specs.Sane.{IsSane};
ghost use Rattle.fr_cluster.specs.Values.{Values};
ghost use Rattle.fr_drift.specs.Files.{DriftFits};
ghost use Rattle.fr_drift.specs.View.{DriftView};
ghost use Rattle.fr_script.specs.Files.{ScriptFits};
ghost use Rattle.fr_script.specs.View.{IsScript, ScriptView};
ghost use Rattle.fr_coverage.specs.Decided.{setting_of};
ghost use Rattle.fr_drift.specs.Questions.{doubles_of};
ghost use Rattle.fr_history.specs.Next.{cycles_of};
ghost use Rattle.fr_promise.specs.Files.{IsPrecise};
ghost use Rattle.fr_text.specs.Files.{IsDecided};
ghost use Rattle.fr_report.specs.MakeAnswer.{OneMadeReport};
ghost use Rattle.fr_report.specs.Files.{run_files};
ghost use Rattle.fr_report.specs.RunText.{IsRunText, run_text};

use fr_coverage::{covered_run_has_no_gap, found_gap_is_first};
use fr_generator::a_seed_decides_one_cluster;
use fr_history::{one_first_unfollowed_sync, one_greatest_skew, one_lawful_run};
use fr_promise::files_keep_precision;
use fr_world::files_decide_one_run;

/// A law: the text of the run of some parameters, and of a drift and a script that fit them, is the report of
/// their one lawful run over all cycles; where it is covered, that run keeps its precision from its first double
/// cycle in sync on in which no node follows, whoever joins. The other premises are the invariants of `Params`
/// and of `Script`.
pub fn a_run_is_lawful()
    ensures text { (p : Values) (d : DriftView) (s : ScriptView) →
        IsSane p → DriftFits p d → ScriptFits p s → IsScript s → IsRunText p d s (run_text p d s) }
    ensures precise { (p : Values) (d : DriftView) (s : ScriptView) →
        IsSane p → DriftFits p d → ScriptFits p s → IsScript s →
        IsPrecise p d s (cycles_of (setting_of p d s) (2 * doubles_of d)) }
{
    one_lawful_run();
    files_decide_one_run();
    found_gap_is_first();
    covered_run_has_no_gap();
    one_first_unfollowed_sync();
    one_greatest_skew();
    files_keep_precision();
}

/// A law: the bytes of the files decide what is written. Two texts that the answer's clause allows for files
/// of the same bytes are the same.
pub fn files_decide_the_report()
    ensures { IsDecided (run_files IsRunText) }
{
    fr_params::one_answer();
    fr_drift::one_answer();
    fr_script::one_answer();
    files_decide_one_run();
}

/// A law: a seed and a number of double cycles decide what `make` writes. Two texts that the answer's clause allows for
/// one seed are the same.
pub fn a_seed_decides_the_report()
    ensures { OneMadeReport }
{
    a_seed_decides_one_cluster();
    files_decide_one_run();
}
