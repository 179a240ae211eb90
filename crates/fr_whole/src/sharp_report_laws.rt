ghost use Rattle.fr_cluster.specs.Sane.{IsSane};
ghost use Rattle.fr_cluster.specs.Values.{Values};
ghost use Rattle.fr_drift.specs.Files.{DriftFits};
ghost use Rattle.fr_drift.specs.View.{DriftView};
ghost use Rattle.fr_report.specs.Files.{run_files};
ghost use Rattle.fr_script.specs.Files.{ScriptFits};
ghost use Rattle.fr_script.specs.View.{IsScript, ScriptView};
ghost use Rattle.fr_text.specs.Files.{IsDecided};
ghost use Rattle.fr_whole.specs.SharpReport.{sharp_report_text};
ghost use Rattle.fr_whole.specs.SharpReportAnswer.{IsSharpRunText};

use fr_coverage::each_kind_is_found;
use fr_report::a_run_is_lawful;
use fr_series::a_sharp_series_is_lawful;
use fr_world::files_decide_one_run;

/// A law: the text of the report by the sharper bounds, of some parameters, and of a drift and a script that fit them, is
/// what these say of their one lawful run over all cycles, and behind it the report of the same run. The other premises
/// are the invariants of `Params` and of `Script`.
pub fn a_sharp_report_is_lawful()
    ensures { (p : Values) (d : DriftView) (s : ScriptView) →
        IsSane p → DriftFits p d → ScriptFits p s → IsScript s → IsSharpRunText p d s (sharp_report_text p d s) }
{
    a_run_is_lawful();
    each_kind_is_found();
    a_sharp_series_is_lawful();
    files_decide_one_run();
}

/// A law: the bytes of the files decide what is written: two texts that the clause allows for the same bytes are one.
pub fn files_decide_the_sharp_report()
    ensures { IsDecided (run_files IsSharpRunText) }
{
    fr_params::one_answer();
    fr_drift::one_answer();
    fr_script::one_answer();
    files_decide_one_run();
}
