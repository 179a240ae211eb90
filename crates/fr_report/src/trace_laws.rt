ghost use Rattle.fr_cluster.specs.Sane.{IsSane};
ghost use Rattle.fr_cluster.specs.Values.{Values};
ghost use Rattle.fr_drift.specs.Files.{DriftFits};
ghost use Rattle.fr_drift.specs.View.{DriftView};
ghost use Rattle.fr_script.specs.View.{IsScript, ScriptView};
ghost use Rattle.fr_text.specs.Files.{IsDecided};
ghost use Rattle.fr_report.specs.Files.{run_files};
ghost use Rattle.fr_report.specs.TraceAnswer.{IsTraceText, trace_text};

use fr_history::one_lawful_run;
use fr_world::files_decide_one_run;

/// A law: the text of the trace of some parameters, a drift that fits them, and a script, is that of their one lawful
/// run over all cycles. The other premises are the invariants of `Params` and of `Script`.
pub fn a_trace_is_lawful()
    ensures { (p : Values) (d : DriftView) (s : ScriptView) →
        IsSane p → DriftFits p d → IsScript s → IsTraceText p d s (trace_text p d s) }
{
    one_lawful_run();
    files_decide_one_run();
}

/// A law: the bytes of the files decide what is written. Two texts that the answer's clause allows for files of the
/// same bytes are the same.
pub fn files_decide_the_trace()
    ensures { IsDecided (run_files IsTraceText) }
{
    fr_params::one_answer();
    fr_drift::one_answer();
    fr_script::one_answer();
    files_decide_one_run();
}
