ghost use Rattle.std.specs.Prelude.{ℕ};
ghost use Rattle.fr_generator.specs.Generated.{IsMadeCount};
ghost use Rattle.fr_text.specs.Defined.{DefinesOneStatus};
ghost use Rattle.fr_report.specs.Files.{run_files};
ghost use Rattle.fr_report.specs.MakeAnswer.{make_files};
ghost use Rattle.fr_report.specs.TraceAnswer.{IsTraceText};

use crate::run_laws::a_run_is_lawful;
use crate::trace_laws::a_trace_is_lawful;
use fr_generator::a_seed_decides_one_cluster;
use fr_params::accepted_are_sane;

/// A law: the bytes of the three files of a run define one status of a request for its trace.
pub fn a_trace_has_one_status()
    ensures { DefinesOneStatus (run_files IsTraceText) 3 }
{
    fr_params::one_answer();
    fr_params::some_answer();
    fr_drift::one_answer();
    fr_drift::some_answer();
    fr_script::one_answer();
    fr_script::some_answer();
    accepted_are_sane();
    a_trace_is_lawful();
}

/// A law: a request for the report of a made run, of 1 to 10,000 double cycles, has one status without any file.
pub fn a_made_run_has_one_status()
    ensures { (seed doubles : ℕ) → IsMadeCount doubles → DefinesOneStatus (make_files seed doubles) 0 }
{
    fr_drift::some_answer();
    fr_script::some_answer();
    a_seed_decides_one_cluster();
    a_run_is_lawful();
}
