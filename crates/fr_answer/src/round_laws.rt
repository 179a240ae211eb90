ghost use Rattle.fr_answer.specs.Rounds.{MadeRunsAreChecked, TracedFilesAreChecked};
ghost use Rattle.fr_answer.specs.Rounds.{WhatIsTracedAloneIsChecked, WhatIsTracedIsChecked};

use fr_generator::made_files_are_accepted;
use fr_history::one_lawful_run;
use fr_params::accepted_are_sane;
use fr_promise::{covered_files_are_stated, drift_of_a_file_fits};
use fr_script::script_of_a_file_is_sound;
use fr_verdict::{
    a_covered_run_passes, a_passing_trace_keeps_its_precision, a_run_is_read_back,
    a_verdict_tells_of_the_run, files_are_read_back, one_answer,
};

/// A law: of files without a gap, whoever joins, what `trace` writes is accepted by `check` as the file of one trace,
/// which breaks no law and has no gap; and the verdict tells how many nodes, arbitrary nodes and double cycles there
/// are, the precision and the greatest skew with its first place as the report of `run` of the same files does. Where
/// the report tells a double cycle in sync, the verdict tells the first one of the trace from there on in which no node
/// may follow, or none where one may in each of these; where the report tells none it tells none. Where no correct node
/// joins it tells the report's own, or none where the report tells none.
pub fn what_is_traced_is_checked()
    ensures joined { WhatIsTracedIsChecked }
    ensures alone { WhatIsTracedAloneIsChecked }
{
    one_lawful_run();
    covered_files_are_stated();
    files_are_read_back();
    a_run_is_read_back();
    a_covered_run_passes();
    a_verdict_tells_of_the_run();
    one_answer();
    a_passing_trace_keeps_its_precision();
}

/// A law: so it is, whoever joins, by the bytes of three accepted files, and of the cluster of a seed, over 1 to 10,000
/// double cycles, whose texts are such files.
pub fn traced_files_are_checked()
    ensures files { TracedFilesAreChecked }
    ensures made { MadeRunsAreChecked }
{
    what_is_traced_is_checked();
    accepted_are_sane();
    drift_of_a_file_fits();
    script_of_a_file_is_sound();
    made_files_are_accepted();
}
