ghost use Rattle.std.specs.Prelude.{ℕ};
ghost use Rattle.fr_report.specs.Files.{run_files};
ghost use Rattle.fr_text.specs.Defined.{DefinesOneStatus};
ghost use Rattle.fr_whole.specs.ObserveAnswer.{observe_files};
ghost use Rattle.fr_whole.specs.PowerOnAnswer.{power_on_files};
ghost use Rattle.fr_whole.specs.SharpCheckAnswer.{sharp_check_files};
ghost use Rattle.fr_whole.specs.SharpReportAnswer.{IsSharpReportText};
ghost use Rattle.fr_whole.specs.Whole.{HasOneStatusOfAll};

use crate::observe_laws::an_observed_text_is_so;
use crate::power_on_laws::a_power_on_is_told;
use crate::sharp_check_laws::a_sharp_check_is_told;
use crate::sharp_report_laws::a_sharp_report_is_lawful;
use fr_answer::each_request_has_one_status;
use fr_params::accepted_are_sane;
use fr_sharp::{
    covered_files_keep_sharply, covered_files_keep_sharply_joined,
    joined_files_keep_through_losses, lossy_files_give_runs,
};
use fr_verdict::other_gaps_are_found;

/// A law: the bytes of the two files of a request for what a log tells define one status.
pub fn an_observation_has_one_status()
    ensures { DefinesOneStatus observe_files 2 }
{
    fr_params::one_answer();
    fr_params::some_answer();
    fr_log::one_answer();
    fr_log::some_answer();
    an_observed_text_is_so();
}

/// A law: the bytes of the three files of a request for a report by the sharper bounds define one status.
pub fn a_sharp_report_has_one_status()
    ensures { DefinesOneStatus (run_files IsSharpReportText) 3 }
{
    fr_params::one_answer();
    fr_params::some_answer();
    fr_drift::one_answer();
    fr_drift::some_answer();
    fr_script::one_answer();
    fr_script::some_answer();
    accepted_are_sane();
    a_sharp_report_is_lawful();
    covered_files_keep_sharply();
    covered_files_keep_sharply_joined();
    lossy_files_give_runs();
    joined_files_keep_through_losses();
}

/// A law: the bytes of the two files of a request for a check by the sharper bounds define one status.
pub fn a_sharp_check_has_one_status()
    ensures { DefinesOneStatus sharp_check_files 2 }
{
    fr_params::one_answer();
    fr_params::some_answer();
    fr_trace::one_answer();
    fr_trace::some_answer();
    accepted_are_sane();
    other_gaps_are_found();
    a_sharp_check_is_told();
}

/// A law: so does the file of a request for how long from power-on to sharp sync, with a flutter in ticks.
pub fn a_power_on_has_one_status()
    ensures { (flutter : ℕ) → DefinesOneStatus (power_on_files flutter) 1 }
{
    fr_params::one_answer();
    fr_params::some_answer();
    a_power_on_is_told();
}

/// A law: whatever words of `flexray` ask for, the bytes of the files that they name define exactly one status beside
/// want of memory.
pub fn each_word_has_one_status()
    ensures { HasOneStatusOfAll }
{
    each_request_has_one_status();
    an_observation_has_one_status();
    a_sharp_report_has_one_status();
    a_sharp_check_has_one_status();
    a_power_on_has_one_status();
}
