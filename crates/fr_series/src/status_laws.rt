ghost use Rattle.fr_report.specs.Files.{run_files};
ghost use Rattle.fr_text.specs.Defined.{DefinesOneStatus};
ghost use Rattle.fr_series.specs.SeriesAnswer.{IsSeriesText};
ghost use Rattle.fr_series.specs.SharpAnswer.{IsSharpSeriesText};
ghost use Rattle.fr_series.specs.Statuses.{HasOneStatusEachSeries};

use crate::laws::a_series_is_lawful;
use crate::sharp_laws::a_sharp_series_is_lawful;
use fr_params::accepted_are_sane;

/// A law: the bytes of the three files of a run define one status of a request for its series, in the older sense or
/// sharp.
pub fn a_series_has_one_status()
    ensures older { DefinesOneStatus (run_files IsSeriesText) 3 }
    ensures sharp { DefinesOneStatus (run_files IsSharpSeriesText) 3 }
{
    fr_params::one_answer();
    fr_params::some_answer();
    fr_drift::one_answer();
    fr_drift::some_answer();
    fr_script::one_answer();
    fr_script::some_answer();
    accepted_are_sane();
    a_series_is_lawful();
    a_sharp_series_is_lawful();
}

/// A law: whatever words of `flexray-series` ask for, the bytes of the files that they name define exactly one status
/// beside want of memory.
pub fn each_series_request_has_one_status()
    ensures { HasOneStatusEachSeries }
{
    a_series_has_one_status();
}
