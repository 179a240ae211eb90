ghost use Rattle.fr_cluster.specs.Values.{Values};
ghost use Rattle.fr_findings.specs.Text.{observe_text};
ghost use Rattle.fr_log.specs.View.{LogView};
ghost use Rattle.fr_whole.specs.ObservedText.{IsObservedText};

use fr_seen::{cycle_words_hold, doubles_are_there, observed_rows_hold};
use fr_seen_runs::{
    missings_are_so, near_is_timely, no_fault_is_told, no_run_is_contradicted, over_is_so,
    spreads_are_so, text_tells_doubles, verdict_tells_first, within_is_so,
};

/// A law: the text of a log means what its clause says, in each run that the log is seen of, or read of where its numbers
/// are sure.
pub fn an_observed_text_is_so()
    ensures { (p : Values) (l : LogView) → IsObservedText p l (observe_text p l) }
{
    text_tells_doubles();
    doubles_are_there();
    observed_rows_hold();
    cycle_words_hold();
    no_fault_is_told();
    verdict_tells_first();
    no_run_is_contradicted();
    over_is_so();
    within_is_so();
    spreads_are_so();
    missings_are_so();
    near_is_timely();
}
