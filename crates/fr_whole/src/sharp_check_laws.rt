ghost use Rattle.std.specs.Prelude.{◌≡◌, []};
ghost use Rattle.fr_cluster.specs.Sane.{IsSane};
ghost use Rattle.fr_cluster.specs.Values.{Values};
ghost use Rattle.fr_text.specs.Files.{IsDecided, said_of};
ghost use Rattle.fr_trace.specs.Fits.{TraceFits};
ghost use Rattle.fr_trace.specs.Lasting.{IsTrace};
ghost use Rattle.fr_trace.specs.Trace.{TraceView};
ghost use Rattle.fr_verdict.specs.OtherGaps.{IsOtherwiseCovered};
ghost use Rattle.fr_whole.specs.SharpCheckAnswer.{sharp_check_files, IsSharpCheckText};
ghost use Rattle.fr_whole.specs.SharpCheckText.{sharp_check_text};

use fr_precision::walks_are_bounded;
use fr_verdict::{alike_traces_keep_sharp_sync, other_gaps_are_found, traces_keep_sharp_sync};

/// A law: what is printed of a trace that no node joins, that is lawful and has no gap but of the older checks, is the
/// text of its figures, which mean what they are called; and from its first double cycle in sharp sync on it keeps what
/// the sharper theorem promises of its kind, with both errors of an arrival for the flutter.
pub fn a_sharp_check_is_told()
    ensures { (p : Values) (t : TraceView) → IsSane p → IsTrace t → TraceFits p t → IsOtherwiseCovered p t →
        t.joins ≡ [] → IsSharpCheckText p t (sharp_check_text p t) }
{
    walks_are_bounded();
    traces_keep_sharp_sync();
    alike_traces_keep_sharp_sync();
}

/// A law: the bytes of the files decide what is written of a trace by the sharper bounds, and what is said of one of
/// which they say nothing.
pub fn files_decide_the_sharp_check()
    ensures written { IsDecided sharp_check_files }
    ensures told { IsDecided (said_of sharp_check_files) }
{
    fr_params::one_answer();
    fr_trace::one_answer();
    other_gaps_are_found();
}
