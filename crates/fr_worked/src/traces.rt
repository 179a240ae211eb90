ghost use Rattle.fr_worked.specs.Traces.{KeepsSharplyBeside, PassesAndComesSharp, SettlesFromFarStarts};

use fr_verdict::{traces_keep_sharp_sync, traces_settle_sharply};

/// A law: what is said of traces that come into sharp sync is not empty. A worked trace of four double cycles begins with
/// starts 60,000,000 ticks apart, in sync and not in sharp sync. It passes, so it keeps the sharper precision from its third
/// double cycle on; and from these starts it settles, in each of its double cycles as the spreads say.
pub fn a_trace_that_comes_sharp()
    ensures passes { PassesAndComesSharp }
    ensures settles { SettlesFromFarStarts }
{
    traces_keep_sharp_sync();
    traces_settle_sharply();
}

/// A law: nor is what is said of traces that name an arbitrary node. One that names node 4, which three others hear late,
/// early and not at all, meets the premises and keeps the sharper precision that is stated beside arbitrary nodes.
pub fn a_trace_beside_an_arbitrary_node()
    ensures { KeepsSharplyBeside }
{
    traces_keep_sharp_sync();
}
