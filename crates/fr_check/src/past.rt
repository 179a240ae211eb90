ghost use Rattle.std.specs.Prelude.{◌≡◌, ◌==◌, ◌∷◌, [], filter, IfSome, MatchOption};
ghost use Rattle.fr_base.specs.Rows.{AreAscendingDevs};
ghost use Rattle.fr_cluster.specs.Values.{Values};
ghost use Rattle.fr_history.specs.History.{row_of};
ghost use Rattle.fr_history.specs.Terms.{latest_devs};
ghost use Rattle.fr_time.specs.Instant.{KeepsLimits};
ghost use Rattle.fr_trace.specs.Cycles.{history_by, kept_of};
ghost use Rattle.fr_verdict.specs.Sound.{AreSound, AreSoundDevs, IsSound};
ghost use Rattle.std.specs.Option.{option_copied};

use fr_base::{Dev, NodeId, NodeRow};
use fr_cluster::Params;
use fr_trace::TracedCycle;
use fr_verdict::{devs_of, row_of};

// The last of some cycles, and those before it.
pub(crate) fn last_cycle(cycles: &[TracedCycle]) -> Option<(&TracedCycle, &[TracedCycle])>
    ensures parts { MatchOption result (history_by cycles.now ≡ []) (λ parts.
        history_by cycles.now ≡ kept_of parts.0.now ∷ history_by parts.1.now) }
    ensures last { (p : Values) → AreSound p cycles.now → IfSome result (λ parts. IsSound p (kept_of parts.0.now)) }
    ensures earlier { (p : Values) → AreSound p cycles.now → IfSome result (λ parts. AreSound p parts.1.now) }
{
    match cycles.split_last() {
        None => None,
        Some((last, earlier)) => Some((last, earlier)),
    }
}

// The deviations of the last of some cycles.
pub(crate) fn latest_devs(cycles: &[TracedCycle]) -> &[Dev]
    ensures value { result.now ≡ latest_devs (history_by cycles.now) }
    ensures sound { (p : Values) → AreSound p cycles.now → AreSoundDevs p result.now }
{
    match last_cycle(cycles) {
        None => &[],
        Some((last, _)) => last.devs.as_slice(),
    }
}

// The row of a node in a cycle.
pub(crate) fn sound_row<'a>(
    params: &Params,
    cycle: &'a TracedCycle,
    node: NodeId,
) -> Option<&'a NodeRow>
    requires { IsSound params.now (kept_of cycle.now) }
    ensures value { option_copied result ≡ row_of cycle.now.rows.items node }
    ensures keeps { IfSome result (λ row. KeepsLimits params.now row.now) }
{
    let _nodes = &params.nodes;
    row_of(&cycle.rows, node)
}

// The row of a node in a cycle, of which nothing is known.
pub(crate) fn any_row(cycle: &TracedCycle, node: NodeId) -> Option<&NodeRow>
    ensures { option_copied result ≡ row_of cycle.now.rows.items node }
{
    row_of(&cycle.rows, node)
}

// The deviations of a receiver in a cycle.
pub(crate) fn own_devs(cycle: &TracedCycle, node: NodeId) -> &[Dev]
    requires { AreAscendingDevs cycle.now.devs.items }
    ensures { result.now ≡ filter (λ dev. dev.receiver == node) cycle.now.devs.items }
{
    devs_of(&cycle.devs, node)
}
