ghost use Rattle.std.specs.Prelude.{◌≡◌, ◌≤◌, ◌<◌, ◌+◌, ◌∷◌, [], length, IfErr, IfOk, None, Some};
ghost use Rattle.fr_trace.specs.Cycles.{history_by, kept_of};
ghost use Rattle.fr_trace.specs.Items.{items_by};
ghost use Rattle.fr_check.specs.Controls.{Hold};
ghost use Rattle.fr_check.specs.Corrections.{AreCorrections, AreLatest, IsNoted};
ghost use Rattle.fr_verdict.specs.Search.{first_from};
ghost use Rattle.fr_verdict.specs.Sound.{AreSound, IsSound};
ghost use Rattle.fr_check.specs.Followed.{Foretells};
ghost use Rattle.fr_check.specs.Walked.{devs_told_of};

use crate::apart::double_behind;
use crate::control::Controls;
use crate::corrections::Corrections;
use crate::deviations::{Allowed, dev_breach, is_odd_behind};
use crate::past::{own_devs, sound_row};
use crate::rows::row_breach;
use fr_base::{NodeId, NodeRow};
use fr_cluster::Params;
use fr_trace::{Trace, TracedCycle};
use fr_verdict::Unlawful;

// Passes the deviations of a receiver in a cycle.
fn pass_devs(
    params: &Params,
    trace: &Trace,
    number: u64,
    behind: &[TracedCycle],
    cycle: &TracedCycle,
    node: NodeId,
) -> Result<u64, Unlawful>
    requires number { number ≤ 900_000_000_000_000 }
    requires few { length behind.now < 200_000 }
    requires cycle { IsSound params.now (kept_of cycle.now) }
    ensures found { IfErr result (λ breach.
        first_from params.now trace.now number
        (devs_told_of (history_by behind.now) (kept_of cycle.now) node cycle.now.devs.items) ≡ Some breach) }
    ensures none { IfOk result (λ next.
        first_from params.now trace.now number
        (devs_told_of (history_by behind.now) (kept_of cycle.now) node cycle.now.devs.items) ≡ None) }
    ensures next { IfOk result (λ next.
        next ≡ number + length (devs_told_of (history_by behind.now) (kept_of cycle.now) node cycle.now.devs.items)) }
    ensures most { IfOk result (λ next. next ≤ number + 140_000) }
{
    let receiver = sound_row(params, cycle, node);
    let odd = is_odd_behind(behind);
    let double = double_behind(behind);
    let own = own_devs(cycle, node);
    let mut next = number;
    let mut allowed = Allowed::of_no_slot();
    for dev in own {
        allowed.reach(params, trace, odd, cycle, receiver, dev.slot);
        match dev_breach(next, double, &allowed, dev) {
            Some(breach) => return Err(breach),
            None => next += 1,
        }
    }
    Ok(next)
}

// Passes a row of a cycle and the deviations of its node.
fn pass_row(
    params: &Params,
    trace: &Trace,
    number: u64,
    behind: &[TracedCycle],
    cycle: &TracedCycle,
    controls: &Controls,
    corrections: &Corrections,
    synced: Option<u32>,
    row: &NodeRow,
) -> Result<u64, Unlawful>
    requires number { number ≤ 800_000_000_000_000 }
    requires few { length behind.now < 200_000 }
    requires foretells { Foretells params.now trace.now (history_by behind.now) synced }
    requires behind { AreSound params.now behind.now }
    requires cycle { IsSound params.now (kept_of cycle.now) }
    requires hold { Hold params.now (history_by behind.now) controls.now }
    requires latest { AreLatest params.now (history_by behind.now) corrections.now }
    requires kept { IsNoted params.now (history_by behind.now) (kept_of cycle.now) corrections.now row.now }
    ensures found { IfErr result (λ breach.
        first_from params.now trace.now number
        (items_by (history_by behind.now) (kept_of cycle.now) (row.now ∷ [])) ≡ Some breach) }
    ensures none { IfOk result (λ next.
        first_from params.now trace.now number
        (items_by (history_by behind.now) (kept_of cycle.now) (row.now ∷ [])) ≡ None) }
    ensures next { IfOk result (λ next.
        next ≡ number + length (items_by (history_by behind.now) (kept_of cycle.now) (row.now ∷ []))) }
    ensures most { IfOk result (λ next. next ≤ number + 140_001) }
{
    match row_breach(
        params,
        trace,
        number,
        behind,
        row,
        controls,
        corrections,
        synced,
    ) {
        Some(breach) => Err(breach),
        None => match pass_devs(params, trace, number + 1, behind, cycle, row.node) {
            Ok(next) => Ok(next),
            Err(breach) => Err(breach),
        },
    }
}

// Passes the records of a cycle: the number of the record after them, or the first breach. It takes the first double
// cycle in sync behind it.
pub(crate) fn pass_cycle(
    params: &Params,
    trace: &Trace,
    number: u64,
    behind: &[TracedCycle],
    cycle: &TracedCycle,
    controls: &Controls,
    corrections: &Corrections,
    synced: Option<u32>,
) -> Result<u64, Unlawful>
    requires number { number ≤ 700_000_000_000_000 }
    requires few { length behind.now < 200_000 }
    requires foretells { Foretells params.now trace.now (history_by behind.now) synced }
    requires behind { AreSound params.now behind.now }
    requires cycle { IsSound params.now (kept_of cycle.now) }
    requires hold { Hold params.now (history_by behind.now) controls.now }
    requires latest { AreLatest params.now (history_by behind.now) corrections.now }
    requires here { AreCorrections params.now (history_by behind.now) (kept_of cycle.now) corrections.now }
    ensures found { IfErr result (λ breach.
        first_from params.now trace.now number
        (items_by (history_by behind.now) (kept_of cycle.now) cycle.now.rows.items) ≡ Some breach) }
    ensures none { IfOk result (λ next.
        first_from params.now trace.now number
        (items_by (history_by behind.now) (kept_of cycle.now) cycle.now.rows.items) ≡ None) }
    ensures next { IfOk result (λ next.
        next ≡ number + length (items_by (history_by behind.now) (kept_of cycle.now) cycle.now.rows.items)) }
    ensures most { IfOk result (λ next. next ≤ number + 9_000_000) }
{
    let mut next = number;
    for row in &cycle.rows {
        match pass_row(
            params,
            trace,
            next,
            behind,
            cycle,
            controls,
            corrections,
            synced,
            row,
        ) {
            Ok(after) => next = after,
            Err(breach) => return Err(breach),
        }
    }
    Ok(next)
}
