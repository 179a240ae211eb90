ghost use Rattle.std.specs.Prelude.{◌≡◌, ◌<◌, ◌+◌, ◌/◌, ◌&&◌, All, is_some, length, nat_lt, not};
ghost use Rattle.fr_base.specs.Timed.{IsTimed};
ghost use Rattle.fr_bound.specs.Sync.{is_in_sync};
ghost use Rattle.fr_history.specs.Sync.{is_sync_at};
ghost use Rattle.fr_trace.specs.Cycles.{history_by};
ghost use Rattle.fr_verdict.specs.Breach.{is_first_row};
ghost use Rattle.fr_verdict.specs.Search.{apart_row, whenever};
ghost use Rattle.fr_verdict.specs.Sync.{may_follow};
ghost use Rattle.fr_verdict.specs.Sound.{AreTimed};
ghost use Rattle.fr_check.specs.Followed.{Foretells};

use crate::past::{any_row, last_cycle};
use fr_base::NodeRow;
use fr_cluster::Params;
use fr_skew::{in_sync_within, sync_bounds};
use fr_trace::{Trace, TracedCycle};
use fr_verdict::{Unlawful, timed_cycles};

// The breach of a double cycle in which a node or a deviation is apart.
pub(crate) fn apart(number: u64, double: u32, is: bool) -> Option<Unlawful>
    ensures { result ≡ whenever is (Unlawful.Apart number double) }
{
    if is {
        Some(Unlawful::Apart { number, double })
    } else {
        None
    }
}

// The double cycle of the cycle after some cycles.
pub(crate) fn double_behind(behind: &[TracedCycle]) -> u32
    requires { length behind.now < 200_000 }
    ensures value { result ≡ length (history_by behind.now) / 2 }
    ensures most { result < 200_000 }
{
    (behind.len() / 2) as u32
}

// Whether a double cycle is one of the two behind another.
fn is_soon_behind(earlier: u32, double: u32) -> bool
    ensures { result ≡ (nat_lt earlier double && nat_lt double (earlier + 3)) }
{
    if earlier < double {
        double - earlier < 3
    } else {
        false
    }
}

// Whether a node that joins may follow in a double cycle.
pub(crate) fn may_follow(trace: &Trace, double: u32) -> bool
    ensures { result ≡ may_follow trace.now double }
{
    trace
        .joins()
        .iter()
        .any(|joining| is_soon_behind(joining.join.double, double))
}

// Whether a row is the first of its node.
fn is_first_row(behind: &[TracedCycle], row: &NodeRow) -> bool
    ensures { result ≡ is_first_row (history_by behind.now) row.now }
{
    match last_cycle(behind) {
        None => false,
        Some((last, _)) => any_row(last, row.node).is_none(),
    }
}

// Whether the rows of two cycles are in sync.
fn are_in_sync(params: &Params, even: &TracedCycle, odd: &TracedCycle) -> bool
    requires even { All IsTimed even.now.rows.items }
    requires odd { All IsTimed odd.now.rows.items }
    ensures { result ≡ is_in_sync params.now even.now.rows.items odd.now.rows.items }
{
    in_sync_within(&sync_bounds(params), &even.rows, &odd.rows)
}

// Whether those of a double cycle are, if it is there.
fn is_sync_at(params: &Params, cycles: &[TracedCycle], double: usize) -> bool
    requires double { double < 200_000 }
    requires timed { AreTimed cycles.now }
    ensures { result ≡ is_sync_at params.now (history_by cycles.now) double }
{
    let even = 2 * double;
    if even + 1 < cycles.len() {
        are_in_sync(params, &cycles[even], &cycles[even + 1])
    } else {
        false
    }
}

// Whether some double cycle was in sync in which no node may follow, and this one is not in sync.
fn is_lost(params: &Params, trace: &Trace, double: u32, synced: Option<u32>) -> bool
    requires { double < 200_000 }
    ensures { result ≡ (is_some synced && not (is_sync_at params.now trace.now.history double)) }
{
    synced.is_some() && !is_sync_at(params, timed_cycles(trace), double as usize)
}

// The breach of a row that is the first of its node in a double cycle that must be in sync and is not, with its record
// number; and with the first double cycle in sync before it in which no node may follow, if there is one.
pub(crate) fn apart_row(
    params: &Params,
    trace: &Trace,
    number: u64,
    behind: &[TracedCycle],
    row: &NodeRow,
    synced: Option<u32>,
) -> Option<Unlawful>
    requires few { length behind.now < 200_000 }
    requires foretells { Foretells params.now trace.now (history_by behind.now) synced }
    ensures { result ≡ apart_row params.now trace.now number (history_by behind.now) row.now }
{
    let double = double_behind(behind);
    let is = is_first_row(behind, row) && is_lost(params, trace, double, synced);
    apart(number, double, is)
}
