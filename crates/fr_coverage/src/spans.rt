ghost use Rattle.std.specs.Prelude.{◌≡◌, ◌≤◌, ◌<◌, ◌*◌, ◌≤ℤ◌, pos, neg_ℤ, suc};
ghost use Rattle.fr_coverage.specs.First.{first_between};
ghost use Rattle.fr_coverage.specs.Coverage.{change_gap, delay_gap, has_jumped, how_many_cycles, is_off, is_wrong, length_gap};
ghost use Rattle.fr_drift.specs.Rows.{most_link_delay};

use crate::gap::Gap;
use fr_base::{Channel, NodeId};
use fr_cluster::{ParamName, Params};
use fr_drift::Drift;

// The ticks of a nominal microtick.
const NOMINAL: i64 = 1_000_000;

// The first cycle, from a double cycle of the run on, in which the microtick of a node is too short or too long. It
// takes time as the node has rows of lengths.
pub(crate) fn first_length(params: &Params, drift: &Drift, node: NodeId, from: u32) -> Option<Gap>
    ensures { result ≡ first_between (length_gap params.now drift.now node) (2 * from) (how_many_cycles drift.now) }
{
    let end = cycles(drift);
    let mut cycle = first_cycle(drift, from);
    while cycle < end {
        let ticks = drift.length(node, cycle);
        if is_off(params, ticks) {
            return Some(Gap::Length { node, cycle, ticks });
        }
        cycle = drift.next_length(node, cycle, end);
    }
    None
}

// The first cycle, behind the first one from a double cycle of the run on, in which the microtick of a node has changed by
// too much. It takes time as the node has rows of lengths.
pub(crate) fn first_change(params: &Params, drift: &Drift, node: NodeId, from: u32) -> Option<Gap>
    ensures { result ≡
        first_between (change_gap params.now drift.now node) (suc (2 * from)) (how_many_cycles drift.now) }
{
    let end = cycles(drift);
    let mut cycle = end.min(first_cycle(drift, from) + 1);
    while cycle < end {
        let before = drift.length(node, cycle.saturating_sub(1));
        let ticks = drift.length(node, cycle);
        if has_jumped(params, before, ticks) {
            return Some(Gap::Change {
                node,
                cycle,
                ticks: ticks - before,
            });
        }
        cycle = drift.next_length(node, cycle, end);
    }
    None
}

// The first cycle, from a double cycle of the run on, in which frames travel for too short or too long a time over a link
// on a channel. It takes time as the link has rows of delays there.
pub(crate) fn first_delay(
    params: &Params,
    drift: &Drift,
    sender: NodeId,
    receiver: NodeId,
    channel: Channel,
    from: u32,
) -> Option<Gap>
    ensures { result ≡
        first_between (delay_gap params.now drift.now sender receiver channel) (2 * from) (how_many_cycles drift.now) }
{
    let end = cycles(drift);
    let mut cycle = first_cycle(drift, from);
    while cycle < end {
        let ticks = drift.delay(sender, receiver, channel, cycle);
        if is_wrong(params, channel, ticks) {
            return Some(Gap::Delay {
                sender,
                receiver,
                channel,
                cycle,
                ticks,
            });
        }
        cycle = drift.next_delay(sender, receiver, channel, cycle, end);
    }
    None
}

// The cycles of a run.
pub(crate) fn cycles(drift: &Drift) -> u32
    ensures value { result ≡ how_many_cycles drift.now }
    ensures few { result ≤ 200_000 }
{
    2 * drift.doubles()
}

// The first cycle of a double cycle, or the end of the run where there is none.
pub(crate) fn first_cycle(drift: &Drift, from: u32) -> u32
    ensures least { result ≤ 2 * from }
    ensures most { result ≤ how_many_cycles drift.now }
    ensures is { result < how_many_cycles drift.now → 2 * from ≤ result }
    ensures few { result ≤ 200_000 }
{
    2 * from.min(drift.doubles())
}

fn is_off(params: &Params, ticks: i64) -> bool
    ensures { result ≡ is_off params.now ticks }
{
    let bound = params.natural(ParamName::xRateBound);
    let (shortest, longest) = (1_000_000 - bound, 1_000_000 + bound);
    ticks < shortest as i64 || (longest as i64) < ticks
}

fn has_jumped(params: &Params, before: i64, ticks: i64) -> bool
    requires before_from { pos 500_000 ≤ℤ before }
    requires before_to { before ≤ℤ pos 1_500_000 }
    requires from { pos 500_000 ≤ℤ ticks }
    requires to { ticks ≤ℤ pos 1_500_000 }
    ensures { result ≡ has_jumped params.now before ticks }
{
    let most = params.natural(ParamName::xChangeBound) as i64;
    before + most < ticks || ticks + most < before
}

fn is_wrong(params: &Params, channel: Channel, ticks: i64) -> bool
    requires from { pos 0 ≤ℤ ticks }
    requires to { ticks ≤ℤ pos most_link_delay }
    ensures { result ≡ is_wrong params.now channel ticks }
{
    let expected = params.compensation(channel) * NOMINAL;
    let most = params.natural(ParamName::xDelayError) as i64;
    ticks + most < expected || expected + most < ticks
}
