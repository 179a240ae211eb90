ghost use Rattle.std.specs.Prelude.{◌≡◌, ◌≤◌, ◌*◌, Some, IfSome};
ghost use Rattle.std.specs.List.{list_all};
ghost use Rattle.fr_bound.specs.Bounds.{nominal, shortest_micro};
ghost use Rattle.fr_cluster.specs.Values.{amount};
ghost use Rattle.fr_cluster.specs.declared.names.ParamName.TheVariants as name;
ghost use Rattle.fr_log.specs.View.{AreDelayLimits};
ghost use Rattle.fr_sightings.specs.Sure.{are_numbers_sure, clocks_off, is_named_as, is_node_sure, is_sure_on, is_sure_within, is_sync_as, off_schedule, reading_off};
ghost use Rattle.fr_course.specs.Ranges.{greatest_delay};
ghost use Rattle.fr_sightings.specs.Ranges.{greatest_clocks_off, greatest_off_schedule, greatest_reading_off, greatest_starts_off};

use crate::numbering::NOMINAL;
use fr_base::Channel;
use fr_bound::{longest_microtick, shortest_microtick};
use fr_cluster::{NodeList, NodeSpec, ParamName, Params};
use fr_log::{DelayLimits, Log};

/// Whether a node sends sync frames, and the log names it arbitrary or does not.
pub fn is_sync_as(log: &Log, arbitrary: bool, node: &NodeSpec) -> bool
    ensures { result ≡ is_sync_as log.now arbitrary node.now }
{
    node.key.is_some() && is_named_as(log, arbitrary, node)
}

fn is_named_as(log: &Log, arbitrary: bool, node: &NodeSpec) -> bool
    ensures { result ≡ is_named_as log.now arbitrary node.now.id }
{
    let named = log.is_arbitrary(node.id);
    if arbitrary { named } else { !named }
}

// How far off the clock of a node can be over 16 double cycles and two action points, in ticks.
fn clocks_off(params: &Params) -> u64
    ensures value { result ≡ clocks_off params.now }
    ensures most { result ≤ greatest_clocks_off }
{
    let longest = longest_microtick(params);
    let rate = params.natural(ParamName::pRateCorrectionOut) * longest;
    let drift = params.natural(ParamName::pMicroPerCycle) * params.natural(ParamName::xRateBound);
    let offset = params.natural(ParamName::pOffsetCorrectionOut) * longest;
    36 * (rate + drift) + 16 * offset + 2 * longest
}

// And a reading of the observer's clock.
fn reading_off(params: &Params, log: &Log) -> u64
    ensures value { result ≡ reading_off params.now log.now }
    ensures most { result ≤ greatest_reading_off }
{
    let drift = params.natural(ParamName::pMicroPerCycle) * log.drift();
    31 * drift + (log.unit() + log.error())
}

// How far apart the starts of two nodes lie at most: the offset limit at the shortest microtick, in ticks.
fn starts_off(params: &Params) -> u64
    ensures value { result ≡ amount params.now name.pOffsetCorrectionOut * shortest_micro params.now }
    ensures most { result ≤ greatest_starts_off }
{
    params.natural(ParamName::pOffsetCorrectionOut) * shortest_microtick(params)
}

// How far off the schedule a frame comes at most, with a delay of so many ticks.
fn off_schedule(params: &Params, log: &Log, delay: u64) -> u64
    requires { delay ≤ greatest_delay }
    ensures value { result ≡ off_schedule params.now log.now delay }
    ensures most { result ≤ greatest_off_schedule }
{
    clocks_off(params) + delay + reading_off(params, log) + starts_off(params)
}

// A cycle at the nominal microtick, in ticks.
fn nominal_cycle(params: &Params) -> u64
    ensures { result ≡ amount params.now name.pMicroPerCycle * nominal }
{
    params.natural(ParamName::pMicroPerCycle) * NOMINAL
}

// That is no more than half a cycle, with delays within limits.
fn is_sure_within(params: &Params, log: &Log, limits: Option<DelayLimits>) -> bool
    requires { IfSome limits AreDelayLimits }
    ensures { result ≡ is_sure_within params.now log.now limits }
{
    match limits {
        None => false,
        Some(limits) => { 2 * off_schedule(params, log, limits.high) <= nominal_cycle(params) }
    }
}

// With those of a node's frames on a channel.
fn is_sure_on(params: &Params, log: &Log, node: &NodeSpec, channel: Channel) -> bool
    ensures { result ≡ is_sure_on params.now log.now node.now channel }
{
    !node.has_channel(channel) || is_sure_within(params, log, log.limits_of(node.id, channel))
}

// With those of a node's frames, where they are judged.
fn is_node_sure(params: &Params, log: &Log, node: &NodeSpec) -> bool
    ensures { result ≡ is_node_sure params.now log.now node.now }
{
    !is_sync_as(log, false, node)
        || (is_sure_on(params, log, node, Channel::A) && is_sure_on(params, log, node, Channel::B))
}

fn are_all_sure(params: &Params, log: &Log, nodes: &NodeList) -> bool
    ensures { result ≡ list_all (is_node_sure params.now log.now) nodes.now }
{
    for place in 0..nodes.len() {
        match nodes.get(place) {
            Some(node) => {
                if !is_node_sure(params, log, node) {
                    return false;
                }
            }
            None => {}
        }
    }
    true
}

/// Whether the numbers of a cluster and of a log suffice for frames of clocks whose starts lie near each other to come in
/// time: with the delays of all frames that are judged, each comes within half a cycle of the schedule.
#[tactic(auto, unfolding(crate::specs::Sure::are_numbers_sure))]
pub fn are_numbers_sure(params: &Params, log: &Log) -> bool
    ensures { result ≡ are_numbers_sure params.now log.now }
{
    are_all_sure(params, log, &params.nodes)
}
