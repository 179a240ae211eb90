ghost use Rattle.std.specs.Prelude.{◌≡◌, ◌≤◌, count_by, length, pos};
ghost use Rattle.fr_sightings.specs.Sure.{is_sync_as};
ghost use Rattle.fr_judging.specs.Hearing.{heard_among, heard_with, is_beside, log_heard, log_unheard, synced_with, unheard_kind, yardstick};

use crate::obstacle::{Obstacle, ObstacleKind};
use fr_bound::{Heard, Known, Spread, outweighs, sharp_bounds};
use fr_cluster::{NodeList, Params};
use fr_log::Log;
use fr_observe::stated_flutter;
use fr_sightings::is_sync_as;

/// What the nodes of a log hear of each other, by the counts of its sync nodes and by how many senders a node may miss; none where
/// the correct ones do not suffice, or where frames may be lost beside arbitrary ones: then none of its double cycles is judged.
#[tactic(auto, unfolding(crate::specs::Hearing::log_heard))]
pub fn heard(params: &Params, log: &Log) -> Option<Heard>
    ensures { result ≡ log_heard params.now log.now }
{
    heard_with(
        sync_nodes(params, log, false),
        sync_nodes(params, log, true),
        log.lost(),
    )
}

// Why it is not told what they hear.
fn unheard_kind(correct: u64, arbitrary: u64) -> ObstacleKind
    ensures { result ≡ unheard_kind correct arbitrary }
{
    if !outweighs(correct, arbitrary) {
        ObstacleKind::Count
    } else {
        ObstacleKind::Lost
    }
}

// What keeps each double cycle of such a log from being judged.
#[tactic(auto, unfolding(crate::specs::Hearing::log_unheard))]
pub(crate) fn unheard(params: &Params, log: &Log) -> Obstacle
    ensures { result ≡ log_unheard params.now log.now }
{
    Obstacle {
        kind: unheard_kind(
            sync_nodes(params, log, false),
            sync_nodes(params, log, true),
        ),
        cycle: None,
        node: None,
    }
}

/// The precision that rows of skews are told by, in ticks: the sharper one.
pub fn yardstick(params: &Params, log: &Log, heard: Option<Heard>) -> i64
    ensures { result ≡ pos (yardstick params.now log.now heard) }
{
    sharp_bounds(params, is_beside(heard), stated_flutter(params, log)).precision
}

// What is known of a double cycle in sync by the sharper bounds.
pub(crate) fn synced_with(params: &Params, log: &Log, heard: Heard) -> Known
    ensures { result ≡ synced_with params.now log.now heard }
{
    let bounds = sharp_bounds(params, is_beside(Some(heard)), stated_flutter(params, log));
    Known {
        spread: Spread {
            starts: bounds.pi as u64,
            lengths: bounds.lambda as u64,
        },
        beyond: 0,
    }
}

// Whether there may be arbitrary sync nodes.
fn is_beside(heard: Option<Heard>) -> bool
    ensures { result ≡ is_beside heard }
{
    match heard {
        Some(Heard::Clean | Heard::Poor) => false,
        Some(Heard::Meeting) | None => true,
    }
}

// What they hear, where a node may miss so many senders of a double cycle.
fn heard_among(arbitrary: u64, lost: u64) -> Option<Heard>
    ensures { result ≡ heard_among arbitrary lost }
{
    if lost == 0 {
        if arbitrary == 0 {
            Some(Heard::Clean)
        } else {
            Some(Heard::Meeting)
        }
    } else if arbitrary == 0 {
        Some(Heard::Poor)
    } else {
        None
    }
}

fn heard_with(correct: u64, arbitrary: u64, lost: u64) -> Option<Heard>
    ensures { result ≡ heard_with correct arbitrary lost }
{
    if outweighs(correct, arbitrary) {
        heard_among(arbitrary, lost)
    } else {
        None
    }
}

// How many nodes send sync frames, and are named arbitrary by the log or are not.
fn sync_nodes(params: &Params, log: &Log, arbitrary: bool) -> u64
    ensures { result ≡ count_by (is_sync_as log.now arbitrary) params.now.nodes }
{
    sync_count(&params.nodes, log, arbitrary)
}

fn sync_count(nodes: &NodeList, log: &Log, arbitrary: bool) -> u64
    requires { length nodes.now ≤ 64 }
    ensures { result ≡ count_by (is_sync_as log.now arbitrary) nodes.now }
{
    let mut count = 0;
    for place in 0..nodes.len() {
        match nodes.get(place) {
            Some(node) => {
                if is_sync_as(log, arbitrary, node) {
                    count += 1;
                }
            }
            None => {}
        }
    }
    count
}
