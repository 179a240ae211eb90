ghost use Rattle.std.specs.Prelude.{◌≡◌, ◌<◌};
ghost use Rattle.fr_sightings.specs.Ranges.{AreLogStamps};
ghost use Rattle.fr_observe.specs.Faults.{is_seen_whole};
ghost use Rattle.fr_judging.specs.Obstacles.{faulty, first_unseen, of_several, or_unseen, unseen_cycle, unseen_node};

use crate::obstacle::{Obstacle, ObstacleKind};
use fr_bound::DoubleNumber;
use fr_cluster::{NodeSpec, Params};
use fr_log::Log;
use fr_observe::Fault;
use fr_sightings::{Sighting, seen_box};

// A node is arbitrary, or was seen in both cycles of a double cycle.
fn is_seen_whole(log: &Log, here: &[Sighting], double: DoubleNumber, node: &NodeSpec) -> bool
    requires here { AreLogStamps log.now here.now }
    ensures { result ≡ is_seen_whole log.now here.now double node.now }
{
    log.is_arbitrary(node.id)
        || (node.key.is_some()
            && seen_box(log, here, node.id, 2 * double.0).is_some()
            && seen_box(log, here, node.id, 2 * double.0 + 1).is_some())
}

// In which cycle it was not, where it was not seen in both.
fn unseen_cycle(log: &Log, here: &[Sighting], double: DoubleNumber, node: &NodeSpec) -> u32
    requires here { AreLogStamps log.now here.now }
    ensures { result ≡ unseen_cycle log.now here.now double node.now }
{
    if seen_box(log, here, node.id, 2 * double.0).is_some() {
        2 * double.0 + 1
    } else {
        2 * double.0
    }
}

fn unseen_node(
    log: &Log,
    here: &[Sighting],
    double: DoubleNumber,
    node: &NodeSpec,
) -> Option<Obstacle>
    requires here { AreLogStamps log.now here.now }
    ensures { result ≡ unseen_node log.now here.now double node.now }
{
    if is_seen_whole(log, here, double, node) {
        None
    } else {
        Some(Obstacle {
            kind: ObstacleKind::Unseen,
            cycle: Some(unseen_cycle(log, here, double, node)),
            node: Some(node.id),
        })
    }
}

fn or_unseen(
    first: Option<Obstacle>,
    log: &Log,
    here: &[Sighting],
    double: DoubleNumber,
    node: &NodeSpec,
) -> Option<Obstacle>
    requires here { AreLogStamps log.now here.now }
    ensures { result ≡ or_unseen log.now here.now double first node.now }
{
    match first {
        Some(first) => Some(first),
        None => unseen_node(log, here, double, node),
    }
}

// The first node that was not seen in both cycles of a double cycle.
#[tactic(auto, unfolding(crate::specs::Obstacles::first_unseen))]
pub(crate) fn first_unseen(
    params: &Params,
    log: &Log,
    here: &[Sighting],
    double: DoubleNumber,
) -> Option<Obstacle>
    requires here { AreLogStamps log.now here.now }
    ensures { result ≡ first_unseen log.now here.now double params.now.nodes }
{
    let mut first = None;
    for place in 0..params.node_count() {
        first = or_unseen(first, log, here, double, params.node_at(place));
    }
    first
}

pub(crate) fn of_several(kind: ObstacleKind, double: DoubleNumber) -> Option<Obstacle>
    ensures { result ≡ of_several kind double }
{
    Some(Obstacle {
        kind,
        cycle: Some(2 * double.0),
        node: None,
    })
}

pub(crate) fn faulty(told: Option<Fault>) -> Option<Obstacle>
    ensures { result ≡ faulty told }
{
    match told {
        None => None,
        Some(fault) => Some(Obstacle {
            kind: ObstacleKind::Fault,
            cycle: Some(fault.cycle()),
            node: fault.node(),
        }),
    }
}
