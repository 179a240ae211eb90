ghost use Rattle.std.specs.Prelude.{◌≡◌, ◌≤◌, ◌+◌, ◌*◌, length};
ghost use Rattle.fr_cluster.specs.Constraints.{key_slots};
ghost use Rattle.fr_sharp.specs.MeetingCosts.{IsMeetingCost, IsMostMissed, may_miss};

use fr_bound::{Flutter, even_lambda, near_by, precision_by, sharp_pi};
use fr_cluster::{NodeList, Params};
use fr_traffic::discarded_of;

/// What it costs, in ticks, where each node misses the frames of few other sync nodes in each double cycle for ever,
/// without arbitrary sync nodes.
#[derive(Clone, Copy, Debug, PartialEq, Eq)]
pub struct MeetingCost {
    /// How far macroticks may lie apart.
    pub peak: u64,
    /// How far instants of the same action point may lie apart.
    pub reach: u64,
    /// Of how many other sync nodes each may miss the frames at most, 0 to 7, so that lists meet whichever they are.
    pub missed: u32,
}

/// What it costs where each node misses the frames of so few other sync nodes, and delays flutter by no more than so many
/// ticks.
pub fn meeting_cost(params: &Params, flutter: Flutter) -> MeetingCost
    ensures { IsMeetingCost params.now flutter result }
{
    let starts = sharp_pi(params, true, flutter);
    let lengths = even_lambda(params, true, flutter);
    MeetingCost {
        peak: precision_by(params, starts, lengths),
        reach: near_by(params, starts, lengths),
        missed: most_missed(sync_nodes(&params.nodes)),
    }
}

// How many nodes have a key slot.
fn sync_nodes(nodes: &NodeList) -> u64
    requires { length nodes.now ≤ 64 }
    ensures { result ≡ length (key_slots nodes.now) }
{
    let mut count = 0;
    for place in 0..nodes.len() {
        match nodes.get(place) {
            Some(node) => {
                if node.key.is_some() {
                    count += 1;
                }
            }
            None => {}
        }
    }
    count
}

// The greatest number that any two nodes may each miss of so many senders.
fn most_missed(senders: u64) -> u32
    requires from { 1 ≤ senders }
    requires to { senders ≤ 15 }
    ensures { IsMostMissed senders result }
{
    for missed in 0..8 {
        if !may_miss(senders, missed + 1) {
            return missed;
        }
    }
    unreachable!()
}

fn may_miss(senders: u64, missed: u32) -> bool
    requires senders { senders ≤ 15 }
    requires missed { missed ≤ 15 }
    ensures { result ≡ may_miss senders missed }
{
    let missed = u64::from(missed);
    2 * (missed + discarded_of(senders.saturating_sub(missed))) < senders
}
