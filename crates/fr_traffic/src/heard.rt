ghost use Rattle.std.specs.Prelude.{◌≡◌};
ghost use Rattle.fr_traffic.specs.Reaching.{all_reach, reaches, reaches_each, reaches_on, whole_in};

use fr_base::Channel;
use fr_bound::DoubleNumber;
use fr_cluster::{NodeList, NodeSpec, Params};
use fr_coverage::{is_carried_on, is_link, shares};
use fr_script::Script;

/// Whether all is heard in a double cycle: of any two nodes one channel carries the frames of both its cycles, where one counts
/// on the other. Without a number: whether it would be if nothing were lost.
pub fn all_reach(nodes: &NodeList, script: &Script, when: &Option<DoubleNumber>) -> bool
    ensures { result ≡ all_reach nodes.now script.now when.now }
{
    let mut all = true;
    for place in 0..nodes.len() {
        match nodes.get(place) {
            Some(node) => all = all && reaches_each(nodes, script, node, when),
            None => {}
        }
    }
    all
}

/// Whether all is heard in a double cycle: of any two nodes one channel carries the frames of both its cycles, where one
/// counts on the other.
pub fn is_whole(params: &Params, script: &Script, double: DoubleNumber) -> bool
    ensures { result ≡ whole_in params.now script.now double }
{
    let nodes = &params.nodes;
    all_reach(nodes, script, &Some(double))
}

fn reaches_each(
    nodes: &NodeList,
    script: &Script,
    sender: &NodeSpec,
    when: &Option<DoubleNumber>,
) -> bool
    ensures { result ≡ reaches_each nodes.now script.now when.now sender.now }
{
    let mut all = true;
    for place in 0..nodes.len() {
        match nodes.get(place) {
            Some(node) => {
                let free = !is_link(script, sender, node) || reaches(script, sender, node, when);
                all = all && free;
            }
            None => {}
        }
    }
    all
}

fn reaches(
    script: &Script,
    sender: &NodeSpec,
    receiver: &NodeSpec,
    when: &Option<DoubleNumber>,
) -> bool
    ensures { result ≡ reaches script.now sender.now receiver.now when.now }
{
    reaches_on(script, sender, receiver, when, Channel::A)
        || reaches_on(script, sender, receiver, when, Channel::B)
}

fn reaches_on(
    script: &Script,
    sender: &NodeSpec,
    receiver: &NodeSpec,
    when: &Option<DoubleNumber>,
    channel: Channel,
) -> bool
    ensures { result ≡ reaches_on script.now sender.now receiver.now when.now channel }
{
    match when {
        None => shares(sender, receiver, channel),
        Some(double) => is_carried_on(script, sender, receiver, double.0, channel),
    }
}
