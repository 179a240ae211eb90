ghost use Rattle.std.specs.Prelude.{◌≡◌, ◌≤◌, ◌<◌, ◌*◌, ◌||◌, ◌&&◌, Option, None, Some, true, false, if◌then◌else◌};
ghost use Rattle.fr_cluster.specs.Questions.{has_channel};
ghost use Rattle.fr_bound.specs.DoubleNumbers.{too_many_doubles};
ghost use Rattle.fr_script.specs.View.{is_arbitrary};
ghost use Rattle.fr_coverage.specs.First.{first_between};
ghost use Rattle.fr_coverage.specs.Links.{is_carried, is_carried_on, is_free, is_link, link_gap, shares};

use crate::gap::Gap;
use fr_base::Channel;
use fr_cluster::NodeSpec;
use fr_script::{Event, Script};

/// Whether the sender is correct and has a key slot, and the receiver is another correct node.
pub fn is_link(script: &Script, sender: &NodeSpec, receiver: &NodeSpec) -> bool
    ensures { result ≡ is_link script.now sender.now receiver.now }
{
    sender.key.is_some()
        && !script.arbitrary(sender.id)
        && !script.arbitrary(receiver.id)
        && sender.id != receiver.id
}

/// Whether both nodes have the channel.
pub fn shares(a: &NodeSpec, b: &NodeSpec, channel: Channel) -> bool
    ensures { result ≡ shares a.now b.now channel }
{
    a.has_channel(channel) && b.has_channel(channel)
}

// The first double cycle from one on, of so many, in which no common channel carries the frames of both cycles.
pub(crate) fn first_break(
    script: &Script,
    sender: &NodeSpec,
    receiver: &NodeSpec,
    from: u32,
    doubles: u32,
) -> Option<Gap>
    requires few { doubles ≤ 100_000 }
    requires correct { is_arbitrary script.now sender.now.id ≡ false }
    ensures { result ≡ first_between (link_gap script.now sender.now receiver.now) from doubles }
{
    let mut double = from.min(doubles);
    while double < doubles {
        if !is_carried(script, sender, receiver, double) {
            return Some(Gap::Link {
                sender: sender.id,
                receiver: receiver.id,
                double,
            });
        }
        double = script.next_deed(sender.id, receiver.id, 2 * double + 2, 2 * doubles) / 2;
    }
    None
}

fn is_carried(script: &Script, sender: &NodeSpec, receiver: &NodeSpec, double: u32) -> bool
    requires { double ≤ 100_000 }
    ensures { result ≡ is_carried script.now sender.now receiver.now double }
{
    is_carried_on(script, sender, receiver, double, Channel::A)
        || is_carried_on(script, sender, receiver, double, Channel::B)
}

/// Whether both nodes have the channel, and it carries the frames of both cycles of a double cycle as they were sent.
pub fn is_carried_on(
    script: &Script,
    sender: &NodeSpec,
    receiver: &NodeSpec,
    double: u32,
    channel: Channel,
) -> bool
    requires { double < too_many_doubles }
    ensures { result ≡ is_carried_on script.now sender.now receiver.now double channel }
{
    shares(sender, receiver, channel)
        && is_free(script, sender, receiver, channel, 2 * double)
        && is_free(script, sender, receiver, channel, 2 * double + 1)
}

fn is_free(
    script: &Script,
    sender: &NodeSpec,
    receiver: &NodeSpec,
    channel: Channel,
    cycle: u32,
) -> bool
    ensures { result ≡ is_free script.now sender.now.id receiver.now.id channel cycle }
{
    matches!(
        script.at(cycle, sender.id, receiver.id, channel),
        Event::Regular
    )
}
