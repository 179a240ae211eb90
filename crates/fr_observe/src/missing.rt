ghost use Rattle.std.specs.Prelude.{◌≡◌, Some};
ghost use Rattle.std.specs.List.{flat_map};
ghost use Rattle.fr_observe.specs.Faults.{is_inside, missing_by, missing_frames, missing_in, missing_of, missing_on, node_missing, was_seen};
ghost use Rattle.fr_observe.specs.Scenes.{IsScene};
ghost use Rattle.fr_observe.specs.Telling.{TellsFaults};

use crate::fault::{Fault, LogSpan};
use crate::scene::Scene;
use crate::telling::tell;
use fr_base::{Channel, NodeId, PutFault, Sink};
use fr_cluster::NodeSpec;
use fr_sightings::{Sighting, first_stamp, is_judged};

fn is_inside(span: &LogSpan, cycle: u32) -> bool
    ensures { result ≡ is_inside span.now cycle }
{
    span.first < cycle && cycle < span.last
}

// No frame of a node is there on a channel in a cycle, where the log has frames before and behind it.
fn missing_on(
    span: &LogSpan,
    here: &[Sighting],
    cycle: u32,
    node: NodeId,
    channel: Channel,
) -> Option<Fault>
    ensures { result ≡ missing_on span.now here.now cycle node channel }
{
    if is_inside(span, cycle) && first_stamp(here, node, channel, cycle).is_none() {
        Some(Fault::Missing {
            cycle,
            node,
            channel,
        })
    } else {
        None
    }
}

fn missing_by(
    span: &LogSpan,
    here: &[Sighting],
    cycle: u32,
    node: &NodeSpec,
    channel: Channel,
) -> Option<Fault>
    ensures { result ≡ missing_by span.now here.now cycle node.now channel }
{
    if node.has_channel(channel) {
        missing_on(span, here, cycle, node.id, channel)
    } else {
        None
    }
}

// Tells the channels of a node on which none is there in a cycle.
fn put_missing_in<O: Sink>(
    scene: &Scene<'_>,
    cycle: u32,
    node: &NodeSpec,
    first: &mut Option<Fault>,
    out: &mut O,
) -> Result<(), PutFault>
    ensures { TellsFaults result (O.state out.old) (O.state out.new) first.old first.new
        (missing_in scene.now.span scene.now.here.now cycle node.now) }
{
    let (span, here) = (&scene.span, scene.here);
    tell(missing_by(span, here, cycle, node, Channel::A), first, out)?;
    tell(missing_by(span, here, cycle, node, Channel::B), first, out)
}

fn put_missing_of<O: Sink>(
    scene: &Scene<'_>,
    node: &NodeSpec,
    first: &mut Option<Fault>,
    out: &mut O,
) -> Result<(), PutFault>
    requires { IsScene scene.now }
    ensures { TellsFaults result (O.state out.old) (O.state out.new) first.old first.new
        (missing_of scene.now.span scene.now.here.now scene.now.number node.now) }
{
    let even = 2 * scene.number;
    put_missing_in(scene, even, node, first, out)?;
    put_missing_in(scene, even + 1, node, first, out)
}

// Whether frames of a node are among these.
fn was_seen(before: &[Sighting], node: NodeId) -> bool
    ensures { result ≡ was_seen before.now node }
{
    before.iter().any(|s| s.node == node)
}

// The same of a node that was seen in the double cycle before.
fn put_node_missing<O: Sink>(
    scene: &Scene<'_>,
    node: &NodeSpec,
    first: &mut Option<Fault>,
    out: &mut O,
) -> Result<(), PutFault>
    requires { IsScene scene.now }
    ensures { TellsFaults result (O.state out.old) (O.state out.new) first.old first.new
        (node_missing scene.now.log.now scene.now.span scene.now.before.now scene.now.here.now scene.now.number
        node.now) }
{
    if is_judged(scene.log, node) && was_seen(scene.before, node.id) {
        put_missing_of(scene, node, first, out)
    } else {
        Ok(())
    }
}

fn put_all_missing<O: Sink>(
    scene: &Scene<'_>,
    first: &mut Option<Fault>,
    out: &mut O,
) -> Result<(), PutFault>
    requires { IsScene scene.now }
    ensures { TellsFaults result (O.state out.old) (O.state out.new) first.old first.new
        (flat_map (node_missing scene.now.log.now scene.now.span scene.now.before.now scene.now.here.now
        scene.now.number) scene.now.params.now.nodes) }
{
    for place in 0..scene.params.node_count() {
        put_node_missing(scene, scene.params.node_at(place), first, out)?;
    }
    Ok(())
}

/// Tells which frames are missing of nodes that sent in the double cycle before, where the observer missed none: a line for each,
/// and the first one of all that were told is kept.
pub fn put_missing<O: Sink>(
    scene: &Scene<'_>,
    first: &mut Option<Fault>,
    out: &mut O,
) -> Result<(), PutFault>
    requires { IsScene scene.now }
    ensures { TellsFaults result (O.state out.old) (O.state out.new) first.old first.new
        (missing_frames scene.now.params.now scene.now.log.now scene.now.span scene.now.before.now scene.now.here.now
        scene.now.number) }
{
    if scene.log.is_whole() {
        put_all_missing(scene, first, out)
    } else {
        Ok(())
    }
}
