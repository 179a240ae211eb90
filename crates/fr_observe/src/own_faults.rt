ghost use Rattle.std.specs.Prelude.{◌≡◌, ◌+◌, ◌*◌, ◌≤◌, ◌<◌, Some, All, IfSome, filter_map, map, pos};
ghost use Rattle.std.specs.List.{flat_map};
ghost use Rattle.fr_course.specs.Course.{apart_by};
ghost use Rattle.fr_course.specs.Near.{IsApart, IsBox, IsSpan};
ghost use Rattle.fr_log.specs.Rows.{last_stamp};
ghost use Rattle.fr_sightings.specs.Ranges.{AreLogStamps};
ghost use Rattle.fr_sightings.specs.Senders.{first_stamp, seen_span};
ghost use Rattle.fr_observe.specs.Faults.{IsFirst, box_fault, clock_faults, cycle_fault, limit_fault, limit_with, node_faults, own_faults, twice_by, twice_fault};
ghost use Rattle.fr_observe.specs.Scenes.{IsScene};
ghost use Rattle.fr_observe.specs.Telling.{TellsFaults};

use crate::fault::{Fault, Range};
use crate::scene::Scene;
use crate::sender_faults::{Asked, put_of_senders};
use crate::telling::{tell, tell_one};
use fr_base::{NodeId, PutFault, Sink};
use fr_bound::DoubleNumber;
use fr_cluster::NodeSpec;
use fr_course::{Interval, Scale, allowed, between, is_empty, meet, meet_if, seen_apart};
use fr_log::Log;
use fr_sightings::{FirstList, SeenCycle, Sighting, first_stamp, is_judged, seen_box, seen_span};

// By its frames on both channels an action point of a node lies nowhere.
fn box_fault(cycle: u32, node: NodeId, place: Option<Interval>) -> Option<Fault>
    requires { IfSome place IsBox }
    ensures { result ≡ box_fault cycle node place }
{
    match place {
        None => None,
        Some(place) => {
            if is_empty(&place) {
                Some(Fault::Channels {
                    cycle,
                    node,
                    point: Range::of(&place),
                })
            } else {
                None
            }
        }
    }
}

// How far apart both action points of a double cycle can be.
fn apart_by(scale: &Scale, even: &Interval, odd: &Interval, span: Option<Interval>) -> Interval
    requires even { IsBox even.now }
    requires odd { IsBox odd.now }
    ensures { result ≡ apart_by scale.now even.now odd.now span }
{
    meet_if(span, &meet(&allowed(scale), &between(even, odd)))
}

// They lie so far apart as no cycle is long.
fn limit_with(scale: &Scale, cycle: u32, node: NodeId, apart: &Interval) -> Fault
    requires apart { IsApart apart.now }
    ensures { result ≡ limit_with scale.now cycle node apart.now }
{
    Fault::Limit {
        cycle,
        node,
        apart: Range::of(apart),
        allowed: Range::of(&allowed(scale)),
    }
}

fn limit_by(
    scene: &Scene<'_>,
    node: NodeId,
    even: &Interval,
    odd: &Interval,
    span: Option<Interval>,
) -> Option<Fault>
    requires scene { IsScene scene.now }
    requires even { IsBox even.now }
    requires odd { IsBox odd.now }
    requires span { IfSome span IsSpan }
    ensures { result ≡ limit_fault scene.now.scale.now (2 * scene.now.number) node (Some even.now) (Some odd.now)
        span }
{
    if is_empty(even) || is_empty(odd) {
        None
    } else if is_empty(&apart_by(scene.scale, even, odd, span)) {
        let apart = seen_apart(even, odd, span);
        Some(limit_with(scene.scale, 2 * scene.number, node, &apart))
    } else {
        None
    }
}

fn limit_fault(
    scene: &Scene<'_>,
    node: NodeId,
    even: Option<Interval>,
    odd: Option<Interval>,
    span: Option<Interval>,
) -> Option<Fault>
    requires scene { IsScene scene.now }
    requires even { IfSome even IsBox }
    requires odd { IfSome odd IsBox }
    requires span { IfSome span IsSpan }
    ensures { result ≡ limit_fault scene.now.scale.now (2 * scene.now.number) node even odd span }
{
    match even {
        None => None,
        Some(even) => match odd {
            None => None,
            Some(odd) => limit_by(scene, node, &even, &odd, span),
        },
    }
}

// How much later its action point in the odd cycle lies than in the even one.
fn span_between(
    log: &Log,
    here: &[Sighting],
    double: DoubleNumber,
    node: NodeId,
) -> Option<Interval>
    requires here { AreLogStamps log.now here.now }
    ensures value { result ≡ seen_span log.now here.now here.now node (2 * double) (2 * double + 1) }
    ensures near { IfSome result IsSpan }
{
    let even = SeenCycle {
        number: 2 * double.0,
        seen: here,
    };
    let odd = SeenCycle {
        number: 2 * double.0 + 1,
        seen: here,
    };
    seen_span(log, node, &even, &odd)
}

// What contradicts any clock of a node in a double cycle.
#[tactic(auto, unfolding(crate::specs::Faults::clock_faults))]
fn put_clock<O: Sink>(
    scene: &Scene<'_>,
    node: NodeId,
    first: &mut Option<Fault>,
    out: &mut O,
) -> Result<(), PutFault>
    requires { IsScene scene.now }
    ensures { TellsFaults result (O.state out.old) (O.state out.new) first.old first.new
        (clock_faults scene.now.scale.now scene.now.log.now scene.now.here.now scene.now.number node) }
{
    let (log, here) = (scene.log, scene.here);
    let (even, odd) = (2 * scene.number, 2 * scene.number + 1);
    let at_even = seen_box(log, here, node, even);
    let at_odd = seen_box(log, here, node, odd);
    let span = span_between(log, here, DoubleNumber(scene.number), node);
    tell(box_fault(even, node, at_even), first, out)?;
    tell(box_fault(odd, node, at_odd), first, out)?;
    tell(limit_fault(scene, node, at_even, at_odd, span), first, out)
}

fn put_node<O: Sink>(
    scene: &Scene<'_>,
    node: &NodeSpec,
    first: &mut Option<Fault>,
    out: &mut O,
) -> Result<(), PutFault>
    requires { IsScene scene.now }
    ensures { TellsFaults result (O.state out.old) (O.state out.new) first.old first.new
        (node_faults scene.now.scale.now scene.now.log.now scene.now.here.now scene.now.number node.now) }
{
    if is_judged(scene.log, node) {
        put_clock(scene, node.id, first, out)
    } else {
        Ok(())
    }
}

// The same of all nodes.
fn put_clocks<O: Sink>(
    scene: &Scene<'_>,
    first: &mut Option<Fault>,
    out: &mut O,
) -> Result<(), PutFault>
    requires { IsScene scene.now }
    ensures { TellsFaults result (O.state out.old) (O.state out.new) first.old first.new
        (flat_map (node_faults scene.now.scale.now scene.now.log.now scene.now.here.now scene.now.number)
        scene.now.params.now.nodes) }
{
    for place in 0..scene.params.node_count() {
        put_node(scene, scene.params.node_at(place), first, out)?;
    }
    Ok(())
}

// A stamp of a log as a number that is printed.
pub(crate) fn stamp_number(log: &Log, stamp: u64) -> i64
    requires { log.now.unit * stamp ≤ last_stamp }
    ensures { result ≡ pos stamp }
{
    let _unit = log.unit();
    stamp as i64
}

// Keeps a sighting that is the first one of its node on its channel in its cycle, if it has room.
#[tactic(auto, using(crate::proofs::Firsts::firsts_more))]
fn keep_first(firsts: &mut FirstList, here: &[Sighting], sighting: &Sighting, stamp: u64)
    requires firsts { All (IsFirst here.now) firsts.old }
    requires stamp { first_stamp here.now sighting.now.node sighting.now.channel sighting.now.number ≡ Some stamp }
    ensures { All (IsFirst here.now) firsts.new }
{
    if stamp == sighting.stamp && firsts.has_room() {
        firsts.push(*sighting);
    }
}

// The stamp of the first frame that is sent with a sighting, by a search of all: what is found is kept.
fn searched(firsts: &mut FirstList, here: &[Sighting], sighting: &Sighting) -> Option<u64>
    requires { All (IsFirst here.now) firsts.old }
    ensures value { result ≡ first_stamp here.now sighting.now.node sighting.now.channel sighting.now.number }
    ensures firsts { All (IsFirst here.now) firsts.new }
{
    match first_stamp(here, sighting.node, sighting.channel, sighting.number) {
        None => None,
        Some(stamp) => {
            keep_first(firsts, here, sighting, stamp);
            Some(stamp)
        }
    }
}

// The same by those that were kept, so that all are searched only once for each node, channel and cycle.
#[tactic(auto, using(crate::proofs::Firsts::firsts_say))]
fn first_beside(firsts: &mut FirstList, here: &[Sighting], sighting: &Sighting) -> Option<u64>
    requires { All (IsFirst here.now) firsts.old }
    ensures value { result ≡ first_stamp here.now sighting.now.node sighting.now.channel sighting.now.number }
    ensures firsts { All (IsFirst here.now) firsts.new }
{
    match first_stamp(
        firsts.as_slice(),
        sighting.node,
        sighting.channel,
        sighting.number,
    ) {
        None => searched(firsts, here, sighting),
        Some(stamp) => Some(stamp),
    }
}

// The same, which lies within the limits of the log.
fn timed_beside(
    log: &Log,
    firsts: &mut FirstList,
    here: &[Sighting],
    sighting: &Sighting,
) -> Option<u64>
    requires here { AreLogStamps log.now here.now }
    requires firsts { All (IsFirst here.now) firsts.old }
    ensures value { result ≡ first_stamp here.now sighting.now.node sighting.now.channel sighting.now.number }
    ensures firsts { All (IsFirst here.now) firsts.new }
    ensures timed { IfSome result (λ stamp. log.now.unit * stamp ≤ last_stamp) }
{
    first_beside(firsts, here, sighting)
}

fn twice_by(log: &Log, sighting: &Sighting, first: u64) -> Option<Fault>
    requires stamp { log.now.unit * sighting.now.stamp ≤ last_stamp }
    requires first { log.now.unit * first ≤ last_stamp }
    ensures { result ≡ twice_by sighting.now (Some first) }
{
    if first == sighting.stamp {
        None
    } else {
        Some(Fault::Twice {
            cycle: sighting.number,
            node: sighting.node,
            channel: sighting.channel,
            stamp: stamp_number(log, sighting.stamp),
            first: stamp_number(log, first),
        })
    }
}

// A frame is there twice, with two stamps.
fn twice_fault(
    log: &Log,
    firsts: &mut FirstList,
    here: &[Sighting],
    sighting: &Sighting,
) -> Option<Fault>
    requires here { AreLogStamps log.now here.now }
    requires firsts { All (IsFirst here.now) firsts.old }
    requires stamp { log.now.unit * sighting.now.stamp ≤ last_stamp }
    ensures value { result ≡ twice_fault here.now sighting.now }
    ensures firsts { All (IsFirst here.now) firsts.new }
{
    match timed_beside(log, firsts, here, sighting) {
        None => None,
        Some(first) => twice_by(log, sighting, first),
    }
}

fn put_twice<O: Sink>(
    log: &Log,
    here: &[Sighting],
    first: &mut Option<Fault>,
    out: &mut O,
) -> Result<(), PutFault>
    requires { AreLogStamps log.now here.now }
    ensures { TellsFaults result (O.state out.old) (O.state out.new) first.old first.new
        (filter_map (twice_fault here.now) here.now) }
{
    let mut firsts = FirstList::new();
    for sighting in here {
        tell(twice_fault(log, &mut firsts, here, sighting), first, out)?;
    }
    Ok(())
}

// A frame comes at another time than its cycle count says.
fn cycle_fault(log: &Log, sighting: &Sighting) -> Fault
    requires { log.now.unit * sighting.now.stamp ≤ last_stamp }
    ensures { result ≡ cycle_fault sighting.now }
{
    Fault::Cycle {
        cycle: sighting.number,
        node: sighting.node,
        channel: sighting.channel,
        stamp: stamp_number(log, sighting.stamp),
        count: sighting.count,
    }
}

fn put_late<O: Sink>(
    log: &Log,
    late: &[Sighting],
    first: &mut Option<Fault>,
    out: &mut O,
) -> Result<(), PutFault>
    requires { AreLogStamps log.now late.now }
    ensures { TellsFaults result (O.state out.old) (O.state out.new) first.old first.new (map cycle_fault late.now) }
{
    for sighting in late {
        tell_one(&cycle_fault(log, sighting), first, out)?;
    }
    Ok(())
}

/// Tells what in a double cycle contradicts any run of which the log is seen; `late` are its untimely frames. A line for
/// each, and the first one of all that were told is kept.
#[tactic(auto, unfolding(crate::specs::Faults::own_faults))]
pub fn put_own_faults<O: Sink>(
    scene: &Scene<'_>,
    late: &[Sighting],
    first: &mut Option<Fault>,
    out: &mut O,
) -> Result<(), PutFault>
    requires scene { IsScene scene.now }
    requires late { AreLogStamps scene.now.log.now late.now }
    ensures { TellsFaults result (O.state out.old) (O.state out.new) first.old first.new
        (own_faults scene.now.params.now scene.now.scale.now scene.now.log.now scene.now.here.now late.now
        scene.now.number scene.now.senders.now) }
{
    put_clocks(scene, first, out)?;
    put_of_senders(Asked::Correction, scene, first, out)?;
    put_twice(scene.log, scene.here, first, out)?;
    put_late(scene.log, late, first, out)
}
