ghost use Rattle.std.specs.Prelude.{◌≡◌, ◌≤◌, ◌<◌, ◌+◌, ◌*◌, ◌++◌, ℤ, pos, All, IfSome, Some, length, slice_get};
ghost use Rattle.std.specs.Option.{option_to_list};
ghost use Rattle.arrayvec.specs.ArrayVec.{array_vec_len};
ghost use Rattle.fr_base.specs.Within.{IsBetween};
ghost use Rattle.fr_cluster.specs.Values.{amount};
ghost use Rattle.fr_cluster.specs.declared.names.ParamName.TheVariants as name;
ghost use Rattle.fr_course.specs.Course.{course_from};
ghost use Rattle.fr_course.specs.Near.{IsBox, IsSpan};
ghost use Rattle.fr_course.specs.declared.scales.Scale.{Scale as Measure};
ghost use Rattle.fr_time.specs.Slots.{action_point_of};
ghost use Rattle.fr_sightings.specs.Ranges.{AreLogStamps, HasStaticKey, IsCourseAt, IsProperSender, IsScaleOf};
ghost use Rattle.fr_sightings.specs.Senders.{course_in, if_there, own_slot, seen_sender_by, seen_sender, seen_senders, seen_span};
ghost use Rattle.fr_bound.specs.DoubleNumbers.{too_many_doubles};

use crate::intervals::{SeenCycle, seen_box, seen_span};
use crate::sender::Sender;
use crate::sighting::Sighting;
use arrayvec::ArrayVec;
use fr_base::{NodeId, ROW_ROOM, Slot};
use fr_bound::DoubleNumber;
use fr_cluster::{NodeSpec, Params};
use fr_course::{Course, Interval, Scale, course_from, is_there};
use fr_log::Log;
use fr_time::action_point;

/// A cluster and a log of it: its numbers as readings of the clock of the log, its parameters, and the log.
#[derive(Clone, Copy)]
pub struct Observed<'a> {
    pub scale: &'a Scale,
    pub params: &'a Params,
    pub log: &'a Log,
    ghost of_cluster: { IsScaleOf params.now scale.now },
}

/// A node and the slot in which it sends sync frames.
#[derive(Clone, Copy)]
struct KeySlot {
    node: NodeId,
    slot: Slot,
}

// The course of a node that sends at a macrotick.
fn course_by(
    scale: &Scale,
    action: i128,
    even: Option<Interval>,
    odd: Option<Interval>,
    span: Option<Interval>,
) -> Option<Course>
    requires action { IsBetween (pos 0) scale.now.correction action }
    requires even { IfSome even IsBox }
    requires odd { IfSome odd IsBox }
    requires span { IfSome span IsSpan }
    ensures value { result ≡ course_from scale.now action even odd span }
    ensures proper { IfSome result (IsCourseAt scale.now action) }
{
    course_from(scale, action, even, odd, span)
}

// The macrotick at which a node sends in a slot.
fn action_in(scale: &Scale, params: &Params, slot: Slot) -> i128
    requires scale { IsScaleOf params.now scale.now }
    requires slot { slot ≤ amount params.now name.gNumberOfStaticSlots }
    ensures value { result ≡ pos (action_point_of params.now slot) }
    ensures within { IsBetween (pos 0) scale.now.correction result }
{
    i128::from(action_point(params, slot))
}

// The course of a node by its key slot and the sightings of a double cycle.
#[tactic(auto, unfolding(crate::specs::Senders::course_in))]
fn course_in(
    observed: &Observed<'_>,
    seen: &[Sighting],
    double: u32,
    key: &KeySlot,
) -> Option<Course>
    requires seen { AreLogStamps observed.now.log.now seen.now }
    requires double { double ≤ too_many_doubles }
    requires slot { key.now.slot ≤ amount observed.now.params.now name.gNumberOfStaticSlots }
    ensures value { result ≡ course_in observed.now.scale.now observed.now.params.now observed.now.log.now seen.now
        double key.now.node key.now.slot }
    ensures proper { IfSome result
        (IsCourseAt observed.now.scale.now (pos (action_point_of observed.now.params.now key.now.slot))) }
{
    let (even, odd) = (2 * double, 2 * double + 1);
    course_by(
        observed.scale,
        action_in(observed.scale, observed.params, key.slot),
        seen_box(observed.log, seen, key.node, even),
        seen_box(observed.log, seen, key.node, odd),
        seen_span(
            observed.log,
            key.node,
            &SeenCycle { number: even, seen },
            &SeenCycle { number: odd, seen },
        ),
    )
}

fn if_there(course: Option<Course>) -> Option<Course>
    ensures value { result ≡ if_there course }
    ensures proper { (scale : Measure) (action : ℤ) → IfSome course (IsCourseAt scale action) →
        IfSome result (IsCourseAt scale action) }
{
    match course {
        None => None,
        Some(course) => {
            if is_there(&course) {
                Some(course)
            } else {
                None
            }
        }
    }
}

// That course, where something lies in each of its intervals.
fn known_course(
    observed: &Observed<'_>,
    seen: &[Sighting],
    double: u32,
    key: &KeySlot,
) -> Option<Course>
    requires seen { AreLogStamps observed.now.log.now seen.now }
    requires double { double ≤ too_many_doubles }
    requires slot { key.now.slot ≤ amount observed.now.params.now name.gNumberOfStaticSlots }
    ensures value { result ≡ if_there (course_in observed.now.scale.now observed.now.params.now observed.now.log.now
        seen.now double key.now.node key.now.slot) }
    ensures proper { IfSome result
        (IsCourseAt observed.now.scale.now (pos (action_point_of observed.now.params.now key.now.slot))) }
{
    if_there(course_in(observed, seen, double, key))
}

// How far the action point of a node in the next even cycle lies behind that in the odd one.
fn onward_span(
    log: &Log,
    here: &[Sighting],
    next: &[Sighting],
    double: DoubleNumber,
    node: NodeId,
) -> Option<Interval>
    requires here { AreLogStamps log.now here.now }
    requires next { AreLogStamps log.now next.now }
    ensures value { result ≡ seen_span log.now here.now next.now node (2 * double + 1) (2 * double + 2) }
    ensures near { IfSome result IsSpan }
{
    let odd = SeenCycle {
        number: 2 * double.0 + 1,
        seen: here,
    };
    let even = SeenCycle {
        number: 2 * double.0 + 2,
        seen: next,
    };
    seen_span(log, node, &odd, &even)
}

// A node by its key slot, if it has a course in a double cycle.
fn seen_sender_by(
    observed: &Observed<'_>,
    here: &[Sighting],
    next: &[Sighting],
    double: DoubleNumber,
    key: &KeySlot,
) -> Option<Sender>
    requires here { AreLogStamps observed.now.log.now here.now }
    requires next { AreLogStamps observed.now.log.now next.now }
    requires slot { key.now.slot ≤ amount observed.now.params.now name.gNumberOfStaticSlots }
    ensures value { result ≡ seen_sender_by observed.now.scale.now observed.now.params.now observed.now.log.now
        here.now next.now double key.now.node key.now.slot }
    ensures proper { IfSome result (IsProperSender observed.now.scale.now) }
{
    match known_course(observed, here, double.0, key) {
        None => None,
        Some(course) => Some(Sender {
            node: key.node,
            course,
            next: known_course(observed, next, double.0 + 1, key),
            onward: onward_span(observed.log, here, next, double, key.node),
        }),
    }
}

// The slot in which a correct node sends sync frames.
fn own_slot(log: &Log, node: &NodeSpec) -> Option<Slot>
    ensures { result ≡ own_slot log.now node.now }
{
    if log.is_arbitrary(node.id) {
        None
    } else {
        node.key
    }
}

// A node, if it is a sender of a double cycle.
#[tactic(auto, unfolding(crate::specs::Senders::seen_sender))]
fn seen_sender(
    observed: &Observed<'_>,
    here: &[Sighting],
    next: &[Sighting],
    double: DoubleNumber,
    node: &NodeSpec,
) -> Option<Sender>
    requires here { AreLogStamps observed.now.log.now here.now }
    requires next { AreLogStamps observed.now.log.now next.now }
    requires node { HasStaticKey observed.now.params.now node.now }
    ensures value { result ≡ seen_sender observed.now.scale.now observed.now.params.now observed.now.log.now here.now
        next.now double node.now }
    ensures proper { IfSome result (IsProperSender observed.now.scale.now) }
{
    match own_slot(observed.log, node) {
        None => None,
        Some(slot) => {
            let node = node.id;
            seen_sender_by(observed, here, next, double, &KeySlot { node, slot })
        }
    }
}

// The node at a place; its key slot is a static one.
fn static_node(params: &Params, place: usize) -> &NodeSpec
    requires { place < length params.now.nodes }
    ensures value { slice_get params.now.nodes place ≡ Some result.now }
    ensures key { HasStaticKey params.now result.now }
{
    params.nodes.node_at(place)
}

fn keep(sender: Option<Sender>, senders: &mut ArrayVec<Sender, ROW_ROOM>)
    requires { array_vec_len senders.old < 64 }
    ensures { senders.new.items ≡ senders.old.items ++ option_to_list sender }
{
    if let Some(sender) = sender {
        senders.push(sender);
    }
}

/// The senders of a double cycle, by its sightings and those of the next one: each correct node with a key slot that
/// was seen in a cycle of it, in the order of the parameters, with its course there, in ticks of the observer's clock.
/// The number of the double cycle is that of the log.
#[tactic(auto, unfolding(crate::specs::Senders::seen_senders))]
pub fn seen_senders(
    observed: &Observed<'_>,
    here: &[Sighting],
    next: &[Sighting],
    double: DoubleNumber,
) -> ArrayVec<Sender, ROW_ROOM>
    requires here { AreLogStamps observed.now.log.now here.now }
    requires next { AreLogStamps observed.now.log.now next.now }
    ensures value { result.items ≡ seen_senders observed.now.scale.now observed.now.params.now observed.now.log.now
        here.now next.now double }
    ensures proper { All (IsProperSender observed.now.scale.now) result.items }
{
    let mut senders = ArrayVec::new();
    for place in 0..observed.params.node_count() {
        let node = static_node(observed.params, place);
        keep(
            seen_sender(observed, here, next, double, node),
            &mut senders,
        );
    }
    senders
}
