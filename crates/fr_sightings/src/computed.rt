ghost use Rattle.std.specs.Prelude.{◌≡◌, ◌≤◌, ◌∷◌, pos, All, IfSome, length, map};
ghost use Rattle.std.specs.List.{Contains};
ghost use Rattle.fr_course.specs.Computed.{offset_computed, own_value, rate_computed};
ghost use Rattle.fr_course.specs.Near.{HasUndamped, HasValues, IsNearCourse};
ghost use Rattle.fr_sightings.specs.Computing.{heard_courses, value_seen};
ghost use Rattle.fr_sightings.specs.Ranges.{IsProperSender};

use crate::interval_list::IntervalList;
use crate::sender::Sender;
use fr_course::{
    Course, Interval, Measuring, Scale, deviation_seen, middle, rate_value_seen, undamped,
};

// What a receiver measures of a sender.
#[derive(Clone, Copy)]
pub(crate) enum Measured {
    Deviation,
    RateValue,
}

/// How what a sender received in a double cycle may differ from what the log shows.
#[derive(Clone, Copy)]
pub struct Reception {
    /// How many nodes it heard at most beside the senders.
    pub further: usize,
    /// How many of the senders it missed at most.
    pub lost: usize,
}

/// Which offset terms a sender must have computed in a double cycle (sections 8.6.1 and 8.6.2), by its course, those of
/// the other senders, and by how its reception may differ; in microticks, none without limits.
pub fn offset_computed(
    scale: &Scale,
    measuring: &Measuring,
    senders: &[Sender],
    sender: &Sender,
    reception: Reception,
) -> Option<Interval>
    requires few { length senders.now ≤ 64 }
    requires senders { All (IsProperSender scale.now) senders.now }
    requires among { Contains senders.now sender.now }
    requires sender { IsProperSender scale.now sender.now }
    requires further { reception.further ≤ 64 }
    requires lost { reception.lost ≤ 64 }
    ensures value { result ≡ offset_computed scale.now measuring.now sender.now.course
        (heard_courses senders.now sender.now.node) reception.further reception.lost }
    ensures near { IfSome result HasValues }
{
    let known = values_seen(Measured::Deviation, scale, measuring, senders, sender);
    middle(reception.further, reception.lost, known.as_slice())
}

/// By how much its rate term must have grown (sections 8.6.1 and 8.6.3); in microticks, none without limits.
pub fn rate_computed(
    scale: &Scale,
    measuring: &Measuring,
    senders: &[Sender],
    sender: &Sender,
    reception: Reception,
) -> Option<Interval>
    requires few { length senders.now ≤ 64 }
    requires senders { All (IsProperSender scale.now) senders.now }
    requires among { Contains senders.now sender.now }
    requires sender { IsProperSender scale.now sender.now }
    requires further { reception.further ≤ 64 }
    requires lost { reception.lost ≤ 64 }
    ensures value { result ≡ rate_computed scale.now measuring.now sender.now.course
        (heard_courses senders.now sender.now.node) reception.further reception.lost }
    ensures near { IfSome result HasUndamped }
{
    let known = values_seen(Measured::RateValue, scale, measuring, senders, sender);
    undamped(
        measuring,
        middle(reception.further, reception.lost, known.as_slice()),
    )
}

// The values of a sender: its own one, and one of each other sender.
fn values_seen(
    measured: Measured,
    scale: &Scale,
    measuring: &Measuring,
    senders: &[Sender],
    sender: &Sender,
) -> IntervalList
    requires few { length senders.now ≤ 64 }
    requires senders { All (IsProperSender scale.now) senders.now }
    requires sender { IsProperSender scale.now sender.now }
    ensures value { result ≡
        own_value ∷ map (value_seen measured scale.now measuring.now sender.now.course)
        (heard_courses senders.now sender.now.node) }
    ensures near { All HasValues result }
{
    let mut known = IntervalList::new();
    known.push(Interval { low: 0, high: 0 });
    for other in senders {
        if other.node != sender.node {
            known.push(value_seen(measured, scale, measuring, &sender.course, &other.course));
        }
    }
    known
}

// A value of a receiver of a sender.
fn value_seen(
    measured: Measured,
    scale: &Scale,
    measuring: &Measuring,
    receiver: &Course,
    sender: &Course,
) -> Interval
    requires receiver { IsNearCourse scale.now receiver.now }
    requires sender { IsNearCourse scale.now sender.now }
    ensures value { result ≡ value_seen measured scale.now measuring.now receiver.now sender.now }
    ensures near { HasValues result }
{
    match measured {
        Measured::Deviation => deviation_seen(scale, measuring, receiver, sender),
        Measured::RateValue => rate_value_seen(scale, measuring, receiver, sender),
    }
}
