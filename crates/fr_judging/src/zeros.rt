ghost use Rattle.std.specs.Prelude.{◌≡◌, ◌==◌, ◌+ℤ◌, ◌-ℤ◌, ◌*ℤ◌, ◌≤ℤ◌, pos, not, true, IfSome};
ghost use Rattle.fr_base.specs.Within.{IsWithin};
ghost use Rattle.fr_course.specs.Course.{between, odd_macrotick};
ghost use Rattle.fr_course.specs.Computed.{measuring_of};
ghost use Rattle.fr_course.specs.Near.{IsApart, IsNearCourse, IsPoint, IsSeenLength};
ghost use Rattle.fr_sightings.specs.Ranges.{IsProperSender};
ghost use Rattle.fr_observe.specs.Faults.{stated_flutter};
ghost use Rattle.fr_observe.specs.Scenes.{IsScene};
ghost use Rattle.fr_judging.specs.Zeros.{MayMeet, OthersMayBeZero, MayBeZero, seen_for, value_for};
ghost use Rattle.fr_course.specs.Ranges.{greatest_length};
ghost use Rattle.fr_judging.specs.Ranges.{greatest_room};

use fr_course::{Course, Interval, Measuring, Scale, between};
use fr_observe::{Scene, Term, stated_flutter, step_of, terms_of};
use fr_sightings::Sender;

// Whether 0 lies in an interval.
fn may_be_0(interval: &Interval) -> bool
    ensures { result ≡ true → MayBeZero interval.now }
{
    interval.low <= 0 && 0 <= interval.high
}

// Whether it lies in one that may be without limits.
fn may_be_0_if(seen: Option<Interval>) -> bool
    ensures { result ≡ true → IfSome seen MayBeZero }
{
    match seen {
        None => true,
        Some(seen) => may_be_0(&seen),
    }
}

// Whether a term of a sender may be 0 by what is seen of it.
fn seen_may_be_0(what: Term, scale: &Scale, sender: &Sender) -> bool
    requires sender { IsProperSender scale.now sender.now }
    ensures { result ≡ true → IfSome (seen_for what scale.now sender.now) MayBeZero }
{
    match what {
        Term::Offset => may_be_0_if(terms_of(scale, sender)),
        Term::Rate => may_be_0_if(step_of(scale, sender)),
    }
}

// Whether the action points of a sender may lie as far apart as a receiver's cycle is long: no quotient is needed for that.
fn apart_may_be_0(receiver: &Course, sender: &Course) -> bool
    requires receiver { IsSeenLength receiver.now.length }
    requires sender { IsApart sender.now.apart }
    ensures { result ≡ true → MayBeZero (between receiver.now.length sender.now.apart) }
{
    may_be_0(&between(&receiver.length, &sender.apart))
}

// A number of macroticks times a number of readings.
fn times(macroticks: i128, readings: i128) -> i128
    requires macroticks { IsWithin (pos 16_000) macroticks }
    requires readings { IsWithin greatest_room readings }
    ensures { result ≡ macroticks *ℤ readings }
{
    macroticks * readings
}

// How much a macrotick of the receiver can lie behind its action point, at most, so that it lies before the sender's.
fn room_before(scale: &Scale, receiver: &Interval, sender: &Interval) -> i128
    requires receiver { IsPoint receiver.now }
    requires sender { IsPoint sender.now }
    ensures value { result ≡ (sender.now.high -ℤ receiver.now.low) +ℤ scale.now.micro_to }
    ensures within { IsWithin greatest_room result }
{
    let micro = scale.micro_to;
    sender.high - receiver.low + micro
}

// And at least, so that it lies behind it.
fn room_behind(scale: &Scale, receiver: &Interval, sender: &Interval) -> i128
    requires receiver { IsPoint receiver.now }
    requires sender { IsPoint sender.now }
    ensures value { result ≡ (sender.now.low -ℤ receiver.now.high) -ℤ scale.now.micro_to }
    ensures within { IsWithin greatest_room result }
{
    let micro = scale.micro_to;
    sender.low - receiver.high - micro
}

// Whether so many macroticks of cycles of a length can take no more than so long: no quotient is needed for that.
fn take_at_most(scale: &Scale, macroticks: i128, length: i128, most: i128) -> bool
    requires macroticks { IsWithin (pos 16_000) macroticks }
    requires length { IsWithin greatest_length length }
    requires most { IsWithin greatest_room most }
    ensures { result ≡ true → (macroticks *ℤ length) ≤ℤ (scale.now.macros *ℤ most) }
{
    times(macroticks, length) <= times(scale.macros, most)
}

// And no less.
fn take_at_least(scale: &Scale, macroticks: i128, length: i128, least: i128) -> bool
    requires macroticks { IsWithin (pos 16_000) macroticks }
    requires length { IsWithin greatest_length length }
    requires least { IsWithin greatest_room least }
    ensures { result ≡ true → (scale.now.macros *ℤ least) ≤ℤ (macroticks *ℤ length) }
{
    times(scale.macros, least) <= times(macroticks, length)
}

// Whether a macrotick, so many ahead of the receiver's action point in cycles from the one length to the other, may lie where the
// sender's action point does.
fn has_room(
    scale: &Scale,
    receiver: &Interval,
    sender: &Interval,
    ahead: i128,
    lengths: &Interval,
) -> bool
    requires receiver { IsPoint receiver.now }
    requires sender { IsPoint sender.now }
    requires ahead { IsWithin (pos 16_000) ahead }
    requires lengths { IsSeenLength lengths.now }
    ensures { result ≡ true → MayMeet scale.now receiver.now sender.now ahead lengths.now }
{
    take_at_most(
        scale,
        ahead,
        lengths.low,
        room_before(scale, receiver, sender),
    ) && take_at_least(
        scale,
        ahead,
        lengths.high,
        room_behind(scale, receiver, sender),
    )
}

// The ends exchanged.
fn turned(lengths: &Interval) -> Interval
    requires { IsSeenLength lengths.now }
    ensures low { result.low ≡ lengths.now.high }
    ensures high { result.high ≡ lengths.now.low }
    ensures near { IsSeenLength result }
{
    Interval {
        low: lengths.high,
        high: lengths.low,
    }
}

// How many macroticks the action point of a sender is ahead.
fn ahead_of(scale: &Scale, receiver: &Course, sender: &Course) -> i128
    requires receiver { IsNearCourse scale.now receiver.now }
    requires sender { IsNearCourse scale.now sender.now }
    ensures value { result ≡ sender.now.action -ℤ receiver.now.action }
    ensures within { IsWithin (pos 16_000) result }
{
    let _of_cycle = scale.macros;
    sender.action - receiver.action
}

// Whether the receiver's macrotick of the sender's action point may lie where that does.
fn deviation_may_be_0(scale: &Scale, receiver: &Course, sender: &Course) -> bool
    requires receiver { IsNearCourse scale.now receiver.now }
    requires sender { IsNearCourse scale.now sender.now }
    ensures { result ≡ true →
        MayBeZero (between (odd_macrotick scale.now receiver.now sender.now.action) sender.now.odd) }
{
    let _of_cycle = scale.macros;
    let ahead = ahead_of(scale, receiver, sender);
    if ahead >= 0 {
        has_room(scale, &receiver.odd, &sender.odd, ahead, &receiver.length)
    } else {
        has_room(
            scale,
            &receiver.odd,
            &sender.odd,
            ahead,
            &turned(&receiver.length),
        )
    }
}

// Whether the value that a receiver has of a sender may be 0.
fn value_may_be_0(
    what: Term,
    scale: &Scale,
    measuring: &Measuring,
    receiver: &Course,
    sender: &Course,
) -> bool
    requires receiver { IsNearCourse scale.now receiver.now }
    requires sender { IsNearCourse scale.now sender.now }
    ensures { result ≡ true → MayBeZero (value_for what scale.now measuring.now receiver.now sender.now) }
{
    let _of_clock = scale.drift;
    let _of_microtick = measuring.shortest;
    match what {
        Term::Offset => deviation_may_be_0(scale, receiver, sender),
        Term::Rate => apart_may_be_0(receiver, sender),
    }
}

// The same, where the sender is another one.
fn other_may_be_0(
    what: Term,
    scale: &Scale,
    measuring: &Measuring,
    sender: &Sender,
    other: &Sender,
) -> bool
    requires sender { IsProperSender scale.now sender.now }
    requires other { IsProperSender scale.now other.now }
    ensures { result ≡ true → not (other.now.node == sender.now.node) ≡ true →
        MayBeZero (value_for what scale.now measuring.now sender.now.course other.now.course) }
{
    if other.node == sender.node {
        true
    } else {
        value_may_be_0(what, scale, measuring, &sender.course, &other.course)
    }
}

// Whether all values that a sender has of the others may be 0.
fn others_may_be_0(what: Term, scene: &Scene<'_>, sender: &Sender) -> bool
    requires scene { IsScene scene.now }
    requires sender { IsProperSender scene.now.scale.now sender.now }
    ensures { result ≡ true → OthersMayBeZero what scene.now.scale.now
        (measuring_of scene.now.params.now (stated_flutter scene.now.params.now scene.now.log.now)) sender.now
        scene.now.senders.now }
{
    let measuring = Measuring::of(scene.params, stated_flutter(scene.params, scene.log));
    for other in scene.senders {
        if !other_may_be_0(what, scene.scale, &measuring, sender, other) {
            return false;
        }
    }
    true
}

/// Whether a term of a sender may be 0, and so may all values that it has of the others: then nothing contradicts the term.
pub(crate) fn term_may_be_0(what: Term, scene: &Scene<'_>, sender: &Sender) -> bool
    requires scene { IsScene scene.now }
    requires sender { IsProperSender scene.now.scale.now sender.now }
    ensures seen { result ≡ true → IfSome (seen_for what scene.now.scale.now sender.now) MayBeZero }
    ensures others { result ≡ true → OthersMayBeZero what scene.now.scale.now
        (measuring_of scene.now.params.now (stated_flutter scene.now.params.now scene.now.log.now)) sender.now
        scene.now.senders.now }
{
    seen_may_be_0(what, scene.scale, sender) && others_may_be_0(what, scene, sender)
}
