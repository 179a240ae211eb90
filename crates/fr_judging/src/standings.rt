ghost use Rattle.std.specs.Prelude.{◌≡◌, ◌≤◌, ◌<◌, ◌-ℤ◌, ◌&&◌, pos, true, All, IfSome, Some, is_none, length};
ghost use Rattle.std.specs.Int.{int_max};
ghost use Rattle.fr_base.specs.Within.{IsWithin};
ghost use Rattle.fr_bound.specs.Greatest.{most_sharp_reach};
ghost use Rattle.fr_bound.specs.Judged.{IsSmall, all_but_first_hold, from_none};
ghost use Rattle.fr_bound.specs.Settling.{IsSettleCheck};
ghost use Rattle.fr_bound.specs.SharpChecks.{sharp_holds_of};
ghost use Rattle.fr_bound.specs.SharpSpreads.{sharply_near_in};
ghost use Rattle.fr_course.specs.Near.{EndWithin, IsInTicks};
ghost use Rattle.fr_sightings.specs.Ranges.{IsProperSender};
ghost use Rattle.fr_observe.specs.Faults.{stated_flutter};
ghost use Rattle.fr_judging.specs.Knowing.{JudgedBySmall, beyond_of, is_judged_by, is_stated_at, known_as_stated, known_by, known_next, known_next_by, known_seen, most_beyond, standing_of, standing_with, unfit, unjudged_by};
ghost use Rattle.fr_judging.specs.Obstacles.{first_unseen};
ghost use Rattle.fr_observe.specs.Scenes.{IsScene};
ghost use Rattle.fr_course.specs.Ranges.{greatest_cycle};
ghost use Rattle.fr_judging.specs.Ranges.{greatest_beyond};

use crate::hearing::{synced_with, unheard};
use crate::knowing::{Standing, judged_met};
use crate::obstacle::{Obstacle, ObstacleKind};
use crate::unseen::{faulty, first_unseen, of_several};
use fr_bound::{
    DoubleNumber, Flutter, Heard, Known, Spread, is_judged, known_after, met_with, near_by,
    sharp_side_within, shortest_microtick,
};
use fr_cluster::{ParamName, Params};
use fr_course::{Interval, Scale, length_ticks, lengths_apart, starts_apart};
use fr_log::Log;
use fr_observe::{Fault, Scene, courses_of, proper_lengths, stated_flutter};
use fr_sightings::Sender;

// ---- what is seen

// A number, or 0 for one below 0.
fn from_none(number: i128) -> u64
    requires { IsWithin greatest_beyond number }
    ensures { result ≡ from_none number }
{
    if number <= 0 { 0 } else { number as u64 }
}

// How far lengths of cycles may lie beyond a range, in ticks; below 0 where they lie inside.
fn outside(proper: &Interval, long: &Interval) -> i128
    requires proper { EndWithin greatest_cycle proper.now }
    requires long { IsInTicks long.now }
    ensures value { result ≡ int_max (proper.now.low -ℤ long.now.low) (long.now.high -ℤ proper.now.high) }
    ensures near { IsWithin greatest_beyond result }
{
    (proper.low - long.low).max(long.high - proper.high)
}

// How far those of a sender's cycles may lie beyond theirs.
fn beyond_of(params: &Params, scale: &Scale, sender: &Sender) -> i128
    requires sender { IsProperSender scale.now sender.now }
    ensures value { result ≡ beyond_of params.now scale.now sender.now }
    ensures near { IsWithin greatest_beyond result }
{
    outside(
        &proper_lengths(params),
        &length_ticks(scale, &sender.course),
    )
}

// Those of some senders.
fn most_beyond(params: &Params, scale: &Scale, senders: &[Sender]) -> u64
    requires senders { All (IsProperSender scale.now) senders.now }
    ensures { result ≡ most_beyond params.now scale.now senders.now }
{
    let mut most = 0;
    for sender in senders {
        most = most.max(from_none(beyond_of(params, scale, sender)));
    }
    most
}

// How far the starts, or the lengths, of their even cycles may lie apart, in ticks.
fn most_apart(apart: &Interval) -> u64
    requires { IsInTicks apart.now }
    ensures { result ≡ from_none apart.now.high }
{
    from_none(apart.high)
}

fn known_by(params: &Params, scale: &Scale, senders: &[Sender]) -> Known
    requires few { length senders.now ≤ 64 }
    requires senders { All (IsProperSender scale.now) senders.now }
    ensures { result ≡ known_by params.now scale.now senders.now }
{
    let courses = courses_of(scale, senders);
    let starts = most_apart(&starts_apart(scale, courses.as_slice()));
    let lengths = most_apart(&lengths_apart(scale, courses.as_slice()));
    Known {
        spread: Spread { starts, lengths },
        beyond: most_beyond(params, scale, senders),
    }
}

// What is seen of a double cycle that nothing contradicts, where all its nodes were seen.
#[tactic(auto, unfolding(crate::specs::Knowing::known_seen))]
fn known_seen(scene: &Scene<'_>, unseen: &Option<Obstacle>, told: &Option<Fault>) -> Option<Known>
    requires scene { IsScene scene.now }
    requires unseen { unseen.now ≡ first_unseen scene.now.log.now scene.now.here.now scene.now.number
        scene.now.params.now.nodes }
    ensures { result ≡ known_seen scene.now.params.now scene.now.scale.now scene.now.log.now scene.now.here.now
        scene.now.number scene.now.senders.now told.now }
{
    if told.is_none() && unseen.is_none() {
        Some(known_by(scene.params, scene.scale, scene.senders))
    } else {
        None
    }
}

// ---- whether it is judged

fn is_judged_by(params: &Params, log: &Log, met: Option<Known>) -> bool
    ensures value { result ≡ is_judged_by params.now log.now met }
    ensures small { result ≡ true → IfSome met IsSmall }
{
    match met {
        None => false,
        Some(met) => is_judged(params, stated_flutter(params, log), met),
    }
}

// Whether the log states that the cluster is in sync in a double cycle.
fn is_stated_at(since: Option<u32>, double: DoubleNumber) -> bool
    ensures { result ≡ is_stated_at since double }
{
    match since {
        None => false,
        Some(cycle) => cycle == 2 * double.0,
    }
}

// What is then known of that.
fn known_as_stated(params: &Params, log: &Log, heard: Heard, double: DoubleNumber) -> Option<Known>
    ensures { result ≡ known_as_stated params.now log.now heard double }
{
    if is_stated_at(log.since(), double) {
        Some(synced_with(params, log, heard))
    } else {
        None
    }
}

// A sharper check holds with a reach, in ticks.
fn holds(params: &Params, flutter: Flutter, reach: u64, number: u8) -> bool
    requires number { IsSettleCheck number }
    requires reach { reach ≤ most_sharp_reach }
    ensures { result ≡ sharp_holds_of number flutter reach params.now }
{
    sharp_side_within(params, flutter, reach, number).holds
}

// All but the first do.
fn checks_hold(params: &Params, flutter: Flutter, reach: u64) -> bool
    requires reach { reach ≤ most_sharp_reach }
    ensures { result ≡ all_but_first_hold flutter reach params.now }
{
    let rest = holds(params, flutter, reach, 4) && holds(params, flutter, reach, 5);
    holds(params, flutter, reach, 2) && holds(params, flutter, reach, 3) && rest
}

// They do with the reach of such a spread.
fn is_near(params: &Params, log: &Log, spread: Spread) -> bool
    ensures { result ≡ all_but_first_hold (stated_flutter params.now log.now) (sharply_near_in params.now spread)
        params.now }
{
    let limit = params.natural(ParamName::pOffsetCorrectionOut) * shortest_microtick(params);
    if spread.starts <= limit && spread.lengths <= limit {
        let reach = near_by(params, spread.starts, spread.lengths);
        checks_hold(params, stated_flutter(params, log), reach)
    } else {
        false
    }
}

fn unfit(params: &Params, log: &Log, double: DoubleNumber, met: Option<Known>) -> Option<Obstacle>
    ensures { result ≡ unfit params.now log.now double met }
{
    match met {
        None => None,
        Some(met) => {
            if is_near(params, log, met.spread) {
                of_several(ObstacleKind::Drift, double)
            } else {
                of_several(ObstacleKind::Reach, double)
            }
        }
    }
}

// What keeps it from that: what of it is hidden, or its numbers.
fn unjudged_by(
    is_judged: bool,
    scene: &Scene<'_>,
    hidden: &Option<Obstacle>,
    met: Option<Known>,
) -> Option<Obstacle>
    requires scene { IsScene scene.now }
    ensures { result ≡
        unjudged_by is_judged scene.now.params.now scene.now.log.now scene.now.number hidden.now met }
{
    if is_judged {
        None
    } else {
        let own = unfit(scene.params, scene.log, DoubleNumber(scene.number), met);
        Obstacle::earlier(hidden, own)
    }
}

fn standing_with(
    scene: &Scene<'_>,
    heard: Heard,
    hidden: &Option<Obstacle>,
    known: Option<Known>,
    met: Option<Known>,
) -> Standing
    requires scene { IsScene scene.now }
    ensures value { result ≡
        standing_with scene.now.params.now scene.now.log.now scene.now.number heard hidden.now known met }
    ensures small { JudgedBySmall result }
{
    let is_judged = is_judged_by(scene.params, scene.log, met);
    Standing {
        heard: Some(heard),
        known,
        met,
        is_judged,
        obstacle: unjudged_by(is_judged, scene, hidden, met),
    }
}

/// How a double cycle stands, by what its nodes hear of each other, by what is known of it from the one before and by what the log
/// states, and by what is seen of it, where this is the first fault in it that contradicts any run. Where it is not told what is
/// heard, nothing is known of it and it is not judged.
#[tactic(auto, unfolding(crate::specs::Knowing::standing_of))]
pub fn standing(
    scene: &Scene<'_>,
    heard: Option<Heard>,
    known: Option<Known>,
    told: Option<Fault>,
) -> Standing
    requires scene { IsScene scene.now }
    ensures value { result ≡ standing_of scene.now.params.now scene.now.scale.now scene.now.log.now scene.now.here.now
        scene.now.number scene.now.senders.now heard known told }
    ensures small { JudgedBySmall result }
{
    match heard {
        None => Standing {
            heard: None,
            known: None,
            met: None,
            is_judged: false,
            obstacle: Some(unheard(scene.params, scene.log)),
        },
        Some(what) => {
            let number = DoubleNumber(scene.number);
            let unseen = first_unseen(scene.params, scene.log, scene.here, number);
            let stated = known_as_stated(scene.params, scene.log, what, number);
            let known = met_with(known, stated);
            let met = met_with(known, known_seen(scene, &unseen, &told));
            let hidden = Obstacle::earlier(&unseen, faulty(told));
            standing_with(scene, what, &hidden, known, met)
        }
    }
}

fn known_next_by(
    params: &Params,
    log: &Log,
    heard: Option<Heard>,
    judged: Option<Known>,
) -> Option<Known>
    requires small { IfSome judged IsSmall }
    ensures { result ≡ known_next_by params.now log.now heard judged }
{
    match heard {
        None => None,
        Some(what) => match judged {
            None => None,
            Some(met) => Some(known_after(params, what, stated_flutter(params, log), met)),
        },
    }
}

/// What is known of the next double cycle behind one that stands so, where it is clear: neither its skews nor its starts and
/// lengths contradict its numbers. None behind one that is not judged.
#[tactic(auto, unfolding(crate::specs::Knowing::known_next))]
pub fn known_next(params: &Params, log: &Log, standing: &Standing, is_clear: bool) -> Option<Known>
    requires small { JudgedBySmall standing.now }
    ensures { result ≡ known_next params.now log.now standing.now is_clear }
{
    if is_clear {
        known_next_by(params, log, standing.heard, judged_met(standing))
    } else {
        None
    }
}
