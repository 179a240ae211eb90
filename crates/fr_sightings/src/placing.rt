ghost use Rattle.std.specs.Prelude.{◌≡◌, ◌*◌, ◌≤◌, ◌-ℤ◌, IfSome, int_lt, nat_abs, neg_ℤ, pos, true};
ghost use Rattle.std.specs.Option.{option_copied};
ghost use Rattle.fr_base.specs.Within.{IsBetween, IsWithin};
ghost use Rattle.fr_cluster.specs.Sane.{IsSane};
ghost use Rattle.fr_cluster.specs.Values.{amount};
ghost use Rattle.fr_cluster.specs.declared.names.ParamName.TheVariants as name;
ghost use Rattle.fr_time.specs.Slots.{action_point_of};
ghost use Rattle.fr_log.specs.View.{IsEntry};
ghost use Rattle.fr_course.specs.Numbering.{is_timely, longest_silence};
ghost use Rattle.fr_sightings.specs.Judging.{IsIrregular, IsJudged};
ghost use Rattle.fr_sightings.specs.Sightings.{IsSighting, fate_of, keeps_order, fate_irregular, fate_irregular_behind, fate_judged, fate_behind, fate_timely, sighting_with, stamped_behind};
ghost use Rattle.fr_course.specs.Ranges.{greatest_stamp, IsStamp};

use crate::judging::{Judged, Judgement, judgement_of};
use crate::numbering::{is_timely, longest_silence, next_number};
use crate::sighting::{Fate, Sighting};
use fr_cluster::Params;
use fr_log::{Entry, Log};
use fr_time::action_point;

// What becomes of an entry behind the last sighting before it, if there is one.
#[tactic(auto, unfolding(crate::specs::Sightings::fate_of))]
pub(crate) fn fate_of(params: &Params, log: &Log, last: Option<&Sighting>, entry: &Entry) -> Fate
    requires last { IfSome (option_copied last) (IsSighting params.now log.now) }
    requires entry { IsEntry log.now.unit entry.now }
    ensures { result ≡ fate_of params.now log.now (option_copied last.entry) entry.now }
{
    sane(params);
    match judgement_of(params, log, entry) {
        Judgement::Damaged => Fate::Damaged,
        Judgement::Arbitrary => Fate::Arbitrary,
        Judgement::Other => Fate::Other,
        Judgement::Irregular(judged) => fate_irregular(params, log, last, &judged),
        Judgement::Regular(judged) => fate_judged(params, log, last, &judged),
    }
}

// What becomes of a frame that its sender does not send.
fn fate_irregular(params: &Params, log: &Log, last: Option<&Sighting>, judged: &Judged) -> Fate
    requires last { IfSome (option_copied last) (IsSighting params.now log.now) }
    requires judged { IsIrregular log.now judged.now }
    ensures { result ≡ fate_irregular params.now log.now (option_copied last.entry) judged.now }
{
    match last {
        None => Fate::Other,
        Some(last) => fate_irregular_behind(params, log, last, judged),
    }
}

// What becomes of it behind a sighting.
fn fate_irregular_behind(params: &Params, log: &Log, last: &Sighting, judged: &Judged) -> Fate
    requires last { IsSighting params.now log.now last.now }
    requires judged { IsIrregular log.now judged.now }
    ensures { result ≡ fate_irregular_behind params.now log.now last.now judged.now }
{
    if is_silence(params, stamped_behind(log, last, judged)) {
        Fate::Behind
    } else {
        Fate::Irregular(sighting_with(last.number, judged))
    }
}

// What becomes of a judged frame.
fn fate_judged(params: &Params, log: &Log, last: Option<&Sighting>, judged: &Judged) -> Fate
    requires last { IfSome (option_copied last) (IsSighting params.now log.now) }
    requires judged { IsJudged params.now log.now judged.now }
    ensures { result ≡ fate_judged params.now log.now (option_copied last.entry) judged.now }
{
    match last {
        None => Fate::Seen(sighting_with(u32::from(judged.count), judged)),
        Some(last) => fate_behind(params, log, last, judged),
    }
}

// What becomes of it behind a sighting.
fn fate_behind(params: &Params, log: &Log, last: &Sighting, judged: &Judged) -> Fate
    requires last { IsSighting params.now log.now last.now }
    requires judged { IsJudged params.now log.now judged.now }
    ensures { result ≡ fate_behind params.now log.now last.now judged.now }
{
    let apart = stamped_behind(log, last, judged);
    if is_silence(params, apart) {
        return Fate::Behind;
    }
    let number = next_number(last.number, judged.count);
    if is_in_time(params, apart, number, last, judged) {
        fate_timely(last, number, judged)
    } else {
        Fate::Untimely(sighting_with(last.number, judged))
    }
}

// What becomes of it where it comes in time.
fn fate_timely(last: &Sighting, number: i64, judged: &Judged) -> Fate
    ensures { result ≡ fate_timely last.now number judged.now }
{
    if keeps_order(last, number) {
        Fate::Seen(sighting_with(cycle_of(number), judged))
    } else {
        Fate::Stray
    }
}

// How much later it is stamped, in ticks of the observer's clock.
fn stamped_behind(log: &Log, last: &Sighting, judged: &Judged) -> i64
    requires last { IsStamp log.now.unit last.now.stamp }
    requires judged { IsStamp log.now.unit judged.now.stamp }
    ensures value { result ≡ stamped_behind log.now last.now judged.now }
    ensures within { IsWithin (pos greatest_stamp) result }
{
    let unit = log.unit();
    (unit * judged.stamp) as i64 - (unit * last.stamp) as i64
}

// Whether that is a silence behind which nothing is judged.
fn is_silence(params: &Params, apart: i64) -> bool
    ensures { result ≡ int_lt (longest_silence params.now) apart }
{
    longest_silence(params) < apart
}

// Whether it comes when the schedule has its number.
fn is_in_time(params: &Params, apart: i64, number: i64, last: &Sighting, judged: &Judged) -> bool
    requires apart { IsWithin (pos greatest_stamp) apart }
    requires number { IsBetween (neg_ℤ (pos 32)) (pos 31) (number -ℤ pos last.now.number) }
    requires last { last.now.slot ≤ amount params.now name.gNumberOfStaticSlots }
    requires judged { judged.now.slot ≤ amount params.now name.gNumberOfStaticSlots }
    ensures { result ≡ is_timely params.now apart (number -ℤ pos last.now.number)
        (pos (action_point_of params.now judged.now.slot) -ℤ pos (action_point_of params.now last.now.slot)) }
{
    let macroticks = action_point(params, judged.slot) - action_point(params, last.slot);
    is_timely(params, apart, number - last.number as i64, macroticks)
}

// Whether a number is one of a cycle, and of no double cycle before that of a sighting.
fn keeps_order(last: &Sighting, number: i64) -> bool
    ensures value { result ≡ keeps_order last.now number }
    ensures cycle { result ≡ true → IsBetween (pos 0) (pos 199_999) number }
{
    if number < 0 || 199_999 < number {
        return false;
    }
    last.number / 2 <= cycle_of(number) / 2
}

fn cycle_of(number: i64) -> u32
    requires { IsBetween (pos 0) (pos 199_999) number }
    ensures { result ≡ nat_abs number }
{
    number as u32
}

fn sighting_with(number: u32, judged: &Judged) -> Sighting
    ensures { result ≡ sighting_with number judged.now }
{
    Sighting {
        number,
        node: judged.node,
        slot: judged.slot,
        channel: judged.channel,
        count: judged.count,
        stamp: judged.stamp,
    }
}

// What holds of all parameters: the borrow of a field opens their invariant.
pub(crate) fn sane(params: &Params)
    ensures { IsSane params.now }
{
    let _nodes = &params.nodes;
}
