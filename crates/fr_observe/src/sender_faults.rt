ghost use Rattle.std.specs.Prelude.{◌≡◌, ◌≤◌, ◌<◌, ◌||◌, ◌+ℤ◌, ◌-ℤ◌, Some, IfSome, filter_map, int_lt, length, neg_ℤ, pos};
ghost use Rattle.std.specs.List.{Contains};
ghost use Rattle.std.specs.Option.{option_map};
ghost use Rattle.fr_base.specs.Within.{IsBetween};
ghost use Rattle.fr_course.specs.Computed.{measuring_of};
ghost use Rattle.fr_course.specs.Course.{is_empty};
ghost use Rattle.fr_course.specs.Near.{EndWithin, HasUndamped, IsInTicks, IsTerm};
ghost use Rattle.fr_course.specs.Terms.{rate_step_seen};
ghost use Rattle.fr_sightings.specs.Ranges.{IsProperSender};
ghost use Rattle.fr_observe.specs.Faults.{correction_fault, further_of, length_beyond, length_fault_by, longest_cycle_of, offset_due, offset_fault, rate_due, rate_fault, shortest_cycle_of, stated_flutter, term_fault, unlike_fault, unlike_with};
ghost use Rattle.fr_observe.specs.Scenes.{IsScene};
ghost use Rattle.fr_observe.specs.Telling.{IsFewAsked, TellsFaults, sender_fault};
ghost use Rattle.fr_course.specs.Ranges.{greatest_cycle};

use crate::fault::{Fault, Range};
use crate::rows::terms_of;
use crate::scene::Scene;
use crate::telling::tell;
use crate::term::Term;
use fr_base::{NodeId, PutFault, Sink};
use fr_bound::{DoubleNumber, Flutter, longest_microtick, shortest_microtick};
use fr_cluster::{ParamName, Params};
use fr_course::{Interval, Measuring, Scale, is_empty, length_ticks, rate_step_seen};
use fr_log::Log;
use fr_sightings::{Reception, Sender, keyed_count, offset_computed, rate_computed};

/// What is asked of a sender.
#[derive(Clone, Copy)]
pub enum Asked {
    /// Whether the limits allow its offset term.
    Correction,
    /// Whether the lengths of its cycles lie at most so far beyond proper ones, in ticks.
    Length(u64),
    /// Whether its offset term is one, or its rate term grew by a step, that it must have computed where it missed at most so many
    /// of the other senders.
    Term(Term, usize),
}

// The limit of offset terms, in microticks.
fn offset_limit(params: &Params) -> i128
    ensures value { result ≡ params.now.offset_limit }
    ensures within { IsBetween (pos 0) (pos 16_000) result }
{
    i128::from(params.value(ParamName::pOffsetCorrectionOut))
}

// The offset terms that it allows.
fn allowed_terms(params: &Params) -> Interval
    ensures low { result.low ≡ neg_ℤ params.now.offset_limit }
    ensures high { result.high ≡ params.now.offset_limit }
    ensures near { EndWithin (pos 16_000) result }
{
    let limit = offset_limit(params);
    Interval {
        low: -limit,
        high: limit,
    }
}

fn is_beyond(term: &Interval, allowed: &Interval) -> bool
    ensures { result ≡ (is_empty term.now || int_lt allowed.now.high term.now.low
        || int_lt term.now.high allowed.now.low) }
{
    is_empty(term) || allowed.high < term.low || term.high < allowed.low
}

// An offset term is none that the limits allow.
fn term_fault(params: &Params, cycle: u32, node: NodeId, term: &Interval) -> Option<Fault>
    requires { IsTerm term.now }
    ensures { result ≡ term_fault params.now cycle node term.now }
{
    let allowed = allowed_terms(params);
    if is_beyond(term, &allowed) {
        Some(Fault::Correction {
            cycle,
            node,
            term: Range::of(term),
            allowed: Range::of(&allowed),
        })
    } else {
        None
    }
}

fn correction_fault(
    params: &Params,
    scale: &Scale,
    double: DoubleNumber,
    sender: &Sender,
) -> Option<Fault>
    requires sender { IsProperSender scale.now sender.now }
    ensures { result ≡ correction_fault params.now scale.now double sender.now }
{
    match terms_of(scale, sender) {
        None => None,
        Some(term) => term_fault(params, 2 * double.0 + 1, sender.node, &term),
    }
}

/// The lengths of cycles of oscillators within their bounds, before correction, in ticks.
pub fn proper_lengths(params: &Params) -> Interval
    ensures low { result.low ≡ shortest_cycle_of params.now }
    ensures high { result.high ≡ longest_cycle_of params.now }
    ensures near { EndWithin greatest_cycle result }
{
    let micros = params.natural(ParamName::pMicroPerCycle);
    Interval {
        low: (micros * shortest_microtick(params)) as i128,
        high: (micros * longest_microtick(params)) as i128,
    }
}

// Lengths beyond these by so much, in ticks.
fn lengths_beyond(proper: &Interval, beyond: u64) -> Interval
    requires { EndWithin greatest_cycle proper.now }
    ensures low { result.low ≡ proper.now.low -ℤ pos beyond }
    ensures high { result.high ≡ proper.now.high +ℤ pos beyond }
{
    Interval {
        low: proper.low - i128::from(beyond),
        high: proper.high + i128::from(beyond),
    }
}

// No number lies in both.
fn lie_apart(one: &Interval, other: &Interval) -> bool
    ensures { result ≡ (int_lt one.now.high other.now.low || int_lt other.now.high one.now.low) }
{
    one.high < other.low || other.high < one.low
}

// Cycles are certainly too long or too short, where they may be longer and shorter than proper ones by so much.
fn length_by(
    cycle: u32,
    node: NodeId,
    beyond: u64,
    proper: &Interval,
    long: &Interval,
) -> Option<Fault>
    requires proper { EndWithin greatest_cycle proper.now }
    requires long { IsInTicks long.now }
    ensures { result ≡ length_fault_by cycle node (proper.now.low -ℤ pos beyond) (proper.now.high +ℤ pos beyond)
        long.now }
{
    let allowed = lengths_beyond(proper, beyond);
    if lie_apart(&allowed, long) {
        Some(Fault::Length {
            cycle,
            node,
            length: Range::of(long),
            allowed: Range::of(&allowed),
        })
    } else {
        None
    }
}

// Those of a sender are.
fn length_beyond(
    params: &Params,
    scale: &Scale,
    beyond: u64,
    double: DoubleNumber,
    sender: &Sender,
) -> Option<Fault>
    requires sender { IsProperSender scale.now sender.now }
    ensures { result ≡ length_beyond params.now scale.now beyond double sender.now }
{
    length_by(
        2 * double.0,
        sender.node,
        beyond,
        &proper_lengths(params),
        &length_ticks(scale, &sender.course),
    )
}

fn unlike_with(what: Term, cycle: u32, node: NodeId, seen: &Interval, computed: &Interval) -> Fault
    requires seen { IsTerm seen.now }
    requires computed { HasUndamped computed.now }
    ensures { result ≡ unlike_with what cycle node seen.now computed.now }
{
    let (seen, due) = (Range::of(seen), Range::of(computed));
    match what {
        Term::Offset => Fault::Offset {
            cycle,
            node,
            term: seen,
            due,
        },
        Term::Rate => Fault::Rate {
            cycle,
            node,
            step: seen,
            due,
        },
    }
}

fn unlike_by(
    what: Term,
    cycle: u32,
    node: NodeId,
    seen: &Interval,
    computed: &Interval,
) -> Option<Fault>
    requires seen { IsTerm seen.now }
    requires computed { HasUndamped computed.now }
    ensures { result ≡ unlike_fault what cycle node (Some seen.now) (Some computed.now) }
{
    if lie_apart(seen, computed) {
        Some(unlike_with(what, cycle, node, seen, computed))
    } else {
        None
    }
}

// What was seen of a term, and what the node must have computed, have no number in common.
fn unlike_fault(
    what: Term,
    cycle: u32,
    node: NodeId,
    seen: Option<Interval>,
    computed: Option<Interval>,
) -> Option<Fault>
    requires seen { IfSome seen IsTerm }
    requires computed { IfSome computed HasUndamped }
    ensures { result ≡ unlike_fault what cycle node seen computed }
{
    match seen {
        None => None,
        Some(seen) => match computed {
            None => None,
            Some(computed) => unlike_by(what, cycle, node, &seen, &computed),
        },
    }
}

// How many further sync nodes may have been heard.
fn further_of(params: &Params, senders: &[Sender]) -> usize
    ensures value { result ≡ further_of params.now senders.now }
    ensures few { result ≤ 64 }
{
    keyed_count(params).saturating_sub(senders.len())
}

/// By how much delays flutter between both cycles of a double cycle, in ticks: as the log says, or no more than delays that keep
/// within what the parameters say of them.
pub fn stated_flutter(params: &Params, log: &Log) -> Flutter
    ensures value { result ≡ stated_flutter params.now log.now }
{
    match log.flutter() {
        None => Flutter(2 * params.natural(ParamName::xDelayError)),
        Some(flutter) => Flutter(flutter),
    }
}

// How the nodes measure where delays flutter by no more.
fn measuring_of(scene: &Scene<'_>) -> Measuring
    ensures value { result ≡ measuring_of scene.now.params.now (stated_flutter scene.now.params.now scene.now.log.now) }
{
    Measuring::of(scene.params, stated_flutter(scene.params, scene.log))
}

// How what a sender received may differ from what is seen, where it missed at most so many of the others.
fn reception_of(scene: &Scene<'_>, lost: usize) -> Reception
    requires scene { IsScene scene.now }
    requires lost { lost ≤ 64 }
    ensures further { result.further ≡ further_of scene.now.params.now scene.now.senders.now }
    ensures few { result.further ≤ 64 }
    ensures lost { result.lost ≡ lost }
{
    Reception {
        further: further_of(scene.params, scene.senders),
        lost,
    }
}

// What a sender must have computed of its offset term, where it missed at most so many of the others.
fn offset_due(scene: &Scene<'_>, lost: usize, sender: &Sender) -> Option<Interval>
    requires scene { IsScene scene.now }
    requires lost { lost ≤ 64 }
    requires among { Contains scene.now.senders.now sender.now }
    requires sender { IsProperSender scene.now.scale.now sender.now }
    ensures value { result ≡ offset_due scene.now.params.now scene.now.log.now scene.now.scale.now scene.now.senders.now
        lost sender.now }
    ensures near { IfSome result HasUndamped }
{
    offset_computed(
        scene.scale,
        &measuring_of(scene),
        scene.senders,
        sender,
        reception_of(scene, lost),
    )
}

// And of the step of its rate term.
fn rate_due(scene: &Scene<'_>, lost: usize, sender: &Sender) -> Option<Interval>
    requires scene { IsScene scene.now }
    requires lost { lost ≤ 64 }
    requires among { Contains scene.now.senders.now sender.now }
    requires sender { IsProperSender scene.now.scale.now sender.now }
    ensures value { result ≡ rate_due scene.now.params.now scene.now.log.now scene.now.scale.now scene.now.senders.now
        lost sender.now }
    ensures near { IfSome result HasUndamped }
{
    rate_computed(
        scene.scale,
        &measuring_of(scene),
        scene.senders,
        sender,
        reception_of(scene, lost),
    )
}

fn offset_fault(scene: &Scene<'_>, lost: usize, sender: &Sender) -> Option<Fault>
    requires scene { IsScene scene.now }
    requires lost { lost ≤ 64 }
    requires among { Contains scene.now.senders.now sender.now }
    requires sender { IsProperSender scene.now.scale.now sender.now }
    ensures { result ≡ offset_fault scene.now.params.now scene.now.log.now scene.now.scale.now scene.now.number
        scene.now.senders.now lost sender.now }
{
    unlike_fault(
        Term::Offset,
        2 * scene.number + 1,
        sender.node,
        terms_of(scene.scale, sender),
        offset_due(scene, lost, sender),
    )
}

/// By how much the rate term of a sender grew, in microticks.
pub fn step_of(scale: &Scale, sender: &Sender) -> Option<Interval>
    requires sender { IsProperSender scale.now sender.now }
    ensures value { result ≡ option_map (rate_step_seen scale.now sender.now.course) sender.now.next }
    ensures near { IfSome result IsTerm }
{
    match sender.next {
        None => None,
        Some(next) => Some(rate_step_seen(scale, &sender.course, &next)),
    }
}

fn rate_fault(scene: &Scene<'_>, lost: usize, sender: &Sender) -> Option<Fault>
    requires scene { IsScene scene.now }
    requires lost { lost ≤ 64 }
    requires among { Contains scene.now.senders.now sender.now }
    requires sender { IsProperSender scene.now.scale.now sender.now }
    ensures { result ≡ rate_fault scene.now.params.now scene.now.log.now scene.now.scale.now scene.now.number
        scene.now.senders.now lost sender.now }
{
    unlike_fault(
        Term::Rate,
        2 * scene.number + 1,
        sender.node,
        step_of(scene.scale, sender),
        rate_due(scene, lost, sender),
    )
}

/// What contradicts a run by this of a sender of a double cycle.
pub fn sender_fault(asked: Asked, scene: &Scene<'_>, sender: &Sender) -> Option<Fault>
    requires scene { IsScene scene.now }
    requires few { IsFewAsked asked }
    requires among { Contains scene.now.senders.now sender.now }
    requires sender { IsProperSender scene.now.scale.now sender.now }
    ensures { result ≡ sender_fault asked scene.now.params.now scene.now.log.now scene.now.scale.now scene.now.number
        scene.now.senders.now sender.now }
{
    match asked {
        Asked::Correction => {
            let number = DoubleNumber(scene.number);
            correction_fault(scene.params, scene.scale, number, sender)
        }
        Asked::Length(beyond) => {
            let number = DoubleNumber(scene.number);
            length_beyond(scene.params, scene.scale, beyond, number, sender)
        }
        Asked::Term(Term::Offset, lost) => offset_fault(scene, lost, sender),
        Asked::Term(Term::Rate, lost) => rate_fault(scene, lost, sender),
    }
}

/// Tells what contradicts a run by this of each sender of a double cycle: a line for each, and the first one of all that were
/// told is kept.
pub fn put_of_senders<O: Sink>(
    asked: Asked,
    scene: &Scene<'_>,
    first: &mut Option<Fault>,
    out: &mut O,
) -> Result<(), PutFault>
    requires scene { IsScene scene.now }
    requires few { IsFewAsked asked }
    ensures { TellsFaults result (O.state out.old) (O.state out.new) first.old first.new
        (filter_map (sender_fault asked scene.now.params.now scene.now.log.now scene.now.scale.now scene.now.number
        scene.now.senders.now) scene.now.senders.now) }
{
    for sender in scene.senders {
        tell(sender_fault(asked, scene, sender), first, out)?;
    }
    Ok(())
}
