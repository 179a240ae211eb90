ghost use Rattle.std.specs.Prelude.{◌≡◌, ◌≤◌, ◌<◌, ◌++◌, None, true};
ghost use Rattle.std.specs.List.{Contains, flat_map};
ghost use Rattle.fr_base.specs.Device.{Puts};
ghost use Rattle.fr_sightings.specs.Ranges.{IsProperSender};
ghost use Rattle.std.specs.Option.{option_to_list};
ghost use Rattle.fr_observe.specs.Faults.{first_of_faults};
ghost use Rattle.fr_observe.specs.Scenes.{IsScene};
ghost use Rattle.fr_judging.specs.Knowing.{standing_faults};
ghost use Rattle.fr_judging.specs.Missing.{least_missed, missed_if_any, missed_where, missed_with, missed_of_term, missed_row, missed_told, unlike_term};

use crate::knowing::{Standing, judged_met};
use crate::zeros::term_may_be_0;
use fr_base::{NodeId, PutFault, Sink};
use fr_bound::DoubleNumber;
use fr_log::Log;
use fr_observe::{Asked, Fault, Scene, Term, known_count, sender_fault};
use fr_sightings::Sender;
use fr_text::Piece::{Natural, Word};
use fr_text::{Line, put_line, row_of};

/// How many senders a node must have missed in a double cycle.
#[derive(Clone, Copy, Debug, PartialEq, Eq)]
pub struct Missed {
    /// The number of the odd cycle in the log.
    pub cycle: u32,
    pub node: NodeId,
    /// The term that says it.
    pub term: Term,
    /// So many at least; none where it can't have computed what was seen whatever it missed.
    pub least: Option<u64>,
}

// What contradicts a term of a sender that missed at most so many of the others.
pub(crate) fn unlike_term(
    term: Term,
    scene: &Scene<'_>,
    sender: &Sender,
    lost: usize,
) -> Option<Fault>
    requires scene { IsScene scene.now }
    requires lost { lost ≤ 64 }
    requires among { Contains scene.now.senders.now sender.now }
    requires sender { IsProperSender scene.now.scale.now sender.now }
    ensures { result ≡ unlike_term term scene.now.params.now scene.now.log.now scene.now.scale.now scene.now.number
        scene.now.senders.now sender.now lost }
{
    if term_may_be_0(term, scene, sender) {
        None
    } else {
        sender_fault(Asked::Term(term, lost), scene, sender)
    }
}

// The least number that nothing contradicts.
fn least_missed(term: Term, scene: &Scene<'_>, sender: &Sender) -> Option<u64>
    requires scene { IsScene scene.now }
    requires among { Contains scene.now.senders.now sender.now }
    requires sender { IsProperSender scene.now.scale.now sender.now }
    ensures { result ≡ least_missed term scene.now.params.now scene.now.log.now scene.now.scale.now scene.now.number
        scene.now.senders.now sender.now }
{
    for lost in 0..scene.senders.len() {
        if unlike_term(term, scene, sender, lost).is_none() {
            return Some(lost as u64);
        }
    }
    None
}

fn missed_with(term: Term, double: DoubleNumber, node: NodeId, least: Option<u64>) -> Missed
    ensures { result ≡ missed_with term double node least }
{
    Missed {
        cycle: 2 * double.0 + 1,
        node,
        term,
        least,
    }
}

// Told where it must have missed one at least.
fn missed_if_any(
    term: Term,
    double: DoubleNumber,
    node: NodeId,
    least: Option<u64>,
) -> Option<Missed>
    ensures { result ≡ missed_if_any term double node least }
{
    match least {
        None => Some(missed_with(term, double, node, None)),
        Some(lost) => {
            if lost == 0 {
                None
            } else {
                Some(missed_with(term, double, node, Some(lost)))
            }
        }
    }
}

fn missed_where(term: Term, scene: &Scene<'_>, sender: &Sender) -> Option<Missed>
    requires scene { IsScene scene.now }
    requires among { Contains scene.now.senders.now sender.now }
    requires sender { IsProperSender scene.now.scale.now sender.now }
    ensures { result ≡ missed_where term scene.now.params.now scene.now.log.now scene.now.scale.now scene.now.number
        scene.now.senders.now sender.now }
{
    let least = least_missed(term, scene, sender);
    missed_if_any(term, DoubleNumber(scene.number), sender.node, least)
}

#[tactic(auto, unfolding(crate::specs::Missing::missed_row))]
fn missed_row(missed: &Missed) -> Line
    ensures { result ≡ missed_row missed.now }
{
    row_of(
        b"missed",
        &[
            Natural(u64::from(missed.cycle)),
            Natural(u64::from(missed.node.0)),
            Word(missed.term.word()),
            known_count(missed.least),
            Word(b""),
            Word(b""),
            Word(b""),
        ],
    )
}

fn put_one<O: Sink>(missed: Option<Missed>, out: &mut O) -> Result<(), PutFault>
    ensures { Puts result (O.state out.old) (O.state out.new) (flat_map missed_row (option_to_list missed)) }
{
    match missed {
        None => Ok(()),
        Some(missed) => put_line(&missed_row(&missed), out),
    }
}

fn put_of_term<O: Sink>(term: Term, scene: &Scene<'_>, out: &mut O) -> Result<(), PutFault>
    requires { IsScene scene.now }
    ensures { Puts result (O.state out.old) (O.state out.new) (flat_map missed_row (missed_of_term term
        scene.now.params.now scene.now.log.now scene.now.scale.now scene.now.number scene.now.senders.now)) }
{
    for sender in scene.senders {
        put_one(missed_where(term, scene, sender), out)?;
    }
    Ok(())
}

fn put_both<O: Sink>(scene: &Scene<'_>, out: &mut O) -> Result<(), PutFault>
    requires { IsScene scene.now }
    ensures { Puts result (O.state out.old) (O.state out.new) (flat_map missed_row (missed_of_term Term.Offset
        scene.now.params.now scene.now.log.now scene.now.scale.now scene.now.number scene.now.senders.now
        ++ missed_of_term Term.Rate scene.now.params.now scene.now.log.now scene.now.scale.now scene.now.number
        scene.now.senders.now)) }
{
    put_of_term(Term::Offset, scene, out)?;
    put_of_term(Term::Rate, scene, out)
}

// How many senders the nodes of a double cycle must have missed, where it is judged, by all its terms.
#[tactic(auto, unfolding(crate::specs::Missing::missed_told))]
fn put_judged<O: Sink>(scene: &Scene<'_>, standing: &Standing, out: &mut O) -> Result<(), PutFault>
    requires { IsScene scene.now }
    ensures { Puts result (O.state out.old) (O.state out.new) (missed_told scene.now.params.now scene.now.log.now
        scene.now.scale.now scene.now.number scene.now.senders.now standing.now) }
{
    match judged_met(standing) {
        None => Ok(()),
        Some(_) => put_both(scene, out),
    }
}

// Nodes missed none, as the log states, and nothing contradicts that.
fn is_clear(log: &Log, against: &Option<Fault>) -> bool
    ensures lost { result ≡ true → log.now.lost ≡ 0 }
    ensures none { result ≡ true → against.now ≡ None }
{
    log.lost() == 0 && against.is_none()
}

/// Puts how many senders a node of a double cycle that stands so must have missed, in which it is judged, where it must have
/// missed one at least: a line for each. `against` is the first contradiction of what it stands for: where there is
/// none and the log states that nodes miss none, no term is computed again.
pub fn put_missed<O: Sink>(
    scene: &Scene<'_>,
    standing: &Standing,
    against: &Option<Fault>,
    out: &mut O,
) -> Result<(), PutFault>
    requires scene { IsScene scene.now }
    requires against { against.now ≡ first_of_faults (standing_faults scene.now.params.now scene.now.scale.now
        scene.now.log.now scene.now.span scene.now.before.now scene.now.here.now scene.now.number
        scene.now.senders.now standing.now) }
    ensures { Puts result (O.state out.old) (O.state out.new) (missed_told scene.now.params.now scene.now.log.now
        scene.now.scale.now scene.now.number scene.now.senders.now standing.now) }
{
    if is_clear(scene.log, against) {
        Ok(())
    } else {
        put_judged(scene, standing, out)
    }
}
