ghost use Rattle.std.specs.Prelude.{◌≡◌, ◌≤◌, ◌++◌, IfSome, Some, filter_map, pos};
ghost use Rattle.fr_base.specs.Device.{Puts};
ghost use Rattle.fr_bound.specs.Judged.{IsSmall};
ghost use Rattle.fr_observe.specs.Faults.{length_beyond, offset_fault, rate_fault};
ghost use Rattle.fr_judging.specs.Knowing.{JudgedBySmall, judged_skews, judged_terms, known_apart, known_missing, moving_faults, moving_heard, spread_heard, spread_row, spread_told, term_faults};
ghost use Rattle.fr_judging.specs.Missing.{unlike_term};
ghost use Rattle.fr_observe.specs.Scenes.{IsScene};
ghost use Rattle.fr_observe.specs.Telling.{TellsFaults, apart_faults, skew_faults};

use crate::knowing::{Standing, judged_met};
use crate::missed::unlike_term;
use fr_base::{PutFault, Sink};
use fr_bound::{Heard, Known, apart_through};
use fr_cluster::Params;
use fr_log::Log;
use fr_observe::{
    Asked, Fault, Scene, Term, put_apart, put_missing, put_of_senders, put_skews, stated_flutter,
    tell,
};
use fr_text::Piece::{Natural, Word};
use fr_text::{Line, put_line, row_of};

// The skews of a double cycle in which macroticks may lie so far apart, in ticks.
fn put_skews_by<O: Sink>(
    apart: u64,
    scene: &Scene<'_>,
    first: &mut Option<Fault>,
    out: &mut O,
) -> Result<(), PutFault>
    requires { IsScene scene.now }
    ensures { TellsFaults result (O.state out.old) (O.state out.new) first.old first.new
        (skew_faults (pos apart) scene.now.scale.now scene.now.number scene.now.senders.now) }
{
    put_skews(i128::from(apart), scene, first, out)
}

// Those of one that is judged by its own numbers.
#[tactic(auto, unfolding(crate::specs::Knowing::judged_skews))]
fn put_judged_skews<O: Sink>(
    scene: &Scene<'_>,
    what: Heard,
    met: Option<Known>,
    first: &mut Option<Fault>,
    out: &mut O,
) -> Result<(), PutFault>
    requires scene { IsScene scene.now }
    requires small { IfSome met IsSmall }
    ensures { TellsFaults result (O.state out.old) (O.state out.new) first.old first.new
        (judged_skews scene.now.params.now scene.now.log.now scene.now.scale.now scene.now.number
        scene.now.senders.now what met) }
{
    match met {
        None => Ok(()),
        Some(met) => {
            let flutter = stated_flutter(scene.params, scene.log);
            let apart = apart_through(scene.params, what, flutter, met);
            put_skews_by(apart, scene, first, out)
        }
    }
}

// The starts and lengths of one of which so much is known.
fn put_apart_by<O: Sink>(
    scene: &Scene<'_>,
    known: Known,
    first: &mut Option<Fault>,
    out: &mut O,
) -> Result<(), PutFault>
    requires { IsScene scene.now }
    ensures { TellsFaults result (O.state out.old) (O.state out.new) first.old first.new
        (known_apart scene.now.params.now scene.now.scale.now scene.now.number scene.now.senders.now (Some known)) }
{
    put_apart(
        i128::from(known.spread.starts),
        i128::from(known.spread.lengths),
        scene,
        first,
        out,
    )?;
    put_of_senders(Asked::Length(known.beyond), scene, first, out)
}

#[tactic(auto, unfolding(crate::specs::Knowing::known_apart))]
fn put_known_apart<O: Sink>(
    scene: &Scene<'_>,
    known: Option<Known>,
    first: &mut Option<Fault>,
    out: &mut O,
) -> Result<(), PutFault>
    requires { IsScene scene.now }
    ensures { TellsFaults result (O.state out.old) (O.state out.new) first.old first.new
        (known_apart scene.now.params.now scene.now.scale.now scene.now.number scene.now.senders.now known) }
{
    match known {
        None => Ok(()),
        Some(known) => put_apart_by(scene, known, first, out),
    }
}

// Both, where it is told what is heard.
fn put_moving_heard<O: Sink>(
    scene: &Scene<'_>,
    what: Heard,
    standing: &Standing,
    first: &mut Option<Fault>,
    out: &mut O,
) -> Result<(), PutFault>
    requires scene { IsScene scene.now }
    requires small { JudgedBySmall standing.now }
    ensures { TellsFaults result (O.state out.old) (O.state out.new) first.old first.new
        (moving_heard scene.now.params.now scene.now.log.now scene.now.scale.now scene.now.number
        scene.now.senders.now standing.now (Some what)) }
{
    put_judged_skews(scene, what, judged_met(standing), first, out)?;
    put_known_apart(scene, standing.known, first, out)
}

/// Tells which skews, starts and lengths contradict a double cycle that stands so: skews by the numbers that it is judged by,
/// starts and lengths by what is known of it beside what is seen. Behind one of these nothing is known of the next double
/// cycle. A line for each, and the first one of all that were told is kept.
#[tactic(auto, unfolding(crate::specs::Knowing::moving_faults))]
pub fn put_moving_faults<O: Sink>(
    scene: &Scene<'_>,
    standing: &Standing,
    first: &mut Option<Fault>,
    out: &mut O,
) -> Result<(), PutFault>
    requires scene { IsScene scene.now }
    requires small { JudgedBySmall standing.now }
    ensures { TellsFaults result (O.state out.old) (O.state out.new) first.old first.new
        (moving_faults scene.now.params.now scene.now.log.now scene.now.scale.now scene.now.number
        scene.now.senders.now standing.now) }
{
    match standing.heard {
        None => Ok(()),
        Some(what) => put_moving_heard(scene, what, standing, first, out),
    }
}

// Those of a term that is none that its node must have computed where it missed at most so many of the others.
fn put_term<O: Sink>(
    term: Term,
    lost: usize,
    scene: &Scene<'_>,
    first: &mut Option<Fault>,
    out: &mut O,
) -> Result<(), PutFault>
    requires scene { IsScene scene.now }
    requires lost { lost ≤ 64 }
    ensures { TellsFaults result (O.state out.old) (O.state out.new) first.old first.new
        (filter_map (λ s. unlike_term term scene.now.params.now scene.now.log.now scene.now.scale.now scene.now.number
        scene.now.senders.now s lost) scene.now.senders.now) }
{
    for sender in scene.senders {
        tell(unlike_term(term, scene, sender, lost), first, out)?;
    }
    Ok(())
}

// The terms that are not those that nodes must have computed, where each may have missed so many senders as the log states.
fn put_terms<O: Sink>(
    scene: &Scene<'_>,
    first: &mut Option<Fault>,
    out: &mut O,
) -> Result<(), PutFault>
    requires { IsScene scene.now }
    ensures { TellsFaults result (O.state out.old) (O.state out.new) first.old first.new
        (filter_map (offset_fault scene.now.params.now scene.now.log.now scene.now.scale.now scene.now.number
        scene.now.senders.now scene.now.log.now.lost) scene.now.senders.now
        ++ filter_map (rate_fault scene.now.params.now scene.now.log.now scene.now.scale.now scene.now.number
        scene.now.senders.now scene.now.log.now.lost) scene.now.senders.now) }
{
    let lost = scene.log.lost() as usize;
    put_term(Term::Offset, lost, scene, first, out)?;
    put_term(Term::Rate, lost, scene, first, out)
}

#[tactic(auto, unfolding(crate::specs::Knowing::judged_terms))]
fn put_judged_terms<O: Sink>(
    scene: &Scene<'_>,
    met: Option<Known>,
    first: &mut Option<Fault>,
    out: &mut O,
) -> Result<(), PutFault>
    requires { IsScene scene.now }
    ensures { TellsFaults result (O.state out.old) (O.state out.new) first.old first.new
        (judged_terms scene.now.params.now scene.now.log.now scene.now.scale.now scene.now.number
        scene.now.senders.now met) }
{
    match met {
        None => Ok(()),
        Some(_) => put_terms(scene, first, out),
    }
}

// The frames that are missing, where something is known.
#[tactic(auto, unfolding(crate::specs::Knowing::known_missing))]
fn put_known_missing<O: Sink>(
    scene: &Scene<'_>,
    known: Option<Known>,
    first: &mut Option<Fault>,
    out: &mut O,
) -> Result<(), PutFault>
    requires { IsScene scene.now }
    ensures { TellsFaults result (O.state out.old) (O.state out.new) first.old first.new
        (known_missing scene.now.params.now scene.now.log.now scene.now.span scene.now.before.now scene.now.here.now
        scene.now.number known) }
{
    match known {
        None => Ok(()),
        Some(_) => put_missing(scene, first, out),
    }
}

/// Tells which terms of a double cycle that stands so are not those that its nodes must have computed, where it is judged, and
/// which frames are missing, where something is known of it beside what is seen. They end nothing that is known. Each is one
/// put, and the first one of all that were told is kept.
#[tactic(auto, unfolding(crate::specs::Knowing::term_faults))]
pub fn put_term_faults<O: Sink>(
    scene: &Scene<'_>,
    standing: &Standing,
    first: &mut Option<Fault>,
    out: &mut O,
) -> Result<(), PutFault>
    requires { IsScene scene.now }
    ensures { TellsFaults result (O.state out.old) (O.state out.new) first.old first.new
        (term_faults scene.now.params.now scene.now.scale.now scene.now.log.now scene.now.span scene.now.before.now
        scene.now.here.now scene.now.number scene.now.senders.now standing.now) }
{
    put_judged_terms(scene, judged_met(standing), first, out)?;
    put_known_missing(scene, standing.known, first, out)
}

// The numbers that it is judged by as a record, and how far macroticks may lie apart in it, in ticks.
#[tactic(auto, unfolding(crate::specs::Knowing::spread_row))]
fn spread_row(params: &Params, log: &Log, what: Heard, number: u32, known: Known) -> Line
    requires { IsSmall known }
    ensures { result ≡ spread_row params.now log.now what number known }
{
    let apart = apart_through(params, what, stated_flutter(params, log), known);
    row_of(
        b"spread",
        &[
            Natural(u64::from(number)),
            Natural(known.spread.starts),
            Natural(known.spread.lengths),
            Natural(known.beyond),
            Natural(apart),
            Word(b""),
            Word(b""),
        ],
    )
}

fn put_spread_by<O: Sink>(
    scene: &Scene<'_>,
    what: Heard,
    judged: Option<Known>,
    out: &mut O,
) -> Result<(), PutFault>
    requires { IfSome judged IsSmall }
    ensures { Puts result (O.state out.old) (O.state out.new)
        (spread_heard scene.now.params.now scene.now.log.now scene.now.number (Some what) judged) }
{
    match judged {
        None => Ok(()),
        Some(known) => {
            let row = spread_row(scene.params, scene.log, what, scene.number, known);
            put_line(&row, out)
        }
    }
}

/// Puts the numbers that a double cycle is judged by as a record, in one put; nothing of one that is not judged.
#[tactic(auto, unfolding(crate::specs::Knowing::spread_told))]
pub fn put_spread<O: Sink>(
    scene: &Scene<'_>,
    standing: &Standing,
    out: &mut O,
) -> Result<(), PutFault>
    requires { JudgedBySmall standing.now }
    ensures { Puts result (O.state out.old) (O.state out.new)
        (spread_told scene.now.params.now scene.now.log.now scene.now.number standing.now) }
{
    match standing.heard {
        None => Ok(()),
        Some(what) => put_spread_by(scene, what, judged_met(standing), out),
    }
}
