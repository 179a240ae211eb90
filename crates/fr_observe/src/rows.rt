ghost use Rattle.std.specs.Prelude.{◌≡◌, IfSome};
ghost use Rattle.std.specs.Fmt.{decimal, signed_decimal};
ghost use Rattle.std.specs.Option.{option_map};
ghost use Rattle.fr_base.specs.Within.{IsWithin};
ghost use Rattle.fr_course.specs.Near.{IsTerm};
ghost use Rattle.fr_text.specs.Pieces.{Spells};
ghost use Rattle.fr_observe.specs.Observing.{cycle_row, known, known_count, node_row, precision_row, terms_of};
ghost use Rattle.fr_sightings.specs.Ranges.{IsProperSender};
ghost use Rattle.fr_observe.specs.Ranges.{greatest_printed_length};

use crate::says::Says;
use fr_course::{Interval, Scale, offset_seen};
use fr_sightings::Sender;
use fr_text::Piece::{Natural, Signed, Word};
use fr_text::{Line, Piece, row_of};

/// A number, or - where none is known.
pub fn known_count(number: Option<u64>) -> Piece<'static>
    ensures { Spells result (known_count number) 20 }
{
    match number {
        None => Word(b"-"),
        Some(number) => Natural(number),
    }
}

// A number, if it is known.
pub(crate) fn known(number: Option<i64>) -> Piece<'static>
    ensures { Spells result (known number) 20 }
{
    match number {
        None => Word(b"-"),
        Some(number) => Signed(number),
    }
}

/// The precision, in ticks, as a record, with what it and double cycles are judged by: how far delays flutter, in ticks, and how
/// many senders a node may miss.
pub fn precision_row(precision: i64, flutter: u64, lost: u64) -> Line
    ensures { result ≡ precision_row precision flutter lost }
{
    row_of(
        b"precision",
        &[
            Signed(precision),
            Natural(flutter),
            Natural(lost),
            Word(b""),
            Word(b""),
            Word(b""),
            Word(b""),
        ],
    )
}

/// A cycle as a record: how many nodes sent, the limits of their skew in ticks, and what these say.
#[tactic(auto, unfolding(crate::specs::Observing::cycle_row))]
pub fn cycle_row(precision: i64, cycle: u32, senders: usize, low: i64, high: Option<i64>) -> Line
    ensures { result ≡ cycle_row precision cycle senders low high }
{
    row_of(
        b"cycle",
        &[
            Natural(u64::from(cycle)),
            Natural(senders as u64),
            Signed(low),
            known(high),
            Word(Says::of(precision, low, high).word()),
            Word(b""),
            Word(b""),
        ],
    )
}

/// The limits of the offset term of a sender, in microticks.
#[tactic(auto, unfolding(crate::specs::Observing::terms_of))]
pub fn terms_of(scale: &Scale, sender: &Sender) -> Option<Interval>
    requires sender { IsProperSender scale.now sender.now }
    ensures value { result ≡ terms_of scale.now sender.now }
    ensures near { IfSome result IsTerm }
{
    match sender.next {
        None => None,
        Some(next) => Some(offset_seen(scale, &sender.course, &next, sender.onward)),
    }
}

fn low_of(term: Option<Interval>) -> Option<i64>
    requires { IfSome term IsTerm }
    ensures { result ≡ option_map (λ t. t.low) term }
{
    match term {
        None => None,
        Some(term) => Some(term.low as i64),
    }
}

fn high_of(term: Option<Interval>) -> Option<i64>
    requires { IfSome term IsTerm }
    ensures { result ≡ option_map (λ t. t.high) term }
{
    match term {
        None => None,
        Some(term) => Some(term.high as i64),
    }
}

// The least and the greatest one of these terms.
fn least_term(term: Option<Interval>) -> Piece<'static>
    requires { IfSome term IsTerm }
    ensures { Spells result (known (option_map (λ t. t.low) term)) 20 }
{
    known(low_of(term))
}

fn most_term(term: Option<Interval>) -> Piece<'static>
    requires { IfSome term IsTerm }
    ensures { Spells result (known (option_map (λ t. t.high) term)) 20 }
{
    known(high_of(term))
}

// A length of cycles, in ticks of the observer's clock.
fn ticks(value: i128) -> Piece<'static>
    requires { IsWithin greatest_printed_length value }
    ensures { Spells result (signed_decimal value) 20 }
{
    Signed(value as i64)
}

fn natural(value: u64) -> Piece<'static>
    ensures { Spells result (decimal value) 20 }
{
    Natural(value)
}

/// A sender as a record: the limits of the length of its cycles, in ticks of the observer's clock, and of its offset term,
/// in microticks.
#[tactic(auto, unfolding(crate::specs::Observing::node_row))]
pub fn node_row(scale: &Scale, double: u32, sender: &Sender) -> Line
    requires sender { IsProperSender scale.now sender.now }
    ensures { result ≡ node_row scale.now double sender.now }
{
    let term = terms_of(scale, sender);
    row_of(
        b"node",
        &[
            natural(u64::from(double)),
            natural(u64::from(sender.node.0)),
            ticks(sender.course.length.low),
            ticks(sender.course.length.high),
            least_term(term),
            most_term(term),
            Word(b""),
        ],
    )
}
