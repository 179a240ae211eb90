ghost use Rattle.std.specs.Prelude.{◌≡◌, ◌≢◌, ◌↔◌, ◌≤ℤ◌, ◌+ℤ◌, pos, [], IsPermutation};
ghost use Rattle.fr_base.specs.Within.{IsBetween, IsWithin};
ghost use Rattle.fr_correct.specs.Terms.{damped, term_of, missing_term, offset_term_of, rate_term_of, IsOutside, IsOffsetTerm, IsRateTerm, OffsetTermIsFound, OffsetTermIsThere, RateTermIsFound, RateTermIsThere, TellsItsOutcome, TermLiesWithin};
ghost use Rattle.fr_midpoint.specs.Midpoint.{most_value};

use fr_base::Outcome;
use fr_midpoint::{List15, midpoint};

/// A correction term, in microticks.
#[derive(Clone, Copy, Debug, PartialEq, Eq)]
pub struct Term {
    /// The term, within its limit.
    pub value: i32,
    /// The value before it was cut to the limit.
    pub before: i32,
    /// Whether the value was cut, or there were no deviations to compute it from.
    pub outcome: Outcome,
}

/// The offset correction term (section 8.6.2): the midpoint of the offset values, cut to
/// `pOffsetCorrectionOut`, all in microticks (section 8.6.4); 0 and `Missing` exactly without values.
/// The list is put into another order.
pub fn offset_term(limit: i32, values: &mut List15) -> Term
    requires { IsBetween (pos 1) (pos 16000) limit }
    ensures term { IsOffsetTerm limit values.old result }
    ensures value { result ≡ offset_term_of limit values.old }
    ensures tells { TellsItsOutcome limit values.old result }
    ensures permutation { IsPermutation values.old values.new }
{
    match midpoint(values) {
        None => missing(0),
        Some(mid) => cut(limit, mid),
    }
}

/// The rate correction term (section 8.6.3): the midpoint of the rate values is added to the old term, the
/// sum is damped by `pClusterDriftDamping`, and then cut to `pRateCorrectionOut`, all in microticks
/// (section 8.6.4); the old term and `Missing` exactly without values. The list is put into another order.
pub fn rate_term(old: i32, damping: i32, limit: i32, values: &mut List15) -> Term
    requires old_within { IsWithin limit old }
    requires damping { IsBetween (pos 0) (pos 100) damping }
    requires limit { IsBetween (pos 1) (pos 2000) limit }
    ensures term { IsRateTerm old damping limit values.old result }
    ensures value { result ≡ rate_term_of old damping limit values.old }
    ensures tells { TellsItsOutcome limit values.old result }
    ensures permutation { IsPermutation values.old values.new }
{
    match midpoint(values) {
        None => missing(old),
        Some(mid) => cut(limit, rate_before(old, damping, mid)),
    }
}

// The term where there are no values: the one that is kept.
fn missing(kept: i32) -> Term
    ensures { result ≡ missing_term kept }
{
    Term {
        value: kept,
        before: kept,
        outcome: Outcome::Missing,
    }
}

// The term of a value before cutting.
fn cut(limit: i32, before: i32) -> Term
    requires { IsBetween (pos 1) (pos 16000) limit }
    ensures term { result ≡ term_of limit before }
    ensures never_missing { result.outcome ≢ Outcome.Missing }
    ensures exceeded { (result.outcome ≡ Outcome.Exceeded) ↔ IsOutside limit result.before }
    ensures within { IsWithin limit result.value }
{
    if before > limit {
        Term {
            value: limit,
            before,
            outcome: Outcome::Exceeded,
        }
    } else if before < -limit {
        Term {
            value: -limit,
            before,
            outcome: Outcome::Exceeded,
        }
    } else {
        Term {
            value: before,
            before,
            outcome: Outcome::Within,
        }
    }
}

// The rate term before cutting: the sum of the old term and the midpoint, damped.
fn rate_before(old: i32, damping: i32, mid: i32) -> i32
    requires old_within { IsWithin (pos 2000) old }
    requires damping { IsBetween (pos 0) (pos 100) damping }
    requires mid_within { IsWithin (pos most_value) mid }
    ensures { result ≡ damped damping (old +ℤ mid) }
{
    damp(damping, old + mid)
}

// A number taken toward 0 by the damping.
fn damp(damping: i32, x: i32) -> i32
    requires damping { IsBetween (pos 0) (pos 100) damping }
    ensures { result ≡ damped damping x }
{
    if x > damping {
        x - damping
    } else if x < -damping {
        x + damping
    } else {
        0
    }
}

/// The law that some values have one offset and one rate term, which are functions of them.
pub fn terms_are_unique()
    ensures offset { OffsetTermIsFound }
    ensures rate { RateTermIsFound }
{}

/// The law that some values have an offset and a rate term (sections 8.6.2 and 8.6.3): those that the
/// functions give.
pub fn terms_are_there()
    ensures offset { OffsetTermIsThere }
    ensures rate { RateTermIsThere }
{}

/// The law of cutting (section 8.6.4): a term lies within its limit.
pub fn terms_lie_within()
    ensures { TermLiesWithin }
{}
