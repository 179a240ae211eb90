ghost use Rattle.std.specs.Prelude.{◌≡◌, ◌≤◌, pos};
ghost use Rattle.fr_base.specs.Within.{IsBetween, IsWithin};
ghost use Rattle.fr_correct.specs.Terms.{offset_term_of, rate_term_of};
ghost use Rattle.fr_measure.specs.Readings.{reading};
ghost use Rattle.fr_measure.specs.Values.{offset_at, rate_at, values_of};

use crate::term::{Term, offset_term, rate_term};
use fr_cluster::{ParamName, Params};
use fr_measure::Table;
use fr_midpoint::List15;

// The limit of the offset term.
fn offset_limit(params: &Params) -> i32
    ensures value { result ≡ params.now.offset_limit }
    ensures within { IsBetween (pos 1) (pos 16000) result }
{
    params.value(ParamName::pOffsetCorrectionOut) as i32
}

// The limit of the rate term.
fn rate_limit(params: &Params) -> i32
    ensures value { result ≡ params.now.rate_limit }
    ensures within { IsBetween (pos 1) (pos 2000) result }
{
    params.value(ParamName::pRateCorrectionOut) as i32
}

// The damping of the rate term.
fn damping(params: &Params) -> i32
    ensures value { result ≡ params.now.damping }
    ensures within { IsBetween (pos 0) (pos 100) result }
{
    params.value(ParamName::pClusterDriftDamping) as i32
}

/// The offset term of the deviations in a table, for a node with this key index.
pub fn offset_term_from(params: &Params, table: &Table, own: Option<usize>) -> Term
    ensures value { result ≡ offset_term_of params.now.offset_limit
        (values_of (offset_at (reading table.now) own)) }
    ensures within { IsWithin params.now.offset_limit result.value }
{
    let mut values = List15::new();
    table.offset_values(own, &mut values);
    offset_term(offset_limit(params), &mut values)
}

/// The rate term of the deviations in a table, for a node with this key index and this old term.
pub fn rate_term_from(params: &Params, table: &Table, own: Option<usize>, old: i32) -> Term
    requires { IsWithin params.now.rate_limit old }
    ensures value { result ≡ rate_term_of old params.now.damping params.now.rate_limit
        (values_of (rate_at (reading table.now) own)) }
    ensures within { IsWithin params.now.rate_limit result.value }
{
    let mut values = List15::new();
    table.rate_values(own, &mut values);
    rate_term(old, damping(params), rate_limit(params), &mut values)
}
