ghost use Rattle.std.specs.Prelude.{◌≡◌, ◌≤◌, ◌&&◌, ◌+ℤ◌, ◌-ℤ◌, ◌*ℤ◌, int_le, pos, All, IfSome};
ghost use Rattle.std.specs.List.{list_all};
ghost use Rattle.fr_base.specs.Rows.{AreAscendingDevs};
ghost use Rattle.fr_base.specs.Timed.{IsLength, IsTimed};
ghost use Rattle.fr_base.specs.Within.{IsBetween, IsWithin};
ghost use Rattle.fr_bound.specs.Sync.{cycle_length_of};
ghost use Rattle.fr_measure.specs.Values.{change_of, least_of, mean_of};
ghost use Rattle.fr_midpoint.specs.Midpoint.{half_of_sum};
ghost use Rattle.fr_precision.specs.Rows.{end_of};
ghost use Rattle.fr_verdict.specs.Alike.{alike_offsets, alike_rates, are_both_near, is_near_all, is_said_alike_in, offset_place_in, rate_place_in, said_offset, said_rate, IsDevChange, IsRowEnd, IsValuePlace};
ghost use Rattle.fr_verdict.specs.SharpTraces.{recorded_flutter};

use crate::covering::dev_in;
use fr_base::{Channel, Dev, NodeId, NodeRow, Slot, ticks_of};
use fr_bound::{Flutter, arrival_error, longest_microtick, sharp_pi, steady_error};
use fr_cluster::{ParamName, Params};

/// By how much recorded deviations flutter at most, in ticks: by both errors of an arrival.
pub fn recorded_flutter(params: &Params) -> Flutter
    ensures value { result ≡ recorded_flutter params.now }
    ensures most { result ≤ 20_600_000 }
{
    Flutter(2 * arrival_error(params))
}

/// Whether the values of the node of a slot lie alike at all nodes with rows, by the deviations of both cycles.
pub fn is_said_alike_in(
    params: &Params,
    evens: &[Dev],
    odds: &[Dev],
    slot: Slot,
    rows: &[NodeRow],
) -> bool
    requires evens { AreAscendingDevs evens.now }
    requires odds { AreAscendingDevs odds.now }
    requires rows { All IsTimed rows.now }
    ensures { result ≡ is_said_alike_in params.now evens.now odds.now slot rows.now }
{
    lie_offsets_alike(params, odds, slot, rows) && lie_rates_alike(params, evens, odds, slot, rows)
}

// Whether the offset values of the node of a slot lie alike at all nodes with rows.
fn lie_offsets_alike(params: &Params, odds: &[Dev], slot: Slot, rows: &[NodeRow]) -> bool
    requires odds { AreAscendingDevs odds.now }
    requires rows { All IsTimed rows.now }
    ensures { result ≡
        list_all (is_near_all (alike_offsets params.now) (offset_place_in odds.now slot params.now) rows.now) rows.now }
{
    let mut all = true;
    for one in rows {
        all = all && is_offset_near_all(params, odds, slot, rows, one);
    }
    all
}

fn is_offset_near_all(
    params: &Params,
    odds: &[Dev],
    slot: Slot,
    rows: &[NodeRow],
    one: &NodeRow,
) -> bool
    requires odds { AreAscendingDevs odds.now }
    requires rows { All IsTimed rows.now }
    requires one { IsTimed one.now }
    ensures { result ≡
        is_near_all (alike_offsets params.now) (offset_place_in odds.now slot params.now) rows.now one.now }
{
    let bound = alike_offsets(params);
    let place = offset_place(params, odds, slot, one);
    let mut all = true;
    for other in rows {
        all = all && are_both_near(bound, place, offset_place(params, odds, slot, other));
    }
    all
}

// Whether its rate values do.
fn lie_rates_alike(
    params: &Params,
    evens: &[Dev],
    odds: &[Dev],
    slot: Slot,
    rows: &[NodeRow],
) -> bool
    requires evens { AreAscendingDevs evens.now }
    requires odds { AreAscendingDevs odds.now }
    requires rows { All IsTimed rows.now }
    ensures { result ≡
        list_all (is_near_all (alike_rates params.now) (rate_place_in evens.now odds.now slot params.now) rows.now)
        rows.now }
{
    let mut all = true;
    for one in rows {
        all = all && is_rate_near_all(params, evens, odds, slot, rows, one);
    }
    all
}

fn is_rate_near_all(
    params: &Params,
    evens: &[Dev],
    odds: &[Dev],
    slot: Slot,
    rows: &[NodeRow],
    one: &NodeRow,
) -> bool
    requires evens { AreAscendingDevs evens.now }
    requires odds { AreAscendingDevs odds.now }
    requires rows { All IsTimed rows.now }
    requires one { IsTimed one.now }
    ensures { result ≡
        is_near_all (alike_rates params.now) (rate_place_in evens.now odds.now slot params.now) rows.now one.now }
{
    let bound = alike_rates(params);
    let place = rate_place(params, evens, odds, slot, one);
    let mut all = true;
    for other in rows {
        all = all && are_both_near(bound, place, rate_place(params, evens, odds, slot, other));
    }
    all
}

// How near the offset values of one correct sender lie at any two receivers in sync without arbitrary nodes, in ticks.
fn alike_offsets(params: &Params) -> u64
    ensures value { result ≡ alike_offsets params.now }
    ensures most { result ≤ 43_000_000_000 }
{
    let pi = sharp_pi(params, false, recorded_flutter(params));
    pi.saturating_sub(longest_microtick(params))
}

// And its rate values.
fn alike_rates(params: &Params) -> u64
    ensures value { result ≡ alike_rates params.now }
    ensures most { result ≤ 43_000_000_000 }
{
    2 * steady_error(params, recorded_flutter(params))
}

// Whether neither of two places is there, or both are and lie so near.
fn are_both_near(bound: u64, one: Option<i64>, other: Option<i64>) -> bool
    requires bound { bound ≤ 43_000_000_000 }
    requires one { IfSome one IsValuePlace }
    requires other { IfSome other IsValuePlace }
    ensures { result ≡ are_both_near bound one other }
{
    match one {
        None => other.is_none(),
        Some(one) => match other {
            None => false,
            Some(other) => are_near(bound as i64, one, other),
        },
    }
}

fn are_near(bound: i64, one: i64, other: i64) -> bool
    requires one { IsValuePlace one }
    requires other { IsValuePlace other }
    ensures { result ≡ (int_le (one -ℤ other) bound && int_le (other -ℤ one) bound) }
{
    difference(one, other) <= bound && difference(other, one) <= bound
}

fn difference(one: i64, other: i64) -> i64
    requires one { IsValuePlace one }
    requires other { IsValuePlace other }
    ensures { result ≡ one -ℤ other }
{
    one - other
}

// ---- places

// Where the offset value of the node of a slot lies, in ticks: so many microticks behind the end of the receiver's odd row.
fn offset_place(params: &Params, odds: &[Dev], slot: Slot, row: &NodeRow) -> Option<i64>
    requires odds { AreAscendingDevs odds.now }
    requires row { IsTimed row.now }
    ensures value { result ≡ offset_place_in odds.now slot params.now row.now }
    ensures within { IfSome result IsValuePlace }
{
    match said_offset(odds, row.node, slot) {
        None => None,
        Some(value) => Some(placed(end_of(params, row), i64::from(value), row.length)),
    }
}

// Where its rate value does: so many above the length of that row.
fn rate_place(
    params: &Params,
    evens: &[Dev],
    odds: &[Dev],
    slot: Slot,
    row: &NodeRow,
) -> Option<i64>
    requires evens { AreAscendingDevs evens.now }
    requires odds { AreAscendingDevs odds.now }
    requires row { IsTimed row.now }
    ensures value { result ≡ rate_place_in evens.now odds.now slot params.now row.now }
    ensures within { IfSome result IsValuePlace }
{
    match said_rate(evens, odds, row.node, slot) {
        None => None,
        Some(value) => Some(placed(length_as_end(params, row), value, row.length)),
    }
}

fn placed(base: i64, value: i64, length: i64) -> i64
    requires base { IsRowEnd base }
    requires value { IsDevChange value }
    requires length { IsLength length }
    ensures value { result ≡ base +ℤ (value *ℤ length) }
    ensures within { IsValuePlace result }
{
    sum(base, ticks(value, length))
}

fn sum(base: i64, ticks: i64) -> i64
    requires base { IsRowEnd base }
    requires ticks { IsWithin (pos 6_442_450_944_000_000) ticks }
    ensures value { result ≡ base +ℤ ticks }
    ensures within { IsValuePlace result }
{
    base + ticks
}

// What so many microticks of a length are, in ticks.
fn ticks(count: i64, length: i64) -> i64
    requires count { IsDevChange count }
    requires length { IsLength length }
    ensures value { result ≡ count *ℤ length }
    ensures within { IsWithin (pos 6_442_450_944_000_000) result }
{
    count * length
}

fn end_of(params: &Params, row: &NodeRow) -> i64
    requires { IsTimed row.now }
    ensures value { result ≡ end_of params.now row.now }
    ensures within { IsRowEnd result }
{
    end_behind(row.start, cycle_length(params, row))
}

fn end_behind(start: i64, length: i64) -> i64
    requires start { IsBetween (pos 0) (pos 1_110_000_000_000_000_000) start }
    requires length { IsWithin (pos 3_300_000_000_000_000) length }
    ensures value { result ≡ start +ℤ length }
    ensures within { IsRowEnd result }
{
    start + length
}

fn length_as_end(params: &Params, row: &NodeRow) -> i64
    requires { IsTimed row.now }
    ensures value { result ≡ cycle_length_of params.now row.now }
    ensures within { IsRowEnd result }
{
    end_behind(0, cycle_length(params, row))
}

// The length of a row's cycle before its offset term.
fn cycle_length(params: &Params, row: &NodeRow) -> i64
    requires { IsTimed row.now }
    ensures value { result ≡ cycle_length_of params.now row.now }
    ensures within { IsWithin (pos 3_300_000_000_000_000) result }
{
    ticks_of(with_rate(micros(params), row.rate), row.length)
}

fn micros(params: &Params) -> i64
    ensures value { result ≡ params.now.micros }
    ensures within { IsBetween (pos 0) (pos 640_000) result }
{
    params.value(ParamName::pMicroPerCycle)
}

fn with_rate(micros: i64, rate: i32) -> i64
    requires { IsBetween (pos 0) (pos 640_000) micros }
    ensures value { result ≡ micros +ℤ rate }
    ensures within { IsWithin (pos 2_200_000_000) result }
{
    micros + rate as i64
}

// ---- values

// The offset value that a receiver has of the node of a slot, in microticks.
fn said_offset(odds: &[Dev], receiver: NodeId, slot: Slot) -> Option<i32>
    requires { AreAscendingDevs odds.now }
    ensures { result ≡ said_offset odds.now receiver slot }
{
    least(
        dev_in(odds, receiver, slot, Channel::A),
        dev_in(odds, receiver, slot, Channel::B),
    )
}

// Its rate value.
fn said_rate(evens: &[Dev], odds: &[Dev], receiver: NodeId, slot: Slot) -> Option<i64>
    requires evens { AreAscendingDevs evens.now }
    requires odds { AreAscendingDevs odds.now }
    ensures value { result ≡ said_rate evens.now odds.now receiver slot }
    ensures within { IfSome result IsDevChange }
{
    mean(
        change(
            dev_in(evens, receiver, slot, Channel::A),
            dev_in(odds, receiver, slot, Channel::A),
        ),
        change(
            dev_in(evens, receiver, slot, Channel::B),
            dev_in(odds, receiver, slot, Channel::B),
        ),
    )
}

fn least(a: Option<i32>, b: Option<i32>) -> Option<i32>
    ensures { result ≡ least_of a b }
{
    match (a, b) {
        (Some(x), Some(y)) => Some(x.min(y)),
        (Some(x), None) => Some(x),
        (None, b) => b,
    }
}

fn change(even: Option<i32>, odd: Option<i32>) -> Option<i64>
    ensures value { result ≡ change_of even odd }
    ensures within { IfSome result IsDevChange }
{
    match (even, odd) {
        (Some(x), Some(y)) => Some(rise(x, y)),
        _ => None,
    }
}

// The later deviation less the earlier one.
fn rise(even: i32, odd: i32) -> i64
    ensures value { result ≡ odd -ℤ even }
    ensures within { IsDevChange result }
{
    odd as i64 - even as i64
}

fn mean(a: Option<i64>, b: Option<i64>) -> Option<i64>
    requires a { IfSome a IsDevChange }
    requires b { IfSome b IsDevChange }
    ensures value { result ≡ mean_of a b }
    ensures within { IfSome result IsDevChange }
{
    match (a, b) {
        (Some(x), Some(y)) => Some(half_sum(x, y)),
        (Some(x), None) => Some(x),
        (None, b) => b,
    }
}

// Half of the sum of two values, truncated toward zero.
fn half_sum(low: i64, high: i64) -> i64
    requires low { IsDevChange low }
    requires high { IsDevChange high }
    ensures value { result ≡ half_of_sum low high }
    ensures within { IsDevChange result }
{
    (low + high) / 2
}
