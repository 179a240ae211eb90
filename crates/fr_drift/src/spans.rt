ghost use Rattle.std.specs.Prelude.{◌≡◌, ◌<◌, ◌≤◌, ℕ, None, IsSome, false};
ghost use Rattle.std.specs.Ordering.{is_gt};
ghost use Rattle.std.specs.BTreeMap.{get};
ghost use Rattle.fr_drift.specs.Keys.{delay_cmp, delay_key, length_cmp, length_key};
ghost use Rattle.fr_drift.specs.Spans.{IsFirstIn, IsLastIn};
ghost use Rattle.fr_drift.specs.Held.{held, IsNextRow};

use crate::keys::{DelayKey, LengthKey};
use fr_base::NodeId;
use std::collections::BTreeMap;

// The last key from `first` to `last` that has a number, with it.
fn last_in<K: Ord + Copy>(rows: &BTreeMap<K, i64>, first: K, last: K) -> Option<(K, i64)>
    requires { is_gt (K.cmp first last) ≡ false }
    ensures { IsLastIn K.cmp (get K.cmp rows.now) first last result }
{
    match rows.range(first..=last).next_back() {
        Some((key, ticks)) => Some((*key, *ticks)),
        None => None,
    }
}

// The first key from `first` to `last` that has a number.
fn first_in<K: Ord + Copy>(rows: &BTreeMap<K, i64>, first: K, last: K) -> Option<K>
    requires { is_gt (K.cmp first last) ≡ false }
    ensures { IsFirstIn K.cmp (get K.cmp rows.now) first last result }
{
    match rows.range(first..=last).next() {
        Some((key, _)) => Some(*key),
        None => None,
    }
}

// The length of a node's microtick that holds in a cycle, None where no row holds.
pub(crate) fn held_length(rows: &BTreeMap<LengthKey, i64>, node: NodeId, cycle: u32) -> Option<i64>
    ensures { result ≡ held (λ from. get length_cmp rows.now (length_key node from)) cycle }
{
    let first = LengthKey { node, from: 0 };
    let last = LengthKey { node, from: cycle };
    match last_in(rows, first, last) {
        Some((_, ticks)) => Some(ticks),
        None => None,
    }
}

// The delay of a link that holds in a cycle, None where no row holds.
pub(crate) fn held_delay(
    rows: &BTreeMap<DelayKey, i64>,
    sender: NodeId,
    receiver: NodeId,
    cycle: u32,
) -> Option<i64>
    ensures { result ≡ held (λ from. get delay_cmp rows.now (delay_key sender receiver from)) cycle }
{
    let first = DelayKey {
        sender,
        receiver,
        from: 0,
    };
    let last = DelayKey {
        sender,
        receiver,
        from: cycle,
    };
    match last_in(rows, first, last) {
        Some((_, ticks)) => Some(ticks),
        None => None,
    }
}

// The first cycle after `cycle` and before `end` at which a row of the node stands, else `end`.
pub(crate) fn next_length_row(
    rows: &BTreeMap<LengthKey, i64>,
    node: NodeId,
    cycle: u32,
    end: u32,
) -> u32
    requires { cycle < end }
    ensures { IsNextRow (λ from. get length_cmp rows.now (length_key node from)) cycle end result }
{
    let first = LengthKey {
        node,
        from: cycle + 1,
    };
    let last = LengthKey { node, from: end };
    match first_in(rows, first, last) {
        Some(key) => key.from,
        None => end,
    }
}

// The first cycle after `cycle` and before `end` at which a row of the link stands, else `end`.
pub(crate) fn next_delay_row(
    rows: &BTreeMap<DelayKey, i64>,
    sender: NodeId,
    receiver: NodeId,
    cycle: u32,
    end: u32,
) -> u32
    requires { cycle < end }
    ensures { IsNextRow (λ from. get delay_cmp rows.now (delay_key sender receiver from)) cycle end result }
{
    let first = DelayKey {
        sender,
        receiver,
        from: cycle + 1,
    };
    let last = DelayKey {
        sender,
        receiver,
        from: end,
    };
    match first_in(rows, first, last) {
        Some(key) => key.from,
        None => end,
    }
}
