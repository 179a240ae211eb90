ghost use Rattle.std.specs.Prelude.{◌≡◌, ◌<◌, length, IfSome, Some};
ghost use Rattle.std.specs.Option.{option_copied};
ghost use Rattle.fr_cluster.specs.Values.{Values};
ghost use Rattle.fr_history.specs.History.{Record, row_of};
ghost use Rattle.fr_history.specs.Rows.{is_corrected, offset_after, rate_by};
ghost use Rattle.fr_time.specs.Instant.{KeepsLimits};
ghost use Rattle.fr_trace.specs.Cycles.{history_by, kept_of};
ghost use Rattle.fr_trace.specs.Items.{Item};
ghost use Rattle.fr_verdict.specs.Breach.{rate_from, start_from, traced_rate, traced_start};
ghost use Rattle.fr_check.specs.Controls.{Hold};
ghost use Rattle.fr_check.specs.Corrections.{AreCorrections, AreLatest, IsNoted};
ghost use Rattle.fr_verdict.specs.Search.{breach_at, is_same_number, turned, unless, wrong_start};
ghost use Rattle.fr_verdict.specs.declared.unlawful.Unlawful.TheVariants as unlawful;
ghost use Rattle.fr_verdict.specs.Sound.{AreSound};
ghost use Rattle.fr_check.specs.Followed.{Foretells};

use crate::apart::apart_row;
use crate::control::Controls;
use crate::corrections::Corrections;
use crate::first::first_of;
use crate::past::{any_row, last_cycle, sound_row};
use fr_base::{NodeRow, State};
use fr_cluster::Params;
use fr_time::next_start;
use fr_trace::{Trace, TracedCycle};
use fr_verdict::Unlawful;

// Whether a row's cycle, which comes after some cycles, ends with corrections.
fn is_corrected(behind: &[TracedCycle], row: &NodeRow) -> bool
    ensures { result ≡ is_corrected (history_by behind.now) row.now }
{
    behind.len() % 2 == 1 && !row.state.is_halted()
}

// The start by the row of the cycle before: the first row of a node may start anywhere.
fn start_from(params: &Params, row: &NodeRow, before: Option<&NodeRow>) -> i64
    requires { IfSome before (λ row. KeepsLimits params.now row.now) }
    ensures { result ≡ start_from params.now row.now (option_copied before.entry) }
{
    match before {
        None => row.start,
        Some(before) => next_start(params, before),
    }
}

// The start that a row must have behind some cycles.
fn start_behind(params: &Params, behind: &[TracedCycle], row: &NodeRow) -> i64
    requires { AreSound params.now behind.now }
    ensures { result ≡ traced_start params.now (history_by behind.now) row.now }
{
    match last_cycle(behind) {
        None => row.start,
        Some((before, _)) => start_from(params, row, sound_row(params, before, row.node)),
    }
}

// The rate that follows a row of the last cycle, by the terms that are kept of it.
fn rate_after(earlier: &[TracedCycle], before: &NodeRow, corrections: &Corrections) -> i32
    ensures { (p : Values) (last : Record) → IsNoted p (history_by earlier.now) last corrections.now before.now →
        result ≡ rate_by p (history_by earlier.now) last (Some before.now) }
{
    if is_corrected(earlier, before) {
        corrections.of(before.node).rate.value
    } else {
        before.rate
    }
}

// The rate by the row of the cycle before: the first row of a node may have any.
fn rate_from(
    earlier: &[TracedCycle],
    last: &TracedCycle,
    row: &NodeRow,
    corrections: &Corrections,
) -> i32
    ensures { (p : Values) → AreCorrections p (history_by earlier.now) (kept_of last.now) corrections.now →
        result ≡ rate_from p (history_by earlier.now) (kept_of last.now) row.now
        (row_of last.now.rows.items row.now.node) }
{
    match any_row(last, row.node) {
        None => row.rate,
        Some(before) => rate_after(earlier, before, corrections),
    }
}

// The rate that a row must have behind some cycles.
fn rate_behind(behind: &[TracedCycle], row: &NodeRow, corrections: &Corrections) -> i32
    ensures { (p : Values) → AreLatest p (history_by behind.now) corrections.now →
        result ≡ traced_rate p (history_by behind.now) row.now }
{
    match last_cycle(behind) {
        None => row.rate,
        Some((last, earlier)) => rate_from(earlier, last, row, corrections),
    }
}

// The offset that a row of a cycle must have behind some cycles, by the terms that are kept of the cycle.
fn offset_after(behind: &[TracedCycle], row: &NodeRow, corrections: &Corrections) -> i32
    ensures { (p : Values) (here : Record) → IsNoted p (history_by behind.now) here corrections.now row.now →
        result ≡ offset_after p (history_by behind.now) here row.now }
{
    if is_corrected(behind, row) {
        corrections.of(row.node).offset.value
    } else {
        0
    }
}

fn wrong_start(
    params: &Params,
    number: u64,
    behind: &[TracedCycle],
    row: &NodeRow,
) -> Option<Unlawful>
    requires { AreSound params.now behind.now }
    ensures { result ≡ wrong_start params.now number (history_by behind.now) row.now }
{
    let wanted = start_behind(params, behind, row);
    if row.start == wanted {
        None
    } else {
        Some(Unlawful::Start {
            number,
            kept: row.start,
            wanted,
        })
    }
}

fn wrong_rate(number: u64, kept: i32, wanted: i32) -> Option<Unlawful>
    ensures { result ≡ unless (is_same_number kept wanted) (unlawful.Rate number kept wanted) }
{
    if kept == wanted {
        None
    } else {
        Some(Unlawful::Rate {
            number,
            kept,
            wanted,
        })
    }
}

fn wrong_turn(number: u64, kept: State, wanted: State) -> Option<Unlawful>
    ensures { result ≡ turned number kept wanted }
{
    if kept == wanted {
        None
    } else {
        Some(Unlawful::Turn {
            number,
            kept,
            wanted,
        })
    }
}

fn wrong_offset(number: u64, kept: i32, wanted: i32) -> Option<Unlawful>
    ensures { result ≡ unless (is_same_number kept wanted) (unlawful.Offset number kept wanted) }
{
    if kept == wanted {
        None
    } else {
        Some(Unlawful::Offset {
            number,
            kept,
            wanted,
        })
    }
}

// The first law that a row breaks, with its record number, by the cycles behind it, the terms that are kept of its own,
// and the first double cycle in sync behind it.
pub(crate) fn row_breach(
    params: &Params,
    trace: &Trace,
    number: u64,
    behind: &[TracedCycle],
    row: &NodeRow,
    controls: &Controls,
    corrections: &Corrections,
    synced: Option<u32>,
) -> Option<Unlawful>
    requires few { length behind.now < 200_000 }
    requires behind { AreSound params.now behind.now }
    requires foretells { Foretells params.now trace.now (history_by behind.now) synced }
    requires hold { Hold params.now (history_by behind.now) controls.now }
    requires latest { AreLatest params.now (history_by behind.now) corrections.now }
    ensures { (here : Record) → IsNoted params.now (history_by behind.now) here corrections.now row.now →
        result ≡ breach_at params.now trace.now number (Item.Clock (history_by behind.now) here row.now) }
{
    let start = wrong_start(params, number, behind, row);
    let rate = wrong_rate(number, row.rate, rate_behind(behind, row, corrections));
    let turn = wrong_turn(number, row.state, controls.state(row.node));
    let offset = wrong_offset(number, row.offset, offset_after(behind, row, corrections));
    let apart = apart_row(params, trace, number, behind, row, synced);
    first_of(
        first_of(first_of(first_of(start, rate), turn), offset),
        apart,
    )
}
