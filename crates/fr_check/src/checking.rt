ghost use Rattle.std.specs.Prelude.{◌≡◌, ◌≤◌, ◌<◌, ◌+◌, ◌∷◌, [], nat_abs, pos, length, IfErr, IfOk, None, Some};
ghost use Rattle.fr_base.specs.Rows.{AreAscendingRows};
ghost use Rattle.fr_cluster.specs.Sane.{IsSane};
ghost use Rattle.fr_history.specs.Gauged.{GaugeHolds};
ghost use Rattle.fr_trace.specs.Cycles.{history_by, kept_of};
ghost use Rattle.fr_trace.specs.Fits.{TraceFits};
ghost use Rattle.fr_trace.specs.Items.{first_number};
ghost use Rattle.fr_trace.specs.Lasting.{IsTrace};
ghost use Rattle.fr_verdict.specs.Answer.{IsJudgement};
ghost use Rattle.fr_verdict.specs.OtherGaps.{IsOtherwiseCovered, IsRefusedOtherwise};
ghost use Rattle.fr_verdict.specs.Precision.{KeepsItsPrecision};
ghost use Rattle.fr_verdict.specs.Search.{first_breach_of};
ghost use Rattle.fr_verdict.specs.Sound.{AreSound, IsSound};
ghost use Rattle.fr_verdict.specs.Sync.{first_synced_of};
ghost use Rattle.fr_check.specs.Followed.{followed_by};

use crate::apart::{double_behind, may_follow};
use crate::control::Controls;
use crate::corrections::Corrections;
use crate::walk::pass_cycle;
use fr_base::{NodeRow, RowList};
use fr_cluster::Params;
use fr_skew::Gauge;
use fr_time::grid_of;
use fr_trace::{Trace, TracedCycle};
use fr_verdict::{Unlawful, Verdict, first_gap, first_other_gap};

/// Whether a trace of a cluster is that of a lawful run that the precision theorem covers.
///
/// Ok exactly where no record breaks a law and no gap is there: then the first double cycle in sync in which no node
/// that joins may follow, or that there is none, and the greatest skew of the recorded clocks in ticks with its first
/// cycle and macrotick; and from that double cycle on, where there is one, its clocks keep within the precision,
/// whoever joins. Else the first record that breaks a law, by its number and then by law, with what was kept and what
/// was expected; or, where none does, the first gap. It takes no memory.
pub fn check(params: &Params, trace: &Trace) -> Result<Verdict, Unlawful>
    requires fits { TraceFits params.now trace.now }
    ensures answer { IsJudgement params.now trace.now result }
    ensures precise { IfOk result (λ verdict. KeepsItsPrecision params.now trace.now verdict) }
{
    match gauged(params, trace) {
        Ok(gauge) => judged(params, trace, &gauge),
        Err(breach) => Err(breach),
    }
}

// What is told of a trace without a breach, by the gauge of its clocks.
fn judged(params: &Params, trace: &Trace, gauge: &Gauge) -> Result<Verdict, Unlawful>
    requires fits { TraceFits params.now trace.now }
    requires none { first_breach_of params.now trace.now ≡ None }
    requires holds { GaugeHolds params.now gauge.now (followed_by trace.now trace.now.history) }
    ensures answer { IsJudgement params.now trace.now result }
    ensures precise { IfOk result (λ verdict. KeepsItsPrecision params.now trace.now verdict) }
{
    standing(params, trace);
    match first_gap(params, trace, gauge.synced()) {
        Some(gap) => Err(Unlawful::Uncovered(gap)),
        None => Ok(verdict(gauge)),
    }
}

/// From which double cycle on a trace is in sync that is lawful and has no gap other than failed checks.
///
/// Ok exactly where no record breaks a law and no gap is there but of the checks: then the first double cycle in sync in
/// which no node that joins may follow, or that there is none. Else the first record that breaks a law, or the first gap
/// other than a failed check. It takes no memory.
pub fn check_otherwise(params: &Params, trace: &Trace) -> Result<Option<u32>, Unlawful>
    requires fits { TraceFits params.now trace.now }
    ensures covered { IfOk result (λ synced. IsOtherwiseCovered params.now trace.now) }
    ensures synced { IfOk result (λ synced. synced ≡ first_synced_of params.now trace.now) }
    ensures refused { IfErr result (λ why. IsRefusedOtherwise params.now trace.now why) }
{
    match gauged(params, trace) {
        Ok(gauge) => judged_otherwise(params, trace, &gauge),
        Err(breach) => Err(breach),
    }
}

fn judged_otherwise(params: &Params, trace: &Trace, gauge: &Gauge) -> Result<Option<u32>, Unlawful>
    requires none { first_breach_of params.now trace.now ≡ None }
    requires holds { GaugeHolds params.now gauge.now (followed_by trace.now trace.now.history) }
    ensures covered { IfOk result (λ synced. IsOtherwiseCovered params.now trace.now) }
    ensures synced { IfOk result (λ synced. synced ≡ first_synced_of params.now trace.now) }
    ensures refused { IfErr result (λ why. IsRefusedOtherwise params.now trace.now why) }
{
    standing(params, trace);
    let synced = gauge.synced();
    match first_other_gap(params, trace, synced) {
        Some(gap) => Err(Unlawful::Uncovered(gap)),
        None => Ok(synced),
    }
}

// What holds of all parameters and of all traces.
fn standing(params: &Params, trace: &Trace)
    ensures sane { IsSane params.now }
    ensures trace { IsTrace trace.now }
{
    let _nodes = &params.nodes;
    let _doubles = trace.doubles();
}

// What is told of a trace without a gap.
fn verdict(gauge: &Gauge) -> Verdict
    requires { 0 < gauge.now.added }
    ensures synced { result.synced ≡ gauge.now.synced }
    ensures peak { gauge.now.greatest ≡
        Some (record { skew = result.skew; cycle = result.cycle; macrotick = nat_abs result.macrotick }) }
    ensures macrotick { result.macrotick ≡ pos (nat_abs result.macrotick) }
{
    match gauge.greatest() {
        Some(peak) => Verdict {
            synced: gauge.synced(),
            skew: peak.skew,
            cycle: peak.cycle,
            macrotick: i64::from(peak.macrotick),
        },
        None => unreachable!(),
    }
}

// Copies the rows of a cycle.
fn fill(rows: &[NodeRow], list: &mut RowList)
    requires few { length rows.now ≤ 64 }
    requires ascend { AreAscendingRows rows.now }
    requires empty { list.old ≡ [] }
    ensures { list.new ≡ rows.now }
{
    for row in rows {
        list.push(*row);
    }
}

// Gathers the clocks of a cycle, by a list of rows that is filled anew.
fn gather(
    params: &Params,
    trace: &Trace,
    gauge: &mut Gauge,
    rows: &mut RowList,
    behind: &[TracedCycle],
    cycle: &TracedCycle,
)
    requires cycle { IsSound params.now (kept_of cycle.now) }
    requires few { length behind.now < 200_000 }
    requires holds { GaugeHolds params.now gauge.old (followed_by trace.now (history_by behind.now)) }
    ensures { GaugeHolds params.now gauge.new (followed_by trace.now (kept_of cycle.now ∷ history_by behind.now)) }
{
    let _grid = grid_of(params);
    rows.clear();
    fill(&cycle.rows, rows);
    gauge.add(rows, may_follow(trace, double_behind(behind)));
}

// The clocks of a trace, gathered while its records are passed in the order of their file, or its first breach.
fn gauged(params: &Params, trace: &Trace) -> Result<Gauge, Unlawful>
    requires fits { TraceFits params.now trace.now }
    ensures found { IfErr result (λ breach. first_breach_of params.now trace.now ≡ Some breach) }
    ensures none { IfOk result (λ gauge. first_breach_of params.now trace.now ≡ None) }
    ensures holds { IfOk result (λ gauge. GaugeHolds params.now gauge (followed_by trace.now trace.now.history)) }
{
    let cycles = sound_cycles(params, trace);
    let mut number = first_number(trace);
    let mut controls = Controls::new(params);
    let mut corrections = Corrections::new();
    let mut gauge = Gauge::new(params);
    let mut rows = RowList::new();
    for n in 0..cycles.len() {
        let behind = &cycles[..n];
        let cycle = &cycles[n];
        corrections.reach(params, behind, cycle);
        let synced = gauge.synced();
        match pass_cycle(
            params,
            trace,
            number,
            behind,
            cycle,
            &controls,
            &corrections,
            synced,
        ) {
            Ok(next) => number = next,
            Err(breach) => return Err(breach),
        }
        controls.pass(behind, cycle, &corrections);
        gather(params, trace, &mut gauge, &mut rows, behind, cycle);
    }
    Ok(gauge)
}

// The record number of the first row.
fn first_number(trace: &Trace) -> u64
    ensures value { result ≡ first_number trace.now }
    ensures most { result ≤ 130 }
{
    let _doubles = trace.doubles();
    2 + u64::from(trace.arbitrary()) + trace.joins().len() as u64
}

/// The cycles of a trace that fits its cluster, the earliest first.
pub fn sound_cycles<'a>(params: &Params, trace: &'a Trace) -> &'a [TracedCycle]
    requires { TraceFits params.now trace.now }
    ensures history { history_by result.now ≡ trace.now.history }
    ensures sound { AreSound params.now result.now }
    ensures few { length result.now ≤ 200_000 }
{
    let _nodes = &params.nodes;
    trace.cycles()
}
