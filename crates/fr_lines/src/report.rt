ghost use Rattle.std.specs.Prelude.{◌≡◌, ◌<◌, [], ◌∷◌};
ghost use Rattle.std.specs.Result.{result_err};
ghost use Rattle.fr_cluster.specs.Values.{Values};
ghost use Rattle.fr_coverage.specs.Decided.{setting_of};
ghost use Rattle.fr_history.specs.Cycles.{Cycle, Cycles};
ghost use Rattle.fr_lines.specs.Clocks.{AreClocksBehind, clock_behind};
ghost use Rattle.fr_lines.specs.Held.{with_cycle, IsGreatestTold, IsRowToAdd, IsSyncTold, ReportHolds, TellsOf};
ghost use Rattle.fr_lines.specs.Told.{run_told};

use crate::clocks::{Clock, ClockList, last_offset};
use crate::counting::{arbitrary_count, sync_count};
use crate::rows::{cuts, keep_odd};
use crate::told::Told;
use fr_base::{Counts, CycleRow, NodeId, RowList, State};
use fr_bound::bounds;
use fr_cluster::Params;
use fr_coverage::Gap;
use fr_drift::Drift;
use fr_script::Script;
use fr_skew::Gauge;
use std::marker::Model;

/// What is told of a run, gathered cycle by cycle: it keeps none of them.
#[derive(Debug, Drop)]
pub struct Report {
    gauge: Gauge,
    odd: RowList,
    sums: Counts,
    cut: u64,
}

impl Model for Report {
    ghost use Rattle.fr_lines.specs.Held.{IsReport, ReportView};

    ghost Value = { ReportView };

    ghost view = { λ r. record { gauge = r.gauge; odd = r.odd; sums = r.sums; cut = r.cut } };

    ghost invariant = { λ r. IsReport (record { gauge = r.gauge; odd = r.odd; sums = r.sums; cut = r.cut }) };
}

impl Report {
    /// A report of no cycle.
    pub fn new(params: &Params) -> Report
        ensures { ReportHolds params.now result [] }
    {
        Report {
            gauge: Gauge::new(params),
            odd: RowList::new(),
            sums: Counts::none(),
            cut: 0,
        }
    }

    /// Adds the row of the next cycle, and whether a node follows in it. Of cycles that the report held, it then
    /// holds these and one more of which that tells.
    pub fn add(&mut self, row: &CycleRow, following: bool)
        requires { IsRowToAdd self.old row.now }
        ensures { (p : Values) (h : Cycles) (c : Cycle) → TellsOf row.now following c →
            ReportHolds p self.old h → ReportHolds p self.new (c ∷ h) }
    {
        self.gather(row, following);
    }

    fn gather(&mut self, row: &CycleRow, following: bool)
        requires { IsRowToAdd self.old row.now }
        ensures { self.new ≡ with_cycle self.old row.now following }
    {
        self.gauge.add(&row.rows, following);
        keep_odd(row.cycle, &row.rows, &mut self.odd);
        self.sums = self.sums.plus(&row.counts);
        self.cut += cuts(row.rows.as_slice());
    }

    /// The clock of a node between cycles, by its state, its start in ticks and its rate term in microticks for the cycle
    /// that comes next: its offset term is that of the last odd cycle.
    pub fn clock(&self, node: NodeId, state: State, start: i64, rate: i32) -> Clock
        ensures { result ≡ clock_behind self.now.odd node state start rate }
    {
        Clock {
            node,
            state,
            start,
            rate,
            offset: last_offset(self.odd.as_slice(), node),
        }
    }

    /// What is told of a run of these parameters, drift and script, with its first gap where it is not covered, and with
    /// the clocks behind its last cycle. Of cycles that the report holds it is what is told of them, where these are the
    /// clocks behind them.
    pub fn told(
        &self,
        params: &Params,
        drift: &Drift,
        script: &Script,
        gap: Result<(), Gap>,
        clocks: ClockList,
    ) -> Told
        ensures { (h : Cycles) → ReportHolds params.now self.now h →
            AreClocksBehind (setting_of params.now drift.now script.now) h clocks →
            result ≡ run_told (setting_of params.now drift.now script.now) (result_err gap) h }
    {
        Told {
            nodes: params.nodes.len() as u64,
            sync: sync_count(&params.nodes) as u64,
            arbitrary: arbitrary_count(&params.nodes, script) as u64,
            doubles: drift.doubles(),
            precision: bounds(params).precision as u64,
            gap: gap.err(),
            synced: self.gauge.synced(),
            greatest: self.gauge.greatest(),
            sums: self.sums,
            cut: self.cut,
            clocks,
        }
    }

    /// The greatest skew so far in ticks, and the cycle and the macrotick at which it first occurs.
    pub fn greatest(&self) -> (i64, u32, i64)
        requires { 0 < self.now.gauge.added }
        ensures { IsGreatestTold self.now result.0 result.1 result.2 }
    {
        match self.gauge.greatest() {
            Some(peak) => (peak.skew, peak.cycle, i64::from(peak.macrotick)),
            None => unreachable!(),
        }
    }

    /// The first double cycle in which the clocks were in sync and no node followed; None exactly where there was
    /// none among the complete ones.
    pub fn synced(&self) -> Option<u32>
        ensures value { result ≡ self.now.gauge.synced }
        ensures told { IsSyncTold self.now result }
    {
        self.gauge.synced()
    }
}
