ghost use Rattle.std.specs.Prelude.{◌≡◌, ◌≢◌, All, ℕ};
ghost use Rattle.fr_base.specs.Within.{IsWithin};
ghost use Rattle.fr_trace.specs.Cycles.{history_by, kept_of};
ghost use Rattle.fr_verdict.specs.Sound.{AreSound, IsSound};
ghost use Rattle.fr_check.specs.Corrections.{AreCorrections, AreLatest, IsCorrection, correction_at, correction_of};

use crate::past::latest_devs;
use crate::terms::terms_of;
use fr_base::{NodeId, NodeRow, Outcome};
use fr_cluster::Params;
use fr_correct::Term;
use fr_trace::TracedCycle;
use std::marker::Model;

// Both correction terms of a node at the end of an odd cycle.
#[derive(Clone, Copy, Debug, PartialEq, Eq)]
pub(crate) struct Correction {
    pub(crate) offset: Term,
    pub(crate) rate: Term,
}

// Those of each node, by its number.
#[derive(Debug, Drop)]
pub(crate) struct Corrections {
    by_node: [Correction; 65],
}

impl Model for Corrections {
    ghost use Rattle.std.specs.Prelude.{◌≡◌, List, length};
    ghost use Rattle.fr_check.specs.declared.corrections.Correction.{Correction as Both};

    ghost Value = { List Both };

    ghost view = { λ corrections. corrections.by_node };

    ghost invariant = { λ corrections. length corrections.by_node ≡ 65 };
}

// The term of no deviations.
const NO_TERM: Term = Term {
    value: 0,
    before: 0,
    outcome: Outcome::Missing,
};

impl Corrections {
    // None computed yet.
    pub(crate) fn new() -> Corrections {
        let none = Correction {
            offset: NO_TERM,
            rate: NO_TERM,
        };
        Corrections {
            by_node: [none; 65],
        }
    }

    // The terms of a node.
    pub(crate) fn of(&self, node: NodeId) -> Correction
        ensures { result ≡ correction_at self.now node }
    {
        self.by_node[usize::from(node.0)]
    }

    // Keeps the terms of a node.
    fn put(&mut self, node: NodeId, correction: Correction)
        ensures here { correction_at self.new node ≡ correction }
        ensures others { (other : ℕ) → other ≢ node → correction_at self.new other ≡ correction_at self.old other }
    {
        self.by_node[usize::from(node.0)] = correction;
    }

    // Computes those of all rows of an odd cycle.
    fn compute(&mut self, params: &Params, behind: &[TracedCycle], cycle: &TracedCycle)
        requires behind { AreSound params.now behind.now }
        requires cycle { IsSound params.now (kept_of cycle.now) }
        ensures { All
            (IsCorrection params.now (history_by behind.now) cycle.now.devs.items self.new) cycle.now.rows.items }
    {
        for row in &cycle.rows {
            self.put(row.node, both_terms(params, behind, cycle, row));
        }
    }

    // Goes on to a cycle: at an odd one, its terms take the place of those before.
    pub(crate) fn reach(&mut self, params: &Params, behind: &[TracedCycle], cycle: &TracedCycle)
        requires behind { AreSound params.now behind.now }
        requires cycle { IsSound params.now (kept_of cycle.now) }
        requires latest { AreLatest params.now (history_by behind.now) self.old }
        ensures latest { AreLatest params.now (history_by behind.now) self.new }
        ensures here { AreCorrections params.now (history_by behind.now) (kept_of cycle.now) self.new }
    {
        if behind.len() % 2 == 1 {
            self.compute(params, behind, cycle);
        }
    }
}

// Both terms of the node of a row at the end of an odd cycle.
fn both_terms(
    params: &Params,
    behind: &[TracedCycle],
    cycle: &TracedCycle,
    row: &NodeRow,
) -> Correction
    requires behind { AreSound params.now behind.now }
    requires cycle { IsSound params.now (kept_of cycle.now) }
    requires row { IsWithin params.now.rate_limit row.now.rate }
    ensures { result ≡ correction_of params.now (history_by behind.now) cycle.now.devs.items row.now }
{
    let evens = latest_devs(behind);
    let (offset, rate) = terms_of(params, evens, &cycle.devs, row);
    Correction { offset, rate }
}
