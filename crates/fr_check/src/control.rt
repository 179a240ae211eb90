ghost use Rattle.std.specs.Prelude.{◌≡◌, ◌≢◌, ◌<◌, ◌≤◌, ◌∷◌, [], ℕ, All, List, length};
ghost use Rattle.fr_base.specs.Rows.{AreAscendingRows};
ghost use Rattle.fr_base.specs.declared.dev.Dev.{Dev};
ghost use Rattle.fr_cluster.specs.Values.{Values};
ghost use Rattle.fr_history.specs.History.{History};
ghost use Rattle.fr_history.specs.Terms.{status_in};
ghost use Rattle.fr_poc.specs.Control.{first_status, after_double, ArePocLimits};
ghost use Rattle.fr_trace.specs.Cycles.{history_by, kept_of};
ghost use Rattle.fr_check.specs.Controls.{control_at, HasStepped, Hold, ControlStands};
ghost use Rattle.fr_check.specs.Corrections.{AreCorrections, IsCorrection, correction_at};

use crate::corrections::Corrections;
use fr_base::{NodeId, NodeRow, Outcome, State};
use fr_cluster::Params;
use fr_poc::{Poc, PocLimits, poc_limits};
use fr_trace::TracedCycle;
use std::array;
use std::marker::Model;

// Operation control of each node, by its number.
#[derive(Debug, Drop)]
pub(crate) struct Controls {
    by_node: [Poc; 65],
}

impl Model for Controls {
    ghost use Rattle.std.specs.Prelude.{◌≡◌, List, length};
    ghost use Rattle.fr_poc.specs.Control.{Control};

    ghost Value = { List Control };

    ghost view = { λ controls. controls.by_node };

    ghost invariant = { λ controls. length controls.by_node ≡ 65 };
}

// A control under some limits.
fn any_control() -> Poc {
    Poc::new(PocLimits {
        passive: 1,
        fatal: 1,
        halt_allowed: false,
        to_active: 0,
    })
}

// Each node as it begins under these limits.
fn all_begun(limits: PocLimits) -> [Poc; 65]
    requires { ArePocLimits limits }
    ensures long { length result ≡ 65 }
    ensures each { (node : ℕ) → node < 65 → control_at result node ≡ record { limits = limits; status = first_status } }
{
    let mut by_node = array::from_fn(|_| any_control());
    for node in 0..65 {
        by_node[node] = Poc::new(limits);
    }
    by_node
}

impl Controls {
    // Each node as it begins.
    pub(crate) fn new(params: &Params) -> Controls
        ensures { Hold params.now [] result }
    {
        Controls {
            by_node: all_begun(poc_limits(params)),
        }
    }

    // The state of a node for the next double cycle.
    pub(crate) fn state(&self, node: NodeId) -> State
        ensures value { (p : Values) (h : History) → ControlStands p h self.now node →
            result ≡ (status_in p h node).state }
        ensures from { 1 ≤ node }
        ensures to { node ≤ 64 }
    {
        self.by_node[usize::from(node.0)].state()
    }

    // Takes a step of a node.
    fn step(&mut self, node: NodeId, offset: Outcome, rate: Outcome)
        ensures here { control_at self.new node ≡ after_double (control_at self.old node) offset rate }
        ensures others { (other : ℕ) → other ≢ node → control_at self.new other ≡ control_at self.old other }
    {
        self.by_node[usize::from(node.0)].step(offset, rate);
    }

    // Takes the step of the node of a row at the end of an odd cycle.
    fn end_of(&mut self, corrections: &Corrections, row: &NodeRow)
        ensures here { control_at self.new row.now.node ≡ after_double (control_at self.old row.now.node)
            (correction_at corrections.now row.now.node).offset.outcome
            (correction_at corrections.now row.now.node).rate.outcome }
        ensures others { (other : ℕ) → other ≢ row.now.node → control_at self.new other ≡ control_at self.old other }
    {
        let correction = corrections.of(row.node);
        self.step(row.node, correction.offset.outcome, correction.rate.outcome);
    }

    // Takes the steps of the nodes of all rows at the end of an odd cycle.
    fn end(&mut self, corrections: &Corrections, rows: &[NodeRow])
        requires { AreAscendingRows rows.now }
        ensures { (p : Values) (h : History) (odds : List Dev) →
            All (IsCorrection p h odds corrections.now) rows.now → Hold p h self.old →
            (node : ℕ) → 1 ≤ node → node ≤ 64 → HasStepped p h odds rows.now self.new node }
    {
        for row in rows {
            self.end_of(corrections, row);
        }
    }

    // Goes on behind one more cycle, with the terms of its rows if it is odd.
    pub(crate) fn pass(
        &mut self,
        behind: &[TracedCycle],
        cycle: &TracedCycle,
        corrections: &Corrections,
    )
        requires { AreAscendingRows cycle.now.rows.items }
        ensures { (p : Values) → AreCorrections p (history_by behind.now) (kept_of cycle.now) corrections.now →
            Hold p (history_by behind.now) self.old → Hold p (kept_of cycle.now ∷ history_by behind.now) self.new }
    {
        if behind.len() % 2 == 1 {
            self.end(corrections, &cycle.rows);
        }
    }
}
