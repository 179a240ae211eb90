ghost use Rattle.std.specs.Prelude.{◌≡◌, ◌<◌, ◌+◌};
ghost use Rattle.fr_cold.specs.Node.{is_leading};
ghost use Rattle.fr_cold.specs.View.{PowerView};
ghost use Rattle.fr_cold.specs.Questions.{macroticks_of_run, switches_of};
ghost use Rattle.fr_cold.specs.Leads.{lead_at, leads_of};
ghost use Rattle.fr_cold.specs.Cold.{StandsForStartup, TellsLead, leads_left, state_in};
ghost use Rattle.fr_cold.specs.Events.{IsNextBeginner, IsSkipped, Steps};

use crate::power::Power;
use crate::table::StateTable;
use crate::ticks::{cycle_length, end_tick, make_ready, move_all, next_event, switch_of};
use crate::{is_leading, resolves};
use fr_base::NodeId;
use fr_cluster::Params;
use std::marker::Model;

/// A node that begins to lead, and the macrotick at which it does, counted from the begin of the run.
#[derive(Clone, Copy, Debug, PartialEq, Eq)]
pub struct Lead {
    /// The node.
    pub node: NodeId,
    /// The macrotick.
    pub at: i64,
}

/// The startup of a cluster at a moment of its run. The moment may lie between two begins at one macrotick.
#[derive(Drop)]
pub struct Cold {
    at: u32,
    told: u8,
    table: StateTable,
}

impl Model for Cold {
    ghost use Rattle.std.specs.Prelude.{◌≤◌};
    ghost use Rattle.fr_cold.specs.Cold.{ColdView};
    ghost use Rattle.fr_cold.specs.Rows.{most_tick};

    ghost Value = { ColdView };

    ghost view = { λ a. record { at = a.at; told = a.told; states = a.table } };

    ghost invariant = { λ a. (a.at ≤ most_tick) × (a.told ≤ 64) };
}

impl Cold {
    /// The startup before macrotick 0, when all nodes are off. It stands for the run of every power file.
    pub fn new(_params: &Params) -> Cold
        ensures stands { (v : PowerView) → StandsForStartup _params.now v result }
        ensures rest { (v : PowerView) → leads_left _params.now v result ≡ leads_of _params.now v }
    {
        Cold {
            at: 0,
            told: 0,
            table: StateTable::new(),
        }
    }

    /// The next begin of leading, by time and then by node; None exactly where no further one comes before the end
    /// of the run. It goes from event to event: its time does not depend on how long nothing happens.
    pub fn next(&mut self, params: &Params, power: &Power) -> Option<Lead>
        requires { StandsForStartup params.now power.now self.old }
        ensures stands { StandsForStartup params.now power.now self.new }
        ensures tells { TellsLead params.now power.now self.old self.new result }
    {
        let end = end_tick(params, power);
        while self.at < end {
            let lead = self.step(params, power);
            if lead.is_some() {
                return lead;
            }
        }
        None
    }

    /// Whether a node leads after the macroticks below that of the last begin that was told; once `next` answered
    /// None, at the end of the run.
    pub fn leads(&self, node: NodeId) -> bool
        ensures { result ≡ is_leading (state_in self.now.states node) }
    {
        is_leading(self.table.get(node))
    }

    // The next begin of leading at this macrotick, or on to the next event.
    fn step(&mut self, params: &Params, power: &Power) -> Option<Lead>
        requires stands { StandsForStartup params.now power.now self.old }
        requires within { self.old.at < macroticks_of_run params.now power.now }
        ensures stands { StandsForStartup params.now power.now self.new }
        ensures steps { Steps params.now power.now self.old self.new result }
    {
        match self.beginner(params, power) {
            Some(node) => Some(self.tell(node)),
            None => {
                self.pass(params, power);
                self.skip(params, power);
                None
            }
        }
    }

    fn tell(&mut self, node: NodeId) -> Lead
        ensures lead { result ≡ lead_at self.old.at node }
        ensures at { self.new.at ≡ self.old.at }
        ensures told { self.new.told ≡ node }
        ensures states { self.new.states ≡ self.old.states }
    {
        self.told = node.0;
        Lead {
            node,
            at: i64::from(self.at),
        }
    }

    // The first node after the one told last that begins to lead at the next macrotick.
    fn beginner(&self, params: &Params, power: &Power) -> Option<NodeId>
        requires { StandsForStartup params.now power.now self.now }
        ensures { IsNextBeginner params.now (switches_of params.now power.now) self.now.at self.now.told result }
    {
        let cycle = cycle_length(params);
        for number in self.told + 1..65 {
            let node = NodeId(number);
            let switch = switch_of(params, power, self.at, node);
            if resolves(cycle, self.at, switch, self.table.get(node)) {
                return Some(node);
            }
        }
        None
    }

    // One macrotick.
    fn pass(&mut self, params: &Params, power: &Power)
        requires stands { StandsForStartup params.now power.now self.old }
        requires within { self.old.at < macroticks_of_run params.now power.now }
        ensures stands { StandsForStartup params.now power.now self.new }
        ensures at { self.new.at ≡ self.old.at + 1 }
        ensures told { self.new.told ≡ 0 }
    {
        let _end = end_tick(params, power);
        make_ready(params, power, self.at, &mut self.table);
        move_all(params, self.at, &mut self.table);
        self.at += 1;
        self.told = 0;
    }

    // On to the next event.
    fn skip(&mut self, params: &Params, power: &Power)
        requires stands { StandsForStartup params.now power.now self.old }
        requires told { self.old.told ≡ 0 }
        ensures stands { StandsForStartup params.now power.now self.new }
        ensures skipped { IsSkipped params.now power.now self.old self.new }
    {
        let end = end_tick(params, power);
        self.at = next_event(params, power, &self.table, self.at, end);
    }
}
