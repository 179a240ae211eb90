ghost use Rattle.std.specs.Prelude.{◌≡◌, ℕ, ◌==◌, if◌then◌else◌};
ghost use Rattle.fr_cold.specs.StartupLaws.{IsNumber};
ghost use Rattle.fr_cold.specs.Moves.{IsTimely};
ghost use Rattle.fr_cold.specs.declared.state.ColdState.TheVariants as state;
ghost use Rattle.fr_cold.specs.Cold.{state_in};

use crate::ColdState;
use fr_base::NodeId;
use std::marker::Model;

// What each node does, in a fixed place by its number from 1 on.
#[derive(Drop)]
pub(crate) struct StateTable {
    states: [ColdState; 64],
}

impl Model for StateTable {
    ghost use Rattle.std.specs.Prelude.{List, All};
    ghost use Rattle.fr_cold.specs.Moves.{IsTimely};
    ghost use Rattle.fr_cold.specs.declared.state.ColdState.{ColdState};

    ghost Value = { List ColdState };

    ghost view = { λ a. a.states };

    ghost invariant = { λ a. All IsTimely a.states };
}

impl StateTable {
    pub(crate) fn new() -> StateTable
        ensures { (node : ℕ) → IsNumber node → state_in result node ≡ state.Off }
    {
        StateTable {
            states: [ColdState::Off; 64],
        }
    }

    pub(crate) fn get(&self, node: NodeId) -> ColdState
        ensures value { result ≡ state_in self.now node }
        ensures timely { IsTimely result }
    {
        self.states[usize::from(node.0) - 1]
    }

    pub(crate) fn set(&mut self, node: NodeId, state: ColdState)
        requires { IsTimely state }
        ensures { (other : ℕ) → IsNumber other →
            state_in self.new other ≡ (if other == node then state else state_in self.old other) }
    {
        self.states[usize::from(node.0) - 1] = state;
    }
}
