ghost use Rattle.std.specs.Prelude.{◌≡◌, ◌≤◌, ◌<◌, ℕ, Some, None};
ghost use Rattle.fr_cold.specs.Questions.{IsUnswitched, cycles_of_power};
ghost use Rattle.fr_cold.specs.View.{switch_rows};

use crate::Switch;
use crate::events::next_switch;
use crate::keys::PowerKey;
use fr_base::NodeId;
use std::collections::BTreeMap;
use std::marker::Model;

/// What a power file says of a cluster: how many cycles a run of startup has, and at which macrotick each coldstart
/// node is switched on and off.
pub struct Power {
    pub(crate) cycles: u32,
    pub(crate) switches: BTreeMap<PowerKey, Switch>,
}

impl Model for Power {
    ghost use Rattle.fr_cold.specs.View.{PowerView, coded_power_view};

    ghost Value = { PowerView };

    ghost coded = { coded_power_view };

    ghost use Rattle.fr_cold.specs.Inside.{power_view_of};
    ghost use Rattle.fr_cold.specs.View.{IsPower};

    ghost view = { power_view_of };

    ghost invariant = { λ a. IsPower (power_view_of a) };
}

// One call: a derived drop is opened in each function that drops a value, and proved there.
impl Drop for Power {
    fn drop(self) {
        let Power {
            cycles: _,
            switches: _,
        } = self;
    }
}

impl Power {
    /// How many cycles a run has.
    #[tactic(auto, unfolding(crate::specs::Questions::cycles_of_power))]
    pub fn cycles(&self) -> u32
        ensures value { result ≡ cycles_of_power self.now }
        ensures from { 1 ≤ result }
        ensures to { result ≤ 1000 }
    {
        self.cycles
    }

    // How a node is switched at a macrotick, if it is.
    pub(crate) fn switch(&self, at: u32, node: NodeId) -> Option<Switch>
        ensures { result ≡ switch_rows self.now at node }
    {
        let key = PowerKey { at, node };
        match self.switches.get(&key) {
            Some(switch) => Some(*switch),
            None => None,
        }
    }

    // From a macrotick on, the next one before the end at which a node is switched, or the end.
    pub(crate) fn next(&self, tick: u32, end: u32) -> u32
        requires { tick ≤ end }
        ensures from { tick ≤ result }
        ensures to { result ≤ end }
        ensures quiet { (t : ℕ) → tick ≤ t → t < result → IsUnswitched self.now t }
    {
        next_switch(&self.switches, tick, end)
    }
}
