ghost use Rattle.std.specs.Prelude.{IfOk, IfErr};
ghost use Rattle.fr_cluster.specs.Numbers.{AreInRange, amount_in};
ghost use Rattle.fr_cluster.specs.Constraints.{AllHold, key_slots};
ghost use Rattle.fr_cluster.specs.Sane.{AreSaneLists};
ghost use Rattle.fr_params.specs.Making.{FailsFor, IsMadeOf};

use crate::limits::{first_failing, key_slots_of};
use crate::searches::{node_list, slot_list};
use fr_cluster::{NodeSpec, Params, SlotSpec};
use std::alloc::Global;

/// Why numbers, nodes and slots are those of no cluster.
#[derive(Clone, Copy, Debug, PartialEq, Eq)]
pub enum ClusterFault {
    /// The least number, from 1 to 8, of a constraint that fails.
    Constraint(u8),
    /// Memory ran out.
    NoMemory,
}

/// The parameters of these numbers, in the order of the second version's table, of these nodes and further
/// slots, where they meet the eight constraints. A cluster with one delay compensation for both channels
/// gives it twice. `Constraint` comes exactly where one fails, but for want of memory.
pub fn params_of(
    alloc: Global,
    numbers: &[i64; 20],
    nodes: Vec<NodeSpec>,
    slots: Vec<SlotSpec>,
) -> Result<Params, ClusterFault>
    requires ranged { AreInRange numbers.now }
    requires lists { AreSaneLists nodes.items slots.items }
    ensures made { IfOk result (λ params. IsMadeOf params numbers.now nodes.items slots.items) }
    ensures fails { IfErr result (λ fault. FailsFor fault numbers.now nodes.items slots.items) }
{
    let Ok(keys) = key_slots_of(alloc, &nodes) else {
        return Err(ClusterFault::NoMemory);
    };
    match first_failing(numbers, &keys, &slots) {
        Some(number) => Err(ClusterFault::Constraint(number)),
        None => listed(alloc, numbers, nodes, slots),
    }
}

fn listed(
    alloc: Global,
    numbers: &[i64; 20],
    nodes: Vec<NodeSpec>,
    slots: Vec<SlotSpec>,
) -> Result<Params, ClusterFault>
    requires ranged { AreInRange numbers.now }
    requires constraints { AllHold (amount_in numbers.now) (key_slots nodes.items) slots.items }
    requires lists { AreSaneLists nodes.items slots.items }
    ensures made { IfOk result (λ params. IsMadeOf params numbers.now nodes.items slots.items) }
    ensures fails { IfErr result (λ fault. FailsFor fault numbers.now nodes.items slots.items) }
{
    let Ok(nodes) = node_list(alloc, nodes) else {
        return Err(ClusterFault::NoMemory);
    };
    let Ok(slots) = slot_list(alloc, slots) else {
        return Err(ClusterFault::NoMemory);
    };
    Ok(Params::new(numbers, nodes, slots))
}
