ghost use Rattle.fr_params.specs.Assembling.{AreAccepted, Assembles};

use crate::fault::ParamFault;
use crate::making::{ClusterFault, params_of};
use fr_cluster::{NodeSpec, Params, SlotSpec};
use std::alloc::Global;

/// The parameters of these 20 numbers, in the order of the table of version 2, of these nodes and further slots,
/// both in ascending order. They are those of an accepted file. `NoMemory` is its only refusal.
pub fn assemble(
    alloc: Global,
    values: &[i64],
    nodes: &[NodeSpec],
    slots: &[SlotSpec],
) -> Result<Params, ParamFault>
    requires { AreAccepted values.now nodes.now slots.now }
    ensures { Assembles values.now nodes.now slots.now result }
{
    let mut numbers = [0; 20];
    numbers.copy_from_slice(values);
    let Ok(nodes) = Vec::from_slice(alloc, nodes) else {
        return Err(ParamFault::NoMemory);
    };
    let Ok(slots) = Vec::from_slice(alloc, slots) else {
        return Err(ParamFault::NoMemory);
    };
    match params_of(alloc, &numbers, nodes, slots) {
        Ok(params) => Ok(params),
        Err(ClusterFault::Constraint(_)) => unreachable!(),
        Err(ClusterFault::NoMemory) => Err(ParamFault::NoMemory),
    }
}
