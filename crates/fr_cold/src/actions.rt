ghost use Rattle.std.specs.Prelude.{◌≡◌, ◌<◌, ◌≤◌};
ghost use Rattle.fr_cluster.specs.Values.{amount};
ghost use Rattle.fr_cluster.specs.Questions.{own_key};
ghost use Rattle.fr_cluster.specs.declared.names.ParamName.TheVariants as name;
ghost use Rattle.fr_time.specs.Slots.{action_point_of};
ghost use Rattle.fr_cold.specs.Cluster.{action_of, macroticks_of_cycle};

use fr_base::{NodeId, Slot};
use fr_cluster::{ParamName, Params};
use fr_time::action_point;

/// The macrotick of its cycle at which a node sends its startup frames: that of the action point of its key slot; 0
/// for a node without key slot, which is no coldstart node.
pub fn action(params: &Params, node: NodeId) -> u32
    ensures value { result ≡ action_of params.now node }
    ensures within { result < macroticks_of_cycle params.now }
{
    let _cycle = params.value(ParamName::gMacroPerCycle);
    match key_slot(params, node) {
        None => 0,
        Some(slot) => point(params, slot),
    }
}

fn point(params: &Params, slot: Slot) -> u32
    requires { slot ≤ amount params.now name.gNumberOfStaticSlots }
    ensures { result ≡ action_point_of params.now slot }
{
    action_point(params, slot) as u32
}

fn key_slot(params: &Params, node: NodeId) -> Option<Slot>
    ensures { result ≡ own_key params.now node }
{
    match params.node(node) {
        None => None,
        Some(spec) => spec.key,
    }
}
