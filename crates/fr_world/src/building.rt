ghost use Rattle.std.specs.Prelude.{◌≡◌, ◌≤◌, false, [], ◌++◌, length, vec_capacity, IfOk, OnOk, Some};
ghost use Rattle.fr_drift.specs.Files.{DriftFits};
ghost use Rattle.fr_node.specs.Fits.{NodeFits};
ghost use Rattle.fr_node.specs.View.{node_row_of};
ghost use Rattle.fr_air.specs.Views.{node_of_next};
ghost use Rattle.fr_air.specs.Files.{setting_in};
ghost use Rattle.fr_air.specs.Listening.{StartsEarly};
ghost use Rattle.fr_air.specs.Listing.{ordered_keys};
ghost use Rattle.fr_world.specs.World.{fresh_of, is_fresh, AreFresh, CanStart};
ghost use Rattle.fr_world.specs.Standing.{nodes_kept};

use fr_air::files::{RunInputs, sane};
use fr_base::Slot;
use fr_cluster::{NodeSpec, ParamName, Params};
use fr_node::Node;
use std::alloc::{AllocError, Global};

// The key slots in ascending order.
pub(crate) fn key_slots_of(alloc: Global, params: &Params) -> Result<Vec<Slot>, AllocError>
    ensures value { IfOk result (λ keys. keys.items ≡ ordered_keys params.now) }
    ensures few { IfOk result (λ keys. length keys.items ≤ 1023) }
{
    let mut keys = Vec::new(alloc);
    let slots = params.natural(ParamName::gNumberOfStaticSlots);
    for earlier in 0..slots {
        let slot = Slot(earlier as u16 + 1);
        if params.key_index(slot).is_some() {
            keys.push(slot)?;
        }
    }
    Ok(keys)
}

// A correct node before the run.
fn fresh_node(files: &RunInputs, spec: &NodeSpec) -> Node
    requires { CanStart files.now spec.now }
    ensures node { result ≡ node_of_next (setting_in files.now) [] false spec.now.id }
    ensures fits { NodeFits files.now.params result }
    ensures early { StartsEarly files.now 0 (node_row_of result) }
{
    sane(&files.params);
    let start = files.drift.drift().start(spec.id);
    let rate = files.drift.drift().rate(spec.id);
    Node::new(&files.params, spec.id, start, rate)
}

// Whether a node takes part from cycle 0 on.
fn is_fresh(files: &RunInputs, spec: &NodeSpec) -> bool
    ensures { result ≡ is_fresh (setting_in files.now) spec.now.id }
{
    !files.script.arbitrary(spec.id) && files.script.join(spec.id).is_none()
}

// Appends a node before the run, if it takes part from cycle 0 on.
fn push_fresh(files: &RunInputs, spec: &NodeSpec, nodes: &mut Vec<Node>) -> Result<(), AllocError>
    requires start { CanStart files.now spec.now }
    requires fresh { AreFresh files.now nodes.old.items nodes.old.items }
    ensures fresh { OnOk result (AreFresh files.now (nodes.old.items ++ fresh_of files.now spec.now) nodes.new.items) }
    ensures room { vec_capacity nodes.old ≤ vec_capacity nodes.new }
{
    if is_fresh(files, spec) {
        nodes.push(fresh_node(files, spec))?;
    }
    Ok(())
}

// The nodes that take part from cycle 0 on, before the run, in ascending order; with room for all nodes of a cluster.
pub(crate) fn fresh_nodes(alloc: Global, files: &RunInputs) -> Result<Vec<Node>, AllocError>
    requires drift { DriftFits files.now.params files.now.drift }
    ensures fresh { IfOk result (λ nodes. AreFresh files.now (nodes_kept (setting_in files.now) []) nodes.items) }
    ensures room { IfOk result (λ nodes. 64 ≤ vec_capacity nodes) }
{
    let mut nodes = Vec::with_capacity(alloc, 64)?;
    for place in 0..files.params.node_count() {
        let spec = files.params.node_at(place);
        push_fresh(files, spec, &mut nodes)?;
    }
    Ok(nodes)
}
