ghost use Rattle.std.specs.Prelude.{◌≡◌, ◌<◌, ◌≤◌, ◌++◌, false, filter_map, length, vec_capacity, All, IfSome, Some};
ghost use Rattle.std.specs.Option.{option_to_list};
ghost use Rattle.fr_cluster.specs.Questions.{own_key};
ghost use Rattle.fr_node.specs.Fits.{NodeFits};
ghost use Rattle.fr_script.specs.Promises.{NodesJoinProperly};
ghost use Rattle.fr_air.specs.Placing.{put_all};
ghost use Rattle.fr_time.specs.Cycles.{is_odd};
ghost use Rattle.fr_air.specs.Listening.{IsListener};
ghost use Rattle.fr_world.specs.Succeeding.{first_now, listener_by, listener_now, listeners_now, put_some, HasHeardBoth};

use crate::joining::put;
use fr_air::files::{RunInputs, sane};
use fr_base::{NodeId, Slot};
use fr_cluster::{Join, NodeSpec, Params};
use fr_node::{Listener, Node};

// The follower that a listener begins as behind its double cycle, if what it has caught suffices.
fn first(files: &RunInputs, cycle: u32, listener: &Listener) -> Option<Node>
    requires even { is_odd cycle ≡ false }
    requires in_run { cycle < 200_000 }
    requires heard { HasHeardBoth files.now cycle listener.now }
    ensures value { result ≡ first_now files.now cycle listener.now }
    ensures fits { IfSome result (NodeFits files.now.params) }
{
    let id = listener.id();
    let even_length = files.drift.drift().length(id, cycle - 2);
    let odd_length = files.drift.drift().length(id, cycle - 1);
    listener.first(&files.params, cycle, even_length, odd_length)
}

// It is put among the followers.
fn begin_one(files: &RunInputs, cycle: u32, listener: &Listener, followers: &mut Vec<Node>)
    requires even { is_odd cycle ≡ false }
    requires in_run { cycle < 200_000 }
    requires heard { HasHeardBoth files.now cycle listener.now }
    requires few { length (put_some (first_now files.now cycle listener.now) followers.old.items) ≤ 64 }
    requires room { 64 ≤ vec_capacity followers.old }
    requires fit { All (NodeFits files.now.params) followers.old.items }
    ensures begun { followers.new.items ≡ put_some (first_now files.now cycle listener.now) followers.old.items }
    ensures room { 64 ≤ vec_capacity followers.new }
    ensures fit { All (NodeFits files.now.params) followers.new.items }
{
    if let Some(node) = first(files, cycle, listener) {
        put(followers, node);
    }
}

// All listeners begin to follow for whom what they have caught suffices.
pub(crate) fn begin_following(
    files: &RunInputs,
    cycle: u32,
    listeners: &[Listener],
    followers: &mut Vec<Node>,
)
    requires even { is_odd cycle ≡ false }
    requires in_run { cycle < 200_000 }
    requires heard { All (HasHeardBoth files.now cycle) listeners.now }
    requires few { length (put_all (λ n. n.id) (filter_map (first_now files.now cycle) listeners.now)
        followers.old.items) ≤ 64 }
    requires room { 64 ≤ vec_capacity followers.old }
    requires fit { All (NodeFits files.now.params) followers.old.items }
    ensures begun { followers.new.items
        ≡ put_all (λ n. n.id) (filter_map (first_now files.now cycle) listeners.now) followers.old.items }
    ensures room { 64 ≤ vec_capacity followers.new }
    ensures fit { All (NodeFits files.now.params) followers.new.items }
{
    for listener in listeners {
        begin_one(files, cycle, listener, followers);
    }
}

// The key slot of a node, if there is such a node and it has one.
fn key_of(params: &Params, id: NodeId) -> Option<Slot>
    ensures { result ≡ own_key params.now id }
{
    match params.node(id) {
        Some(spec) => spec.key,
        None => None,
    }
}

// A node that joins so, as a listener, if it listens in a double cycle.
fn listener_by(files: &RunInputs, double: u32, id: NodeId, join: Join) -> Option<Listener>
    ensures { result ≡ listener_by files.now.params double id (Some join) }
{
    if join.double != double {
        return None;
    }
    match key_of(&files.params, join.reference) {
        Some(slot) => Some(Listener::new(id, slot)),
        None => None,
    }
}

// A node as a listener, if it joins and listens in a double cycle.
fn listener_of(files: &RunInputs, double: u32, spec: &NodeSpec) -> Option<Listener>
    ensures { result ≡ listener_now files.now double spec.now }
{
    match files.script.join(spec.id) {
        Some(join) => listener_by(files, double, spec.id, join),
        None => None,
    }
}

// It is put behind others.
fn push_listener(files: &RunInputs, double: u32, spec: &NodeSpec, listeners: &mut Vec<Listener>)
    requires room { length listeners.old.items < vec_capacity listeners.old }
    ensures pushed { listeners.new.items
        ≡ listeners.old.items ++ option_to_list (listener_now files.now double spec.now) }
    ensures capacity { vec_capacity listeners.new ≡ vec_capacity listeners.old }
{
    if let Some(listener) = listener_of(files, double, spec) {
        listeners.push_reserved(listener);
    }
}

// Those begin to listen that do in a double cycle; who listened before is let go.
pub(crate) fn begin_listening(files: &RunInputs, double: u32, listeners: &mut Vec<Listener>)
    requires proper { NodesJoinProperly files.now.params files.now.script }
    requires room { 64 ≤ vec_capacity listeners.old }
    ensures begun { listeners.new.items ≡ listeners_now files.now double }
    ensures listeners { All (IsListener files.now) listeners.new.items }
    ensures capacity { vec_capacity listeners.new ≡ vec_capacity listeners.old }
{
    sane(&files.params);
    listeners.clear();
    for place in 0..files.params.node_count() {
        push_listener(files, double, files.params.node_at(place), listeners);
    }
}
