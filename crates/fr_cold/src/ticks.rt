ghost use Rattle.std.specs.Prelude.{◌≡◌, ◌≤◌, ◌&&◌, ◌||◌};
ghost use Rattle.fr_cold.specs.Node.{sends};
ghost use Rattle.fr_cold.specs.Moves.{IsTimely};
ghost use Rattle.fr_cold.specs.Cluster.{States, action_of, is_busy, macroticks_of_cycle, moved_states, states_at};
ghost use Rattle.fr_cluster.specs.Questions.{has_channel, node_of};
ghost use Rattle.fr_cold.specs.Questions.{macroticks_of_run, switches_of};
ghost use Rattle.fr_cold.specs.Cold.{Agrees};
ghost use Rattle.fr_cold.specs.Events.{IsQuietUpTo, hears_by, ready_at};
ghost use Rattle.fr_cold.specs.Rows.{most_tick};

use crate::power::Power;
use crate::table::StateTable;
use crate::{ColdState, Switch, action, moved, quiet_before, ready, sends};
use fr_base::{Channel, NodeId};
use fr_cluster::{ParamName, Params};

// The macroticks of a cycle.
pub(crate) fn cycle_length(params: &Params) -> u32
    ensures value { result ≡ macroticks_of_cycle params.now }
    ensures from { 10 ≤ result }
    ensures to { result ≤ 16_000 }
{
    params.natural(ParamName::gMacroPerCycle) as u32
}

// How a coldstart node is switched at a macrotick, if it is.
#[tactic(auto, unfolding(crate::specs::Questions::switches_of))]
pub(crate) fn switch_of(params: &Params, power: &Power, at: u32, node: NodeId) -> Option<Switch>
    ensures { result ≡ switches_of params.now power.now at node }
{
    if params.is_coldstart(node) {
        power.switch(at, node)
    } else {
        None
    }
}

// The first two parts of a macrotick, for all nodes.
pub(crate) fn make_ready(params: &Params, power: &Power, tick: u32, table: &mut StateTable)
    requires tick { tick ≤ most_tick }
    requires stands { Agrees table.old (states_at params.now (switches_of params.now power.now) tick) }
    ensures { Agrees table.new (ready_at params.now power.now tick) }
{
    let cycle = cycle_length(params);
    for number in 1..65 {
        let node = NodeId(number);
        let switch = switch_of(params, power, tick, node);
        table.set(node, ready(cycle, tick, switch, table.get(node)));
    }
}

// Whether a node sends on a channel.
pub(crate) fn is_busy(params: &Params, tick: u32, table: &StateTable, channel: Channel) -> bool
    ensures { (states : States) → Agrees table.now states → result ≡ is_busy params.now tick states channel 64 }
{
    let mut busy = false;
    for number in 1..65 {
        let node = NodeId(number);
        busy = either(
            busy,
            is_sending_on(params, tick, table.get(node), channel, node),
        );
    }
    busy
}

fn either(first: bool, second: bool) -> bool
    ensures { result ≡ (first || second) }
{
    first || second
}

fn is_sending_on(
    params: &Params,
    tick: u32,
    state: ColdState,
    channel: Channel,
    node: NodeId,
) -> bool
    requires { IsTimely state }
    ensures { result ≡
        (sends (macroticks_of_cycle params.now) (action_of params.now node) tick state &&
        has_channel (node_of params.now node) channel) }
{
    is_sending(params, tick, state, node) && params.has_channel(node, channel)
}

fn is_sending(params: &Params, tick: u32, state: ColdState, node: NodeId) -> bool
    requires { IsTimely state }
    ensures { result ≡ sends (macroticks_of_cycle params.now) (action_of params.now node) tick state }
{
    sends(cycle_length(params), action(params, node), tick, state)
}

// Whether a node in a state hears something, by which channels are busy.
fn is_hearing(
    params: &Params,
    tick: u32,
    state: ColdState,
    busy_a: bool,
    busy_b: bool,
    node: NodeId,
) -> bool
    requires { IsTimely state }
    ensures { result ≡ hears_by params.now tick state busy_a busy_b node }
{
    !is_sending(params, tick, state, node)
        && ((params.has_channel(node, Channel::A) && busy_a)
            || (params.has_channel(node, Channel::B) && busy_b))
}

// The last two parts of a macrotick, for all nodes: each hears what was sent before any of them moved.
pub(crate) fn move_all(params: &Params, tick: u32, table: &mut StateTable)
    requires { tick ≤ most_tick }
    ensures { (states : States) → Agrees table.old states → Agrees table.new (moved_states params.now tick states) }
{
    let cycle = cycle_length(params);
    let busy_a = is_busy(params, tick, table, Channel::A);
    let busy_b = is_busy(params, tick, table, Channel::B);
    for number in 1..65 {
        let node = NodeId(number);
        let state = table.get(node);
        let hears = is_hearing(params, tick, state, busy_a, busy_b, node);
        table.set(node, moved(cycle, tick, hears, state));
    }
}

// A macrotick up to which, from `tick` on, nothing happens: no node is switched, sends, or begins to lead.
pub(crate) fn next_event(
    params: &Params,
    power: &Power,
    table: &StateTable,
    tick: u32,
    end: u32,
) -> u32
    requires order { tick ≤ end }
    requires end { end ≤ most_tick }
    ensures from { tick ≤ result }
    ensures to { result ≤ end }
    ensures quiet { IsQuietUpTo params.now power.now table.now tick result 65 }
{
    let cycle = cycle_length(params);
    let mut next = power.next(tick, end);
    for number in 1..65 {
        let node = NodeId(number);
        next = quiet_before(cycle, action(params, node), table.get(node), tick, next);
    }
    next
}

// The macroticks of the run.
#[tactic(auto, unfolding(crate::specs::Questions::macroticks_of_run, crate::specs::Questions::cycles_of_power))]
pub(crate) fn end_tick(params: &Params, power: &Power) -> u32
    ensures value { result ≡ macroticks_of_run params.now power.now }
    ensures few { result ≤ most_tick }
{
    power.cycles() * cycle_length(params)
}
