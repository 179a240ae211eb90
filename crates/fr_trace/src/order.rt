ghost use Rattle.std.specs.Prelude.{◌≡◌, ◌<◌, ◌==◌, ◌&&◌, ℕ, List, Some, [], drop, is_none, is_some, length, slice_get};
ghost use Rattle.std.specs.Option.{option_copied};
ghost use Rattle.fr_base.specs.declared.node_row.NodeRow.{NodeRow as Clock};
ghost use Rattle.fr_cluster.specs.Values.{Values};
ghost use Rattle.fr_history.specs.History.{row_of};
ghost use Rattle.fr_trace.specs.Joins.{first_cycle, is_among, join_among};
ghost use Rattle.fr_trace.specs.declared.rows.Row.TheVariants as said;
ghost use Rattle.fr_trace.specs.declared.trace.TracedJoin.{TracedJoin as Joining};
ghost use Rattle.fr_trace.specs.Order.{begins_by, ends_at, ends_with, is_due_after, is_up_to, may_begin, may_come_next, may_go_on, may_join, may_open, may_stand, may_stand_after, may_turn, must_stand, next_due, next_due_in, rank_of, stands_after, stays_by};

use crate::rows::{HeardRow, Row};
use crate::trace::TracedJoin;
use fr_base::{Channel, NodeId, NodeRow};
use fr_cluster::{Join, NodeList, NodeSpec, Params};

/// What the records so far say: how many double cycles there are, which nodes are arbitrary and which join, and the
/// rows of the cycle under way and of the one before it.
#[derive(Clone, Copy)]
pub struct SoFar<'a> {
    /// How many double cycles there are.
    pub doubles: u32,
    /// The nodes that are named arbitrary.
    pub named: &'a [NodeId],
    /// The nodes that join.
    pub joins: &'a [TracedJoin],
    /// The rows of the cycle before.
    pub before: &'a [NodeRow],
    /// Those of the cycle that is under way.
    pub here: &'a [NodeRow],
}

/// What decides which nodes take part in a cycle.
#[derive(Clone, Copy)]
pub struct Standing<'a> {
    /// The nodes that are named arbitrary.
    pub named: &'a [NodeId],
    /// The nodes that join.
    pub joins: &'a [TracedJoin],
    /// The cycle.
    pub cycle: u32,
    /// The rows of the cycle before.
    pub before: &'a [NodeRow],
}

// Whether a row may come behind the last one.
pub(crate) fn may_follow(
    params: &Params,
    so_far: &SoFar<'_>,
    last: &Option<Row>,
    next: &Row,
) -> bool
    ensures { result ≡ may_come_next params.now so_far.now.doubles so_far.now.named.now so_far.now.joins.now
        so_far.now.before.now so_far.now.here.now last.now next.now }
{
    match last {
        None => matches!(next, Row::Run(_)),
        Some(Row::Run(_)) => may_begin(params, so_far, 0, next),
        Some(Row::Arbitrary(other)) => may_begin(params, so_far, other.0, next),
        Some(Row::Join(other)) => may_join(params, so_far, other.node.0, next),
        Some(Row::Clock(cycle, clock)) => {
            let turn = Turn {
                node: clock.node,
                slot: 0,
                rank: 0,
            };
            may_go_on(params, so_far, *cycle, turn, next)
        }
        Some(Row::Heard(heard)) => {
            let turn = Turn {
                node: heard.receiver,
                slot: heard.slot.0,
                rank: rank_of(&heard.channel),
            };
            may_go_on(params, so_far, heard.cycle, turn, next)
        }
    }
}

// Whether a deviation may come behind the last row. Nothing that was said before that row decides it.
pub(crate) fn goes_on(last: &Option<Row>, heard: &HeardRow) -> bool
    ensures { (p : Values) (doubles : ℕ) (named : List ℕ) (joins : List Joining) (before here : List Clock) →
        result ≡ may_come_next p doubles named joins before here last.now (said.Heard heard.now) }
{
    match last {
        None => false,
        Some(Row::Run(_)) => false,
        Some(Row::Arbitrary(_)) => false,
        Some(Row::Join(_)) => false,
        Some(Row::Clock(cycle, clock)) => {
            let turn = Turn {
                node: clock.node,
                slot: 0,
                rank: 0,
            };
            is_next(*cycle, turn, heard)
        }
        Some(Row::Heard(other)) => {
            let turn = Turn {
                node: other.receiver,
                slot: other.slot.0,
                rank: rank_of(&other.channel),
            };
            is_next(other.cycle, turn, heard)
        }
    }
}

// Whether a deviation is of the same cycle and node as a place, and comes behind it.
fn is_next(cycle: u32, turn: Turn, heard: &HeardRow) -> bool
    ensures { result ≡
        ((heard.now.cycle == cycle) && (heard.now.receiver == turn.node) && stands_after turn heard.now) }
{
    heard.cycle == cycle && heard.receiver == turn.node && is_behind(turn, heard)
}

/// A place in the order of a cycle: a node, and the slot and the rank of the channel of one of its deviations, 0 and 0
/// at its row.
#[derive(Clone, Copy, Debug, PartialEq, Eq)]
pub struct Turn {
    /// The node.
    pub node: NodeId,
    /// The slot.
    pub slot: u16,
    /// The rank of the channel.
    pub rank: u8,
}

fn may_begin(params: &Params, so_far: &SoFar<'_>, above: u8, next: &Row) -> bool
    ensures { result ≡ may_begin params.now so_far.now.named.now so_far.now.joins.now above next.now }
{
    match next {
        Row::Run(_) | Row::Heard(_) => false,
        Row::Arbitrary(node) => above < node.0,
        Row::Join(_) => true,
        Row::Clock(cycle, clock) => may_open(params, so_far, *cycle, clock.node),
    }
}

fn may_join(params: &Params, so_far: &SoFar<'_>, above: u8, next: &Row) -> bool
    ensures { result ≡ may_join params.now so_far.now.named.now so_far.now.joins.now above next.now }
{
    match next {
        Row::Run(_) | Row::Arbitrary(_) | Row::Heard(_) => false,
        Row::Join(join) => above < join.node.0,
        Row::Clock(cycle, clock) => may_open(params, so_far, *cycle, clock.node),
    }
}

fn may_open(params: &Params, so_far: &SoFar<'_>, cycle: u32, node: NodeId) -> bool
    ensures { result ≡ may_open params.now so_far.now.named.now so_far.now.joins.now cycle node }
{
    let standing = Standing {
        named: so_far.named,
        joins: so_far.joins,
        cycle: 0,
        before: &[],
    };
    cycle == 0 && may_stand_behind(params, &standing, 0, node)
}

fn may_go_on(params: &Params, so_far: &SoFar<'_>, cycle: u32, turn: Turn, next: &Row) -> bool
    ensures { result ≡ may_go_on params.now so_far.now.doubles so_far.now.named.now so_far.now.joins.now
        so_far.now.before.now so_far.now.here.now cycle turn next.now }
{
    match next {
        Row::Run(_) | Row::Arbitrary(_) | Row::Join(_) => false,
        Row::Clock(following, clock) => {
            may_turn(params, so_far, cycle, turn.node, *following, clock.node)
        }
        Row::Heard(heard) => is_next(cycle, turn, heard),
    }
}

fn may_turn(
    params: &Params,
    so_far: &SoFar<'_>,
    cycle: u32,
    other: NodeId,
    next: u32,
    node: NodeId,
) -> bool
    ensures { result ≡ may_turn params.now so_far.now.doubles so_far.now.named.now so_far.now.joins.now
        so_far.now.before.now so_far.now.here.now cycle other next node }
{
    let standing = Standing {
        named: so_far.named,
        joins: so_far.joins,
        cycle,
        before: so_far.before,
    };
    if next == cycle {
        return may_stand_behind(params, &standing, other.0, node);
    }
    let following = Standing {
        named: so_far.named,
        joins: so_far.joins,
        cycle: next,
        before: so_far.here,
    };
    u64::from(next) == u64::from(cycle) + 1
        && u64::from(next) < 2 * u64::from(so_far.doubles)
        && next_due(params, &standing, other.0).is_none()
        && may_stand_behind(params, &following, 0, node)
}

// Whether the last row is in the last cycle, and no further row must come in it.
pub(crate) fn ends_with(params: &Params, so_far: &SoFar<'_>, last: &Option<Row>) -> bool
    ensures { result ≡ ends_with params.now so_far.now.doubles so_far.now.named.now so_far.now.joins.now
        so_far.now.before.now last.now }
{
    match last {
        None => false,
        Some(Row::Run(_) | Row::Arbitrary(_) | Row::Join(_)) => are_none(params, so_far),
        Some(Row::Clock(cycle, clock)) => ends_at(params, so_far, *cycle, clock.node),
        Some(Row::Heard(heard)) => ends_at(params, so_far, heard.cycle, heard.receiver),
    }
}

// Whether no node must have a row in the first cycle.
fn are_none(params: &Params, so_far: &SoFar<'_>) -> bool
    ensures { result ≡ is_none (next_due params.now so_far.now.named.now so_far.now.joins.now 0 [] 0) }
{
    let standing = Standing {
        named: so_far.named,
        joins: so_far.joins,
        cycle: 0,
        before: &[],
    };
    next_due(params, &standing, 0).is_none()
}

fn ends_at(params: &Params, so_far: &SoFar<'_>, cycle: u32, node: NodeId) -> bool
    ensures { result ≡ ends_at params.now so_far.now.doubles so_far.now.named.now so_far.now.joins.now
        so_far.now.before.now cycle node }
{
    let standing = Standing {
        named: so_far.named,
        joins: so_far.joins,
        cycle,
        before: so_far.before,
    };
    u64::from(cycle) + 1 == 2 * u64::from(so_far.doubles)
        && next_due(params, &standing, node.0).is_none()
}

fn is_behind(turn: Turn, heard: &HeardRow) -> bool
    ensures { result ≡ stands_after turn heard.now }
{
    turn.slot < heard.slot.0 || (turn.slot == heard.slot.0 && turn.rank < rank_of(&heard.channel))
}

fn rank_of(channel: &Option<Channel>) -> u8
    ensures { result ≡ rank_of channel.now }
{
    match channel {
        None | Some(Channel::A) => 0,
        Some(Channel::B) => 1,
    }
}

fn may_stand_behind(params: &Params, standing: &Standing<'_>, other: u8, node: NodeId) -> bool
    ensures { result ≡ may_stand_after params.now standing.now.named.now standing.now.joins.now
        standing.now.cycle standing.now.before.now other node }
{
    other < node.0 && may_stand(standing, node) && is_up_to(node, next_due(params, standing, other))
}

fn is_up_to(node: NodeId, found: Option<NodeId>) -> bool
    ensures { result ≡ is_up_to node found }
{
    match found {
        None => true,
        Some(other) => node.0 <= other.0,
    }
}

// The first node above a number that must have a row.
fn next_due(params: &Params, standing: &Standing<'_>, node: u8) -> Option<NodeId>
    ensures { result ≡ next_due params.now standing.now.named.now standing.now.joins.now standing.now.cycle
        standing.now.before.now node }
{
    next_from(&params.nodes, standing, node, 0)
}

// The first among the nodes from a place on.
fn next_from(nodes: &NodeList, standing: &Standing<'_>, node: u8, place: usize) -> Option<NodeId>
    ensures { result ≡ next_due_in (drop place nodes.now) standing.now.named.now standing.now.joins.now
        standing.now.cycle standing.now.before.now node }
{
    if place >= nodes.len() {
        return None;
    }
    let spec = nodes.node_at(place);
    if is_due_behind(standing, node, spec) {
        return Some(spec.id);
    }
    next_from(nodes, standing, node, place + 1)
}

fn is_due_behind(standing: &Standing<'_>, node: u8, spec: &NodeSpec) -> bool
    ensures { result ≡ is_due_after standing.now.named.now standing.now.joins.now standing.now.cycle
        standing.now.before.now node spec.now }
{
    node < spec.id.0 && must_stand(standing, spec.id)
}

// Whether a node must have a row in a cycle.
fn must_stand(standing: &Standing<'_>, node: NodeId) -> bool
    ensures { result ≡ must_stand standing.now.named.now standing.now.joins.now standing.now.cycle
        standing.now.before.now node }
{
    !is_among(standing.named, node) && stays(&join_among(standing.joins, node), standing, node)
}

// Whether it may have one.
fn may_stand(standing: &Standing<'_>, node: NodeId) -> bool
    ensures { result ≡ may_stand standing.now.named.now standing.now.joins.now standing.now.cycle
        standing.now.before.now node }
{
    let join = join_among(standing.joins, node);
    !is_among(standing.named, node)
        && (begins(&join, standing.cycle) || stays(&join, standing, node))
}

fn begins(join: &Option<Join>, cycle: u32) -> bool
    ensures { result ≡ begins_by join.now cycle }
{
    match join {
        None => false,
        Some(join) => u64::from(cycle) == first_cycle(join),
    }
}

fn stays(join: &Option<Join>, standing: &Standing<'_>, node: NodeId) -> bool
    ensures { result ≡ stays_by join.now standing.now.cycle standing.now.before.now node }
{
    match join {
        None => true,
        Some(join) => {
            first_cycle(join) < u64::from(standing.cycle) && has_row(standing.before, node)
        }
    }
}

fn first_cycle(join: &Join) -> u64
    ensures { result ≡ first_cycle join.now }
{
    2 * u64::from(join.double) + 6
}

fn has_row(rows: &[NodeRow], node: NodeId) -> bool
    ensures { result ≡ is_some (row_of rows.now node) }
{
    row_among(rows, node).is_some()
}

fn row_among(rows: &[NodeRow], node: NodeId) -> Option<&NodeRow>
    ensures { option_copied result ≡ row_of rows.now node }
{
    rows.iter().find(|row| row.node == node)
}

// How a node joins, if it does.
pub(crate) fn join_among(joins: &[TracedJoin], node: NodeId) -> Option<Join>
    ensures { result ≡ join_among joins.now node }
{
    match joins.iter().find(|join| join.node == node) {
        None => None,
        Some(found) => Some(found.join),
    }
}

// Whether a node is among some.
pub(crate) fn is_among(named: &[NodeId], node: NodeId) -> bool
    ensures { result ≡ is_among named.now node }
{
    named.iter().any(|other| *other == node)
}
