ghost use Rattle.std.specs.Prelude.{◌≡◌, ◌≤◌, ◌<◌, ℕ, false};
ghost use Rattle.fr_cold.specs.Node.{acts, heard, is_leading, is_resolved, is_turn, resolved, sends, sent, switched};
ghost use Rattle.fr_cold.specs.Moves.{IsTimely};
ghost use Rattle.fr_cold.specs.Rows.{most_tick};

use crate::state::{ColdState, Switch};

/// The state of a node after the first two parts of a macrotick: it is switched, and leads where its collision
/// resolution ends. `cycle` has the macroticks of a cycle.
pub fn ready(cycle: u32, tick: u32, switch: Option<Switch>, state: ColdState) -> ColdState
    requires cycle { cycle ≤ 16_000 }
    requires tick { tick ≤ most_tick }
    requires timely { IsTimely state }
    ensures value { result ≡ resolved cycle tick (switched switch tick state) }
    ensures timely { IsTimely result }
{
    let state = switched(tick, switch, state);
    match state {
        ColdState::Resolving(begun) => {
            if tick == begun + 1 + 4 * cycle {
                ColdState::Leading(begun)
            } else {
                state
            }
        }
        _ => state,
    }
}

/// Whether a node begins to lead at a macrotick.
pub fn resolves(cycle: u32, tick: u32, switch: Option<Switch>, state: ColdState) -> bool
    requires cycle { cycle ≤ 16_000 }
    requires tick { tick ≤ most_tick }
    requires timely { IsTimely state }
    ensures { result ≡ is_resolved cycle tick (switched switch tick state) }
{
    match switched(tick, switch, state) {
        ColdState::Resolving(begun) => tick == begun + 1 + 4 * cycle,
        _ => false,
    }
}

fn switched(tick: u32, switch: Option<Switch>, state: ColdState) -> ColdState
    requires tick { tick ≤ most_tick }
    requires timely { IsTimely state }
    ensures value { result ≡ switched switch tick state }
    ensures timely { IsTimely result }
{
    match switch {
        None => state,
        Some(Switch::On) => ColdState::Listening(tick),
        Some(Switch::Off) => ColdState::Off,
    }
}

/// Whether a node sends at a macrotick: the collision avoidance symbol, or a startup frame at the action point of
/// its key slot, `action` macroticks into its cycle.
pub fn sends(cycle: u32, action: u32, tick: u32, state: ColdState) -> bool
    requires from { 1 ≤ cycle }
    requires cycle { cycle ≤ 16_000 }
    requires action { action < cycle }
    requires timely { IsTimely state }
    ensures { result ≡ sends cycle action tick state }
{
    match state {
        ColdState::Off => false,
        ColdState::Listening(since) => tick == since + 2 * cycle,
        ColdState::Resolving(begun) => is_turn(begun + 1 + action, cycle, tick),
        ColdState::Leading(begun) => is_turn(begun + 1 + action, cycle, tick),
    }
}

fn is_turn(first: u32, cycle: u32, tick: u32) -> bool
    requires { 1 ≤ cycle }
    ensures { result ≡ is_turn first cycle tick }
{
    first <= tick && (tick - first) % cycle == 0
}

/// The state of a node after the last two parts of a macrotick: it sends, and listens anew where it hears
/// something and does not lead.
pub fn moved(cycle: u32, tick: u32, hears: bool, state: ColdState) -> ColdState
    requires cycle { cycle ≤ 16_000 }
    requires tick { tick ≤ most_tick }
    requires timely { IsTimely state }
    ensures value { result ≡ heard hears tick (sent cycle tick state) }
    ensures timely { IsTimely result }
{
    let state = sent(cycle, tick, state);
    if !hears {
        return state;
    }
    match state {
        ColdState::Off => ColdState::Off,
        ColdState::Listening(_) => ColdState::Listening(tick),
        ColdState::Resolving(_) => ColdState::Listening(tick),
        ColdState::Leading(begun) => ColdState::Leading(begun),
    }
}

fn sent(cycle: u32, tick: u32, state: ColdState) -> ColdState
    requires cycle { cycle ≤ 16_000 }
    requires tick { tick ≤ most_tick }
    requires timely { IsTimely state }
    ensures value { result ≡ sent cycle tick state }
    ensures timely { IsTimely result }
{
    match state {
        ColdState::Listening(since) => {
            if tick == since + 2 * cycle {
                ColdState::Resolving(tick)
            } else {
                state
            }
        }
        _ => state,
    }
}

/// Whether a node leads.
pub fn is_leading(state: ColdState) -> bool
    ensures { result ≡ is_leading state }
{
    match state {
        ColdState::Leading(_) => true,
        _ => false,
    }
}

/// A macrotick up to which, from `tick` on, a node does nothing by itself: it neither sends nor begins to lead. It
/// is at most `end`.
pub fn quiet_before(cycle: u32, action: u32, state: ColdState, tick: u32, end: u32) -> u32
    requires from { 1 ≤ cycle }
    requires cycle { cycle ≤ 16_000 }
    requires action { action < cycle }
    requires timely { IsTimely state }
    requires order { tick ≤ end }
    requires end { end ≤ most_tick }
    ensures from { tick ≤ result }
    ensures to { result ≤ end }
    ensures quiet { (t : ℕ) → tick ≤ t → t < result → acts cycle action t state ≡ false }
{
    match state {
        ColdState::Off => end,
        ColdState::Listening(since) => at_or_end(since + 2 * cycle, tick, end),
        ColdState::Resolving(begun) => {
            let turn = next_turn(begun + 1 + action, cycle, tick, end);
            at_or_end(begun + 1 + 4 * cycle, tick, turn)
        }
        ColdState::Leading(begun) => next_turn(begun + 1 + action, cycle, tick, end),
    }
}

// A macrotick, where it lies from another on and before the end; else the end.
fn at_or_end(at: u32, tick: u32, end: u32) -> u32
    requires { tick ≤ end }
    ensures from { tick ≤ result }
    ensures to { result ≤ end }
    ensures quiet { (t : ℕ) → tick ≤ t → t < result → (t ≡ at → ⊥) }
{
    if tick <= at && at < end { at } else { end }
}

// The next macrotick from `tick` on that is a turn, or the end where it is not before it.
fn next_turn(first: u32, cycle: u32, tick: u32, end: u32) -> u32
    requires cycle { 1 ≤ cycle }
    requires small { cycle ≤ 16_000 }
    requires order { tick ≤ end }
    requires end { end ≤ most_tick }
    ensures from { tick ≤ result }
    ensures to { result ≤ end }
    ensures quiet { (t : ℕ) → tick ≤ t → t < result → is_turn first cycle t ≡ false }
{
    if tick <= first {
        return first.min(end);
    }
    let past = (tick - first) % cycle;
    if past == 0 {
        return tick;
    }
    (tick + (cycle - past)).min(end)
}
