ghost use Rattle.std.specs.Prelude.{◌≡◌, ◌<◌, ◌++◌, ◌∷◌, [], length};
ghost use Rattle.std.specs.Option.{option_copied};
ghost use Rattle.fr_history.specs.History.{row_of};
ghost use Rattle.fr_lines.specs.Clocks.{offset_by};

use fr_base::{NodeId, NodeRow, State};
use std::marker::Model;

/// What holds of a node with a row after the last cycle: its state, its start in ticks and its rate term in
/// microticks for the cycle that comes next, and the offset term of the last odd cycle in microticks.
#[derive(Clone, Copy, Debug, PartialEq, Eq)]
pub struct Clock {
    pub node: NodeId,
    pub state: State,
    pub start: i64,
    pub rate: i32,
    pub offset: i32,
}

// How many clocks there are at most: one for each node of a cluster.
const CLOCK_ROOM: usize = 64;

// What stands in the places that are not in use.
const NO_CLOCK: Clock = Clock {
    node: NodeId(1),
    state: State::Active,
    start: 0,
    rate: 0,
    offset: 0,
};

/// The clocks of a run, at most 64: contracts see their list. No call takes memory.
#[derive(Debug, Drop)]
pub struct ClockList {
    places: [Clock; CLOCK_ROOM],
    used: usize,
}

impl Model for ClockList {
    ghost use Rattle.std.specs.Prelude.{◌≤◌, List, take};
    ghost use Rattle.fr_lines.specs.declared.clocks.Clock.{Clock};

    ghost Value = { List Clock };

    ghost view = { λ list. take list.used list.places };

    ghost invariant = { λ list. list.used ≤ 64 };
}

impl ClockList {
    /// No clock.
    pub fn new() -> ClockList
        ensures { result ≡ [] }
    {
        ClockList {
            places: [NO_CLOCK; CLOCK_ROOM],
            used: 0,
        }
    }

    /// Adds a clock behind the others.
    pub fn push(&mut self, clock: Clock)
        requires { length self.old < CLOCK_ROOM }
        ensures { self.new ≡ self.old ++ clock ∷ [] }
    {
        self.places[self.used] = clock;
        self.used += 1;
    }

    /// The clocks as a slice.
    pub fn as_slice(&self) -> &[Clock]
        ensures { result.now ≡ self.now }
    {
        &self.places[..self.used]
    }
}

// The offset term of a node's row; 0 where it has none.
pub(crate) fn last_offset(rows: &[NodeRow], id: NodeId) -> i32
    ensures { result ≡ offset_by (row_of rows.now id) }
{
    match found(rows, id) {
        Some(row) => row.offset,
        None => 0,
    }
}

// The row of a node.
fn found(rows: &[NodeRow], id: NodeId) -> Option<&NodeRow>
    ensures { option_copied result ≡ row_of rows.now id }
{
    let wanted = id.0;
    rows.iter().find(|row| row.node.0 == wanted)
}
