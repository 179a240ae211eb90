ghost use Rattle.std.specs.Prelude.{◌≡◌, ◌<◌, ◌≤◌, ◌++◌, ◌∷◌, [], length, All};
ghost use Rattle.std.specs.Slice.{IsItemAt};
ghost use Rattle.fr_base.specs.Rows.{AreAscendingRows};

use crate::{NodeId, NodeRow, State};
use std::marker::Model;

/// The greatest number of rows of a `RowList`: one for each node of a cluster.
pub const ROW_ROOM: usize = 64;

// What stands in the places that are not in use.
const NO_ROW: NodeRow = NodeRow {
    node: NodeId(1),
    start: 0,
    length: 0,
    rate: 0,
    offset: 0,
    state: State::Active,
    cut: 0,
};

/// The rows of a cycle, at most 64, in ascending order of node: contracts see their list. No call takes
/// memory.
#[derive(Debug, Drop)]
pub struct RowList {
    places: [NodeRow; ROW_ROOM],
    used: usize,
}

impl Model for RowList {
    ghost use Rattle.std.specs.Prelude.{◌≤◌, List, take};
    ghost use Rattle.fr_base.specs.declared.node_row.NodeRow.{NodeRow};
    ghost use Rattle.fr_base.specs.Rows.{AreAscendingRows};

    ghost Value = { List NodeRow };

    ghost view = { λ list. take list.used list.places };

    ghost invariant = { λ list. (list.used ≤ 64) × AreAscendingRows (take list.used list.places) };
}

impl RowList {
    /// A list of no rows.
    pub fn new() -> RowList
        ensures { result ≡ [] }
    {
        RowList {
            places: [NO_ROW; ROW_ROOM],
            used: 0,
        }
    }

    /// Removes all rows.
    pub fn clear(&mut self)
        ensures { self.new ≡ [] }
    {
        self.used = 0;
    }

    /// Puts the rows of another list in the place of its own.
    pub fn assign(&mut self, rows: &RowList)
        ensures { self.new ≡ rows.now }
    {
        self.places.copy_from_slice(&rows.places);
        self.used = rows.used;
    }

    /// Appends a row, whose node is above those of all rows that are there.
    pub fn push(&mut self, row: NodeRow)
        requires room { length self.old < ROW_ROOM }
        requires above { All (λ earlier. earlier.node < row.node) self.old }
        ensures { self.new ≡ self.old ++ row ∷ [] }
    {
        self.places[self.used] = row;
        self.used += 1;
    }

    /// The rows as a slice.
    pub fn as_slice(&self) -> &[NodeRow]
        ensures rows { result.now ≡ self.now }
        ensures few { length self.now ≤ ROW_ROOM }
        ensures ascending { AreAscendingRows self.now }
    {
        &self.places[..self.used]
    }

    /// How many rows there are.
    pub fn len(&self) -> usize
        ensures count { result ≡ length self.now }
        ensures most { result ≤ ROW_ROOM }
    {
        self.as_slice().len()
    }

    /// The row at a place, counted from 0; None exactly past the end.
    pub fn get(&self, place: usize) -> Option<&NodeRow>
        ensures { IsItemAt self.now place result }
    {
        self.as_slice().get(place)
    }
}
