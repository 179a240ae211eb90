ghost use Rattle.std.specs.Prelude.{◌≡◌, ◌<◌, ◌≤◌, ◌+◌, ◌++◌, ◌∷◌, [], length, All, IfOk};
ghost use Rattle.std.specs.Slice.{IsItemAt};
ghost use Rattle.fr_base.specs.Rows.{AreAscendingDevs, IsEarlierDev};

use crate::Dev;
use std::alloc::{AllocError, Global};
use std::marker::Model;

/// The deviations of a cycle, in ascending order of receiver, slot and channel. Contracts see their list,
/// and beside it how many more there is room for. Memory is taken once, by `with_room`.
#[derive(Debug, Drop)]
pub struct DevList {
    devs: Vec<Dev>,
}

impl Model for DevList {
    ghost use Rattle.std.specs.Prelude.{◌-◌, vec_len, vec_capacity};
    ghost use Rattle.fr_base.specs.Rows.{AreAscendingDevs, Roomy};

    ghost Value = { Roomy };

    ghost view = { λ list. record { entries = list.devs.items; spare = vec_capacity list.devs - vec_len list.devs } };

    ghost invariant = { λ list. AreAscendingDevs list.devs.items };
}

impl DevList {
    /// A list of no deviations with room for this many. `AllocError` where memory ran out.
    pub fn with_room(alloc: Global, room: usize) -> Result<DevList, AllocError>
        ensures empty { IfOk result (λ list. list.entries ≡ []) }
        ensures room { IfOk result (λ list. list.spare ≡ room) }
    {
        Ok(DevList {
            devs: Vec::with_capacity(alloc, room)?,
        })
    }

    /// Removes all deviations.
    pub fn clear(&mut self)
        ensures empty { self.new.entries ≡ [] }
        ensures room { self.old.spare + length self.old.entries ≤ self.new.spare }
    {
        self.devs.clear();
    }

    /// Appends a deviation, which comes after all that are there.
    pub fn push(&mut self, dev: Dev)
        requires room { 0 < self.old.spare }
        requires later { All (λ earlier. IsEarlierDev earlier dev) self.old.entries }
        ensures entries { self.new.entries ≡ self.old.entries ++ dev ∷ [] }
        ensures room { self.old.spare ≤ self.new.spare + 1 }
    {
        self.devs.push_reserved(dev);
    }

    /// The deviations as a slice.
    pub fn as_slice(&self) -> &[Dev]
        ensures devs { result.now ≡ self.now.entries }
        ensures ascending { AreAscendingDevs self.now.entries }
    {
        self.devs.as_slice()
    }

    /// How many deviations there are.
    pub fn len(&self) -> usize
        ensures { result ≡ length self.now.entries }
    {
        self.devs.len()
    }

    /// The deviation at a place, counted from 0; None exactly past the end.
    pub fn get(&self, place: usize) -> Option<&Dev>
        ensures { IsItemAt self.now.entries place result }
    {
        self.devs.get(place)
    }
}
