ghost use Rattle.std.specs.Prelude.{◌≡◌, ◌<◌, [], ◌∷◌, ◌++◌, length, nat_lt};

use crate::sighting::Sighting;
use fr_base::{Channel, NodeId, Slot};
use std::marker::Model;

// How many frames of a double cycle can each be the first one of a node on a channel in a cycle.
const FIRST_ROOM: usize = 256;

// What stands behind the last one.
const NO_SIGHTING: Sighting = Sighting {
    number: 0,
    node: NodeId(1),
    slot: Slot(1),
    channel: Channel::A,
    count: 0,
    stamp: 0,
};

/// Sightings, each the first one of its node on its channel in its cycle, at most 256: contracts see their list. No call takes
/// memory.
#[derive(Drop)]
pub struct FirstList {
    sightings: [Sighting; FIRST_ROOM],
    used: usize,
}

impl Model for FirstList {
    ghost use Rattle.std.specs.Prelude.{◌≤◌, List, take};
    ghost use Rattle.fr_sightings.specs.declared.sighting.Sighting.{Sighting as Known};

    ghost Value = { List Known };

    ghost view = { λ list. take list.used list.sightings };

    ghost invariant = { λ list. list.used ≤ 256 };
}

impl FirstList {
    /// No sightings.
    pub fn new() -> FirstList
        ensures { result ≡ [] }
    {
        FirstList {
            sightings: [NO_SIGHTING; FIRST_ROOM],
            used: 0,
        }
    }

    /// Whether one more has room.
    pub fn has_room(&self) -> bool
        ensures { result ≡ nat_lt (length self.now) 256 }
    {
        self.as_slice().len() < FIRST_ROOM
    }

    /// Appends a sighting.
    pub fn push(&mut self, sighting: Sighting)
        requires { length self.old < 256 }
        ensures { self.new ≡ self.old ++ sighting ∷ [] }
    {
        self.sightings[self.used] = sighting;
        self.used += 1;
    }

    /// The sightings as a slice.
    pub fn as_slice(&self) -> &[Sighting]
        ensures { result.now ≡ self.now }
    {
        &self.sightings[..self.used]
    }
}
