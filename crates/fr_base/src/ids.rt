use std::marker::Model;

/// A node of the cluster: a number from 1 to 64, which is what contracts see.
#[derive(Clone, Copy, Debug, PartialEq, Eq, PartialOrd, Ord)]
pub struct NodeId(pub u8);

impl Model for NodeId {
    ghost use Rattle.std.specs.Prelude.{ℕ, ◌≤◌};

    ghost Value = { ℕ };

    ghost view = { λ node. node.0 };

    ghost invariant = { λ node. (1 ≤ node.0) × (node.0 ≤ 64) };

    ghost inverse = { λ number. record { 0 = number } };
}

/// A static slot of a cycle: a number from 1 to 1023, which is what contracts see.
#[derive(Clone, Copy, Debug, PartialEq, Eq, PartialOrd, Ord)]
pub struct Slot(pub u16);

impl Model for Slot {
    ghost use Rattle.std.specs.Prelude.{ℕ, ◌≤◌};

    ghost Value = { ℕ };

    ghost view = { λ slot. slot.0 };

    ghost invariant = { λ slot. (1 ≤ slot.0) × (slot.0 ≤ 1023) };

    ghost inverse = { λ number. record { 0 = number } };
}
