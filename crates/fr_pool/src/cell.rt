use std::marker::Model;

/// A cell of a pool that is out, by its number, counted from 0: it is what contracts see. `Pool::take` alone makes
/// one, it is neither copied nor dropped, and `Pool::give` alone takes it back.
#[must_use]
#[derive(Debug)]
pub struct Cell {
    pub(crate) place: usize,
}

impl Model for Cell {
    ghost use Rattle.std.specs.Prelude.{ℕ};

    ghost Value = { ℕ };

    ghost view = { λ cell. cell.place };
}
