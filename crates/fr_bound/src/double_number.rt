use std::marker::Model;

/// Which double cycle of a run or of a log: a number from 0 to 999,999, which is what contracts see. No file has more of them.
#[derive(Clone, Copy, Debug, PartialEq, Eq, PartialOrd, Ord)]
pub struct DoubleNumber(pub u32);

impl Model for DoubleNumber {
    ghost use Rattle.std.specs.Prelude.{ℕ, ◌<◌};
    ghost use Rattle.fr_bound.specs.DoubleNumbers.{too_many_doubles};

    ghost Value = { ℕ };

    ghost view = { λ double. double.0 };

    ghost invariant = { λ double. double.0 < too_many_doubles };

    ghost inverse = { λ number. record { 0 = number } };
}
