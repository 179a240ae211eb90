use std::marker::Model;

/// By how much delays flutter at most, in ticks: a number from 0 to 1,000,000,000, which is what contracts see.
#[derive(Clone, Copy, Debug, PartialEq, Eq)]
pub struct Flutter(pub u64);

impl Model for Flutter {
    ghost use Rattle.std.specs.Prelude.{ℕ, ◌≤◌};
    ghost use Rattle.fr_bound.specs.SharpBounds.{most_flutter};

    ghost Value = { ℕ };

    ghost view = { λ flutter. flutter.0 };

    ghost invariant = { λ flutter. flutter.0 ≤ most_flutter };

    ghost inverse = { λ number. record { 0 = number } };
}
