ghost use Rattle.std.specs.Prelude.{◌≡◌, ◌*ℤ◌, pos};
ghost use Rattle.fr_base.specs.Timed.{IsLength};
ghost use Rattle.fr_base.specs.Within.{IsWithin};

/// The ticks of so many microticks of a length in ticks.
pub fn ticks_of(microticks: i64, length: i64) -> i64
    requires microticks { IsWithin (pos 2_200_000_000) microticks }
    requires length { IsLength length }
    ensures value { result ≡ microticks *ℤ length }
    ensures within { IsWithin (pos 3_300_000_000_000_000) result }
{
    microticks * length
}
