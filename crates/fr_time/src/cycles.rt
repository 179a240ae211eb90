ghost use Rattle.std.specs.Prelude.{◌≡◌};
ghost use Rattle.fr_time.specs.Cycles.{cycle_count, is_odd};

/// Whether a cycle is odd.
pub fn is_odd(cycle: u32) -> bool
    ensures { result ≡ is_odd cycle }
{
    cycle % 2 == 1
}

/// The cycle count that a frame carries in a cycle (section 4.2.9).
pub fn cycle_count(cycle: u32) -> u8
    ensures { result ≡ cycle_count cycle }
{
    (cycle % 64) as u8
}
