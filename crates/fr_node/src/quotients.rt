ghost use Rattle.std.specs.Prelude.{◌≡◌, ◌≤◌, ◌<◌, ◌*◌, ◌/◌, true};
ghost use Rattle.fr_node.specs.Arrivals.{most_behind_start};

// The quotient of ticks and a length, rounded down. Where `near` is not above it, and not far below, the division has
// 32 bits.
pub(crate) fn quotient(ticks: u64, length: u64, near: u64) -> u64
    requires some { 1 ≤ length }
    requires short { length ≤ 1_500_000 }
    requires near { near ≤ 700_000 }
    requires few { ticks ≤ most_behind_start }
    ensures value { result ≡ ticks / length }
    ensures most { result ≤ most_behind_start }
{
    let before = near * length;
    if ticks < before {
        return ticks / length;
    }
    let rest = ticks - before;
    if rest < 4_294_967_296 {
        near + u64::from(rest as u32 / length as u32)
    } else {
        ticks / length
    }
}

// Whether so many ticks lie between two macroticks of a cycle by more than a microtick, without a division.
pub(crate) fn lies_between(
    begin: u64,
    end: u64,
    micros: u64,
    macros: u64,
    length: u64,
    ticks: u64,
) -> bool
    requires begin { begin ≤ 16_000 }
    requires end { end ≤ 16_000 }
    requires micros { micros ≤ 660_000 }
    requires some { 1 ≤ macros }
    requires macros { macros ≤ 16_000 }
    requires long { 1 ≤ length }
    requires length { length ≤ 1_500_000 }
    requires ticks { ticks ≤ most_behind_start }
    ensures begun { result ≡ true → begin * micros / macros * length ≤ ticks }
    ensures not_ended { result ≡ true → ticks < end * micros / macros * length }
{
    let passed = ticks * macros;
    begin * micros * length <= passed && passed + macros * length <= end * micros * length
}
