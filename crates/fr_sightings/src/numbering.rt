ghost use Rattle.std.specs.Prelude.{◌≡◌, ◌≤◌, ◌≤ℤ◌, ◌+ℤ◌, ◌-ℤ◌, ◌*ℤ◌, neg_ℤ, pos};
ghost use Rattle.fr_base.specs.Within.{IsBetween, IsWithin, lies_within};
ghost use Rattle.fr_time.specs.Position.{floor_of};
ghost use Rattle.fr_course.specs.Numbering.{is_timely, longest_silence, next_number, nominal_cycle, scheduled};
ghost use Rattle.fr_course.specs.Ranges.{greatest_stamp};
ghost use Rattle.fr_sightings.specs.Ranges.{greatest_nominal_cycle, greatest_scheduled};

use fr_cluster::{ParamName, Params};

// The ticks of a nominal microtick.
pub(crate) const NOMINAL: u64 = 1_000_000;

// The number with a cycle count that lies from 32 cycles before another one to 31 behind it.
pub(crate) fn next_number(last: u32, count: u8) -> i64
    requires last { last ≤ 199_999 }
    requires count { count ≤ 63 }
    ensures value { result ≡ next_number (pos last) count }
    ensures near { IsBetween (neg_ℤ (pos 32)) (pos 31) (result -ℤ pos last) }
{
    count as i64 + 64 * turns(ahead(last, count))
}

// How far the last number that it may have lies ahead of its count.
fn ahead(last: u32, count: u8) -> i64
    requires last { last ≤ 199_999 }
    requires count { count ≤ 63 }
    ensures value { result ≡ (pos last +ℤ pos 31) -ℤ pos count }
    ensures within { IsWithin (pos 200_100) result }
{
    last as i64 + 31 - count as i64
}

// How many times the cycle count has begun again on the way.
fn turns(ahead: i64) -> i64
    requires { IsWithin (pos 200_100) ahead }
    ensures value { result ≡ floor_of ahead (pos 64) }
    ensures rest { IsBetween (pos 0) (pos 63) (ahead -ℤ (result *ℤ pos 64)) }
{
    ahead.div_euclid(64)
}

// The ticks of a cycle at the nominal microtick.
fn nominal_cycle(params: &Params) -> i64
    ensures value { result ≡ nominal_cycle params.now }
    ensures from { pos 0 ≤ℤ result }
    ensures to { result ≤ℤ greatest_nominal_cycle }
{
    (params.natural(ParamName::pMicroPerCycle) * NOMINAL) as i64
}

// The longest silence behind which a log goes on, in ticks.
pub(crate) fn longest_silence(params: &Params) -> i64
    ensures { result ≡ longest_silence params.now }
{
    30 * nominal_cycle(params)
}

// The macroticks of a cycle.
fn macros_of(params: &Params) -> i64
    ensures value { result ≡ params.now.macros }
    ensures within { IsBetween (pos 1) (pos 16_000) result }
{
    params.value(ParamName::gMacroPerCycle)
}

// How many macroticks lie between two of them.
fn macroticks_apart(cycles: i64, macros: i64, macroticks: i64) -> i64
    requires cycles { IsWithin (pos 32) cycles }
    requires macros { IsBetween (pos 1) (pos 16_000) macros }
    requires macroticks { IsWithin (pos 16_000) macroticks }
    ensures value { result ≡ (cycles *ℤ macros) +ℤ macroticks }
    ensures within { IsWithin (pos 600_000) result }
{
    cycles * macros + macroticks
}

// So many of the parts of a length, rounded down.
fn share(count: i64, length: i64, parts: i64) -> i64
    requires count { IsWithin (pos 600_000) count }
    requires length { IsBetween (pos 0) greatest_nominal_cycle length }
    requires parts { IsBetween (pos 1) (pos 16_000) parts }
    ensures value { result ≡ floor_of (count *ℤ length) parts }
    ensures within { IsWithin greatest_scheduled result }
{
    (count * length).div_euclid(parts)
}

// How much later the schedule has one action point than another, so many cycles and macroticks behind it, in ticks.
fn scheduled(params: &Params, cycles: i64, macroticks: i64) -> i64
    requires cycles { IsWithin (pos 32) cycles }
    requires macroticks { IsWithin (pos 16_000) macroticks }
    ensures value { result ≡ scheduled params.now cycles macroticks }
    ensures within { IsWithin greatest_scheduled result }
{
    let macros = macros_of(params);
    let apart = macroticks_apart(cycles, macros, macroticks);
    share(apart, nominal_cycle(params), macros)
}

// Half of a cycle, in ticks.
fn half_cycle(params: &Params) -> i64
    ensures value { result ≡ floor_of (nominal_cycle params.now) (pos 2) }
    ensures within { IsBetween (pos 0) greatest_nominal_cycle result }
{
    nominal_cycle(params).div_euclid(2)
}

// Whether frames that come so many ticks of the observer's clock apart come within half a cycle of the schedule.
pub(crate) fn is_timely(params: &Params, apart: i64, cycles: i64, macroticks: i64) -> bool
    requires apart { IsWithin (pos greatest_stamp) apart }
    requires cycles { IsWithin (pos 32) cycles }
    requires macroticks { IsWithin (pos 16_000) macroticks }
    ensures { result ≡ is_timely params.now apart cycles macroticks }
{
    lies_within(
        half_cycle(params),
        apart - scheduled(params, cycles, macroticks),
    )
}

// Whether a number lies within a bound of 0.
fn lies_within(bound: i64, value: i64) -> bool
    requires { IsBetween (pos 0) greatest_nominal_cycle bound }
    ensures { result ≡ lies_within bound value }
{
    !(value < -bound || bound < value)
}
