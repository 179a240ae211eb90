ghost use Rattle.std.specs.Prelude.{◌≡◌, ◌≤◌, ◌≤ℤ◌, pos, neg_ℤ, int_lt, if◌then◌else◌};
ghost use Rattle.fr_base.specs.Within.{IsWithin};
ghost use Rattle.fr_course.specs.Readings.{fast_million, least_reading, least_ticks, most_reading, most_ticks, slow_million};
ghost use Rattle.fr_course.specs.Ranges.{greatest_cycle, greatest_cycle_reading, greatest_reading, greatest_ticks, IsDriftedMillion};

use crate::quotients::{ceiling, floor};

// The ticks of a nominal microtick.
const NOMINAL: i128 = 1_000_000;

// The least reading that so many ticks can be.
pub(crate) fn least_reading(drift: u64, ticks: i128) -> i128
    requires drift { drift ≤ 1000 }
    requires ticks { IsWithin greatest_cycle ticks }
    ensures value { result ≡ least_reading drift ticks }
    ensures within { IsWithin greatest_cycle_reading result }
    ensures some { pos 2 ≤ℤ ticks → pos 1 ≤ℤ result }
    ensures less { ticks ≤ℤ neg_ℤ (pos 1) → result ≤ℤ neg_ℤ (pos 1) }
{
    let million = outer_million(drift, ticks);
    let parts = ticks * million;
    floor(parts, NOMINAL)
}

// The greatest reading that so many ticks can be.
pub(crate) fn most_reading(drift: u64, ticks: i128) -> i128
    requires drift { drift ≤ 1000 }
    requires ticks { IsWithin greatest_cycle ticks }
    ensures value { result ≡ most_reading drift ticks }
    ensures within { IsWithin greatest_cycle_reading result }
    ensures some { pos 1 ≤ℤ ticks → pos 1 ≤ℤ result }
{
    -least_reading(drift, -ticks)
}

// The least number of ticks that a reading can be.
pub(crate) fn least_ticks(drift: u64, reading: i128) -> i128
    requires drift { drift ≤ 1000 }
    requires reading { IsWithin greatest_reading reading }
    ensures value { result ≡ least_ticks drift reading }
    ensures within { IsWithin greatest_ticks result }
{
    let million = inner_million(drift, reading);
    let parts = reading * NOMINAL;
    ceiling(parts, million)
}

// The greatest number of ticks that a reading can be.
pub(crate) fn most_ticks(drift: u64, reading: i128) -> i128
    requires drift { drift ≤ 1000 }
    requires reading { IsWithin greatest_reading reading }
    ensures value { result ≡ most_ticks drift reading }
    ensures within { IsWithin greatest_ticks result }
{
    -least_ticks(drift, -reading)
}

// What a million is on the slowest clock of a drift.
fn slow_million(drift: u64) -> i128
    requires { drift ≤ 1000 }
    ensures value { result ≡ slow_million drift }
    ensures within { IsDriftedMillion result }
{
    NOMINAL - drift as i128
}

// What a million is on the fastest one.
fn fast_million(drift: u64) -> i128
    requires { drift ≤ 1000 }
    ensures value { result ≡ fast_million drift }
    ensures within { IsDriftedMillion result }
{
    NOMINAL + drift as i128
}

// What a million of ticks is at least.
fn outer_million(drift: u64, ticks: i128) -> i128
    requires { drift ≤ 1000 }
    ensures value { result ≡
        (if int_lt ticks (pos 0) then fast_million drift else slow_million drift) }
    ensures within { IsDriftedMillion result }
{
    if ticks < 0 {
        fast_million(drift)
    } else {
        slow_million(drift)
    }
}

// Of which million a reading is the least number of ticks.
fn inner_million(drift: u64, reading: i128) -> i128
    requires { drift ≤ 1000 }
    ensures value { result ≡
        (if int_lt reading (pos 0) then slow_million drift else fast_million drift) }
    ensures within { IsDriftedMillion result }
{
    if reading < 0 {
        slow_million(drift)
    } else {
        fast_million(drift)
    }
}
