ghost use Rattle.std.specs.Prelude.{◌≡◌, pos, ◌+ℤ◌, ◌-ℤ◌, ◌*ℤ◌};
ghost use Rattle.fr_base.specs.Within.{IsBetween, IsWithin};
ghost use Rattle.fr_course.specs.Course.{mean_from, mean_to, share_from, share_to};
ghost use Rattle.fr_course.specs.Ranges.{greatest_length, greatest_point};

use crate::quotients::{ceiling, floor};
use crate::scales::Scale;

// A share of a length, so many macroticks of a cycle, at least.
pub(crate) fn share_from(scale: &Scale, macroticks: i128, length: i128) -> i128
    requires macroticks { IsBetween (pos 0) scale.now.macros macroticks }
    requires length { IsWithin greatest_length length }
    ensures value { result ≡ share_from scale.now macroticks length }
    ensures within { IsWithin greatest_length result }
{
    let macros = scale.macros;
    let whole = macroticks * length;
    floor(whole, macros)
}

// The same at most.
pub(crate) fn share_to(scale: &Scale, macroticks: i128, length: i128) -> i128
    requires macroticks { IsBetween (pos 0) scale.now.macros macroticks }
    requires length { IsWithin greatest_length length }
    ensures value { result ≡ share_to scale.now macroticks length }
    ensures within { IsWithin greatest_length result }
{
    let macros = scale.macros;
    let whole = macroticks * length;
    ceiling(whole, macros)
}

// A point between two others that lie a cycle apart, so many macroticks before the second, at least.
pub(crate) fn mean_from(scale: &Scale, before: i128, first: i128, second: i128) -> i128
    requires before { IsBetween (pos 0) scale.now.macros before }
    requires first { IsWithin greatest_point first }
    requires second { IsWithin greatest_point second }
    ensures value { result ≡ mean_from scale.now before first second }
    ensures within { IsWithin greatest_point result }
{
    let macros = scale.macros;
    floor(weighed(scale, before, first, second), macros)
}

// The same at most.
pub(crate) fn mean_to(scale: &Scale, before: i128, first: i128, second: i128) -> i128
    requires before { IsBetween (pos 0) scale.now.macros before }
    requires first { IsWithin greatest_point first }
    requires second { IsWithin greatest_point second }
    ensures value { result ≡ mean_to scale.now before first second }
    ensures within { IsWithin greatest_point result }
{
    let macros = scale.macros;
    ceiling(weighed(scale, before, first, second), macros)
}

// The point, times the macroticks of a cycle.
fn weighed(scale: &Scale, before: i128, first: i128, second: i128) -> i128
    requires before { IsBetween (pos 0) scale.now.macros before }
    requires first { IsWithin greatest_point first }
    requires second { IsWithin greatest_point second }
    ensures value { result ≡ (before *ℤ first) +ℤ ((scale.now.macros -ℤ before) *ℤ second) }
    ensures within { IsWithin (scale.now.macros *ℤ greatest_point) result }
{
    let macros = scale.macros;
    let one = before * first;
    let behind = macros - before;
    let other = behind * second;
    one + other
}
