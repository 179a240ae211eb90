ghost use Rattle.std.specs.Prelude.{◌≡◌, ◌↔◌, ◌+ℤ◌, ◌+◌, ◌*◌, ◌<◌, ◌≤◌, pos, [], length, All, IsNone, IfSome, IsPermutation};
ghost use Rattle.fr_base.specs.Within.{IsWithin};
ghost use Rattle.fr_midpoint.specs.Midpoint.{IsMidpoint, MidpointIsFound, MidpointIsThere, MidpointIsUnique, discarded, half_of_sum, midpoint_of, most_value};

use crate::list15::List15;

/// The fault-tolerant midpoint (section 8.6.1): of 1 or 2 values none is discarded, of 3 to 7 the least
/// and the greatest, of 8 to 15 the two least and the two greatest; the least and the greatest that
/// remain are added and halved, truncated toward zero. The list is put into another order.
pub fn midpoint(values: &mut List15) -> Option<i32>
    ensures none { IsNone result ↔ (values.old ≡ []) }
    ensures midpoint { IfSome result (IsMidpoint values.old) }
    ensures value { result ≡ midpoint_of values.old }
    ensures within { IfSome result (IsWithin (pos most_value)) }
    ensures permutation { IsPermutation values.old values.new }
{
    let count = values.len;
    if count == 0 {
        return None;
    }
    Some(middle_of(&mut values.values[..count]))
}

// The midpoint of 1 to 15 values, which it sorts.
fn middle_of(values: &mut [i32]) -> i32
    requires some { 0 < length values.old }
    requires most { length values.old ≤ 15 }
    requires within { All (IsWithin (pos most_value)) values.old }
    ensures midpoint { IsMidpoint values.old result }
    ensures within { IsWithin (pos most_value) result }
    ensures permutation { IsPermutation values.old values.new }
{
    values.sort_unstable();
    let count = values.len();
    let ends = discarded_of(count);
    half_sum(values[ends], values[count - 1 - ends])
}

/// How many values of so many are discarded at each end (section 8.6.1).
pub fn discarded_of(count: usize) -> usize
    ensures value { result ≡ discarded count }
    ensures few { result ≤ 2 }
    ensures some_remain { 0 < count → 2 * result + 1 ≤ count }
{
    if count < 3 {
        0
    } else if count < 8 {
        1
    } else {
        2
    }
}

/// Half of the sum of two values, truncated toward zero.
pub fn half_sum(low: i32, high: i32) -> i32
    requires low { IsWithin (pos most_value) low }
    requires high { IsWithin (pos most_value) high }
    ensures value { result ≡ half_of_sum low high }
    ensures within { IsWithin (pos most_value) result }
{
    (low + high) / 2
}

/// The law that no list has two midpoints, and that the one it has is the number that the ranks of its
/// values give.
pub fn midpoint_is_unique()
    ensures unique { MidpointIsUnique }
    ensures found { MidpointIsFound }
{}

/// The law that a list with a value has its midpoint (section 8.6.1).
pub fn midpoint_is_there()
    ensures { MidpointIsThere }
{}
