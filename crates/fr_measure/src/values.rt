ghost use Rattle.std.specs.Prelude.{◌≡◌, ◌<◌, ◌++◌, ◌-ℤ◌, pos, length, All, slice_set};
ghost use Rattle.std.specs.Option.{ForSome, option_to_list};
ghost use Rattle.fr_base.specs.Within.{IsWithin};
ghost use Rattle.fr_measure.specs.Values.{least_of, change_of, mean_of, own_value_or};
ghost use Rattle.fr_measure.specs.Readings.{most_deviation};
ghost use Rattle.fr_midpoint.specs.Midpoint.{most_value};

use fr_midpoint::{List15, half_sum};

// Puts a deviation into a column.
pub(crate) fn put(column: &mut [Option<i32>; 15], index: usize, value: i32)
    requires index { index < 15 }
    requires within { IsWithin (pos most_deviation) value }
    requires all_within { All (λ entry. ForSome entry (IsWithin (pos most_deviation))) column.old }
    ensures value { column.new ≡ slice_set column.old index (Some value) }
    ensures all_within { All (λ entry. ForSome entry (IsWithin (pos most_deviation))) column.new }
{
    column[index] = Some(value);
}

// Appends a value, where there is one.
pub(crate) fn append(values: &mut List15, value: Option<i32>)
    requires room { length values.old < 15 }
    requires within { ForSome value (IsWithin (pos most_value)) }
    ensures { values.new ≡ values.old ++ option_to_list value }
{
    if let Some(value) = value {
        values.push(value);
    }
}

// The least of two deviations, either of which may be missing.
pub(crate) fn least(a: Option<i32>, b: Option<i32>) -> Option<i32>
    requires a_within { ForSome a (IsWithin (pos most_deviation)) }
    requires b_within { ForSome b (IsWithin (pos most_deviation)) }
    ensures value { result ≡ least_of a b }
    ensures within { ForSome result (IsWithin (pos most_deviation)) }
{
    match (a, b) {
        (Some(x), Some(y)) => Some(x.min(y)),
        (Some(x), None) => Some(x),
        (None, b) => b,
    }
}

// How far the odd cycle's deviation lies above the even one's, where both are there.
pub(crate) fn change(even: Option<i32>, odd: Option<i32>) -> Option<i32>
    requires even_within { ForSome even (IsWithin (pos most_deviation)) }
    requires odd_within { ForSome odd (IsWithin (pos most_deviation)) }
    ensures value { result ≡ change_of even odd }
    ensures within { ForSome result (IsWithin (pos most_value)) }
{
    match (even, odd) {
        (Some(x), Some(y)) => Some(difference(x, y)),
        _ => None,
    }
}

// Of two changes half of the sum, truncated toward zero; of one, that one.
pub(crate) fn mean(a: Option<i32>, b: Option<i32>) -> Option<i32>
    requires a_within { ForSome a (IsWithin (pos most_value)) }
    requires b_within { ForSome b (IsWithin (pos most_value)) }
    ensures value { result ≡ mean_of a b }
    ensures within { ForSome result (IsWithin (pos most_value)) }
{
    match (a, b) {
        (Some(x), Some(y)) => Some(half_sum(x, y)),
        (Some(x), None) => Some(x),
        (None, b) => b,
    }
}

// The later deviation less the earlier one.
fn difference(even: i32, odd: i32) -> i32
    requires even_within { IsWithin (pos most_deviation) even }
    requires odd_within { IsWithin (pos most_deviation) odd }
    ensures value { result ≡ odd -ℤ even }
    ensures within { IsWithin (pos most_value) result }
{
    odd - even
}
