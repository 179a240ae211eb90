ghost use Rattle.std.specs.Prelude.{◌≡◌, ◌≤ℤ◌, pos};
ghost use Rattle.fr_base.specs.Within.{IsWithin};
ghost use Rattle.fr_course.specs.Readings.{ceiling_of};
ghost use Rattle.fr_time.specs.Position.{floor_of};
ghost use Rattle.fr_course.specs.Ranges.{greatest_dividend};

// What 64 bits hold, nearly.
const SHORT: i128 = 9_000_000_000_000_000_000;

// A quotient rounded down: by 64 bits where these hold both, which is several times as fast.
pub(crate) fn floor(number: i128, divisor: i128) -> i128
    requires { pos 1 ≤ℤ divisor }
    ensures { result ≡ floor_of number divisor }
{
    if -SHORT <= number && number <= SHORT && divisor <= SHORT {
        short_floor(number as i64, divisor as i64) as i128
    } else {
        number.div_euclid(divisor)
    }
}

fn short_floor(number: i64, divisor: i64) -> i64
    requires { pos 1 ≤ℤ divisor }
    ensures { result ≡ floor_of number divisor }
{
    number.div_euclid(divisor)
}

// A quotient rounded up.
pub(crate) fn ceiling(number: i128, divisor: i128) -> i128
    requires divisor { pos 1 ≤ℤ divisor }
    requires number { IsWithin greatest_dividend number }
    ensures { result ≡ ceiling_of number divisor }
{
    -floor(-number, divisor)
}
