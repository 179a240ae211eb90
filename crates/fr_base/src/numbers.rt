ghost use Rattle.std.specs.Prelude.{◌≡◌, ◌<◌, ◌^◌, ◌≤ℤ◌, IfOk, IfSome};
ghost use Rattle.fr_base.specs.Number.{magnitude_of, number_of, within};

/// Why a text gives no number in a range.
#[derive(Clone, Copy, Debug, PartialEq, Eq)]
pub enum NumberFault {
    /// The text is no number.
    NotDigits,
    /// It is one that lies outside the range.
    OutOfRange,
}

// The greatest number of digits that a number has; its value then fits 60 bits.
const MOST_DIGITS: usize = 18;

/// The number that a text writes: an optional `-` and then 1 to 18 decimal digits, of which the first may
/// be zeros. `NotDigits` where the text is no number, `OutOfRange` where it is one outside `lo` to `hi`.
pub fn number(text: &[u8], lo: i64, hi: i64) -> Result<i64, NumberFault>
    requires { lo ≤ℤ hi }
    ensures value { result ≡ within lo hi (number_of text.now) }
    ensures range { IfOk result (λ z. (lo ≤ℤ z) × (z ≤ℤ hi)) }
{
    let Some(value) = signed(text) else {
        return Err(NumberFault::NotDigits);
    };
    if value < lo || hi < value {
        return Err(NumberFault::OutOfRange);
    }
    Ok(value)
}

fn signed(text: &[u8]) -> Option<i64>
    ensures { result ≡ number_of text.now }
{
    if let [b'-', digits @ ..] = text {
        let size = magnitude(digits)?;
        Some(-(size as i64))
    } else {
        let size = magnitude(text)?;
        Some(size as i64)
    }
}

fn magnitude(digits: &[u8]) -> Option<u64>
    ensures value { result ≡ magnitude_of digits.now }
    ensures small { IfSome result (λ n. n < 10 ^ 18) }
{
    if digits.is_empty() || digits.len() > MOST_DIGITS {
        return None;
    }
    let mut sum = 0;
    for digit in digits {
        if !digit.is_ascii_digit() {
            return None;
        }
        sum = sum * 10 + u64::from(*digit - b'0');
    }
    Some(sum)
}
