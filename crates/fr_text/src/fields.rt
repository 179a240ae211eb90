ghost use Rattle.std.specs.Prelude.{◌≡◌, ◌<◌, ◌≤◌, ◌^◌, [], length, slice_index_or, IfOk};
ghost use Rattle.csv.specs.Records.{fields_of};
ghost use Rattle.fr_text.specs.Fields.{both_of, hex_digits_in, natural_of, reason_of};

use csv::ByteRecord;
use fr_base::{NumberFault, Reason, number};

// The hexadecimal digits of the longest frame, of 262 bytes.
const MOST_DIGITS: usize = 524;

/// The bytes of one field of a record, by its place from 0.
pub fn field(row: &ByteRecord, place: usize) -> &[u8]
    requires { place < length (fields_of row.now) }
    ensures { result.now ≡ slice_index_or (fields_of row.now) place [] }
{
    row.get(place).unwrap()
}

/// How many hexadecimal digits a field has for the bytes of a frame; every byte counts as one. `OutOfRange` where there are more
/// than those of the longest frame, 524.
pub fn hex_digits(text: &[u8]) -> Result<usize, NumberFault>
    ensures { result ≡ hex_digits_in text.now }
{
    if text.len() > MOST_DIGITS {
        return Err(NumberFault::OutOfRange);
    }
    Ok(text.len())
}

/// The number from `low` to `high` that a field writes: `NotDigits` where it writes none, `OutOfRange`
/// where it writes another.
pub fn natural(text: &[u8], low: u64, high: u64) -> Result<u64, NumberFault>
    requires ordered { low ≤ high }
    requires signed { high < 2 ^ 63 }
    ensures value { result ≡ natural_of low high text.now }
    ensures from { IfOk result (λ n. low ≤ n) }
    ensures to { IfOk result (λ n. n ≤ high) }
{
    let value = number(text, low as i64, high as i64)?;
    Ok(value as u64)
}

/// Both of two numbers of a record. Within a reason all fields count alike, so the fault is `NotDigits`
/// where either is no number, else `OutOfRange` where either lies outside its range.
pub fn both<A: Drop, B: Drop>(
    first: Result<A, NumberFault>,
    second: Result<B, NumberFault>,
) -> Result<(A, B), NumberFault>
    ensures { result ≡ both_of first second }
{
    match (first, second) {
        (Ok(a), Ok(b)) => Ok((a, b)),
        (Ok(_), Err(why)) => Err(why),
        (Err(NumberFault::NotDigits), _) => Err(NumberFault::NotDigits),
        (Err(NumberFault::OutOfRange), Ok(_)) => Err(NumberFault::OutOfRange),
        (Err(NumberFault::OutOfRange), Err(why)) => Err(why),
    }
}

/// The reason for which a record is refused that has such a number.
pub fn reason_of(fault: NumberFault) -> Reason
    ensures { result ≡ reason_of fault }
{
    match fault {
        NumberFault::NotDigits => Reason::NotNumber,
        NumberFault::OutOfRange => Reason::OutOfRange,
    }
}
