//! Decimal numbers: appended to a text, and read from the front of one.
//!
//! Their text is what `{}` writes: no leading zero, no plus, and zero has no minus.
ghost use Rattle.std.specs.Prelude.{◌≡◌, ◌≤◌, ◌++◌, ℕ, ℤ, ◌==◌, ◌^◌};
ghost use Rattle.std.specs.Prelude.{List, if◌then◌else◌, ◌+◌, ◌*◌, ◌-◌, ◌&&◌};
ghost use Rattle.std.specs.Prelude.{nat_le, IfSome, IfNone, OnOk, OnErr};
ghost use Rattle.std.specs.Option.{option_map, option_and_then};
ghost use Rattle.std.specs.Char.{is_ascii_digit};
ghost use Rattle.std.specs.Fmt.{decimal, signed_decimal};
ghost use Rattle.tc_lists.specs.Decimals.{IsNumberAt, IsLongestNumberAt, IsIntegerAt};
ghost use Rattle.tc_lists.specs.Decimals.{IsLongestIntegerAt, more_digits, number_at};
ghost use Rattle.tc_lists.specs.Decimals.{negative, positive, integer_at};

use crate::NoMemory;
use itoa::Buffer;

/// Appends the text of a number.
pub fn append_number(number: u64, text: &mut Vec<u8>) -> Result<(), NoMemory>
    ensures appended { OnOk result (text.new.items ≡ text.old.items ++ decimal number) }
    ensures same { OnErr result (text.new.items ≡ text.old.items) }
{
    let mut buffer = Buffer::new();
    text.extend_from_slice(buffer.format(number).as_bytes())
}

/// Appends the text of a whole number.
pub fn append_integer(number: i64, text: &mut Vec<u8>) -> Result<(), NoMemory>
    ensures appended { OnOk result (text.new.items ≡ text.old.items ++ signed_decimal number) }
    ensures same { OnErr result (text.new.items ≡ text.old.items) }
{
    let mut buffer = Buffer::new();
    text.extend_from_slice(buffer.format(number).as_bytes())
}

/// The number at the front of the bytes, of at most `limit`, and what stands behind it.
///
/// The longest text of a number is taken: of `12` that is 12, of `01` it is 0, and `1` is left.
pub fn read_number(bytes: &[u8], limit: u64) -> Option<(u64, &[u8])>
    requires { 9 ≤ limit }
    ensures exact { option_map (λ r. (r.0, r.1.now)) result ≡ number_at limit bytes.now }
    ensures found { IfSome result (λ r. IsLongestNumberAt limit bytes.now r.0 r.1.now) }
    ensures none { IfNone result
        ((n : ℕ) (rest : List ℕ) → IsNumberAt limit bytes.now n rest → ⊥) }
{
    exact_number(bytes, limit)
}

// The number at the front, by its function on lists.
fn exact_number(bytes: &[u8], limit: u64) -> Option<(u64, &[u8])>
    requires { 9 ≤ limit }
    ensures { option_map (λ r. (r.0, r.1.now)) result ≡ number_at limit bytes.now }
{
    match bytes {
        [b'0', rest @ ..] => Some((0, rest)),
        [first, rest @ ..] if first.is_ascii_digit() => {
            Some(further_digits((*first - b'0') as u64, rest, limit))
        }
        _ => None,
    }
}

/// The whole number of 64 bits at the front of the bytes, and what stands behind it.
///
/// The longest text of a whole number is taken: of `-05` nothing, since zero has no minus.
pub fn read_integer(bytes: &[u8]) -> Option<(i64, &[u8])>
    ensures exact { option_map (λ r. (r.0, r.1.now)) result ≡ integer_at bytes.now }
    ensures found { IfSome result (λ r. IsLongestIntegerAt bytes.now r.0 r.1.now) }
    ensures none { IfNone result
        ((z : ℤ) (rest : List ℕ) → IsIntegerAt bytes.now z rest → ⊥) }
{
    exact_integer(bytes)
}

// The whole number at the front, by its function on lists.
fn exact_integer(bytes: &[u8]) -> Option<(i64, &[u8])>
    ensures { option_map (λ r. (r.0, r.1.now)) result ≡ integer_at bytes.now }
{
    match bytes {
        [b'-', behind @ ..] => behind_minus(behind),
        _ => without_minus(bytes),
    }
}

// The negative number whose digits stand at the front.
fn behind_minus(bytes: &[u8]) -> Option<(i64, &[u8])>
    ensures { option_map (λ r. (r.0, r.1.now)) result
        ≡ option_and_then negative (number_at (2 ^ 63) bytes.now) }
{
    let (size, rest) = read_number(bytes, i64::MIN.unsigned_abs())?;
    if size == 0 {
        return None;
    }
    Some((-((size - 1) as i64) - 1, rest))
}

// The number whose digits stand at the front.
fn without_minus(bytes: &[u8]) -> Option<(i64, &[u8])>
    ensures { option_map (λ r. (r.0, r.1.now)) result
        ≡ option_map positive (number_at (2 ^ 63 - 1) bytes.now) }
{
    let (size, rest) = read_number(bytes, i64::MAX as u64)?;
    Some((size as i64, rest))
}

// The number that further digits make of this one, within the limit; and what stands behind them.
fn further_digits(first: u64, bytes: &[u8], limit: u64) -> (u64, &[u8])
    ensures { (result.0, result.1.now) ≡ more_digits limit first bytes.now }
{
    let mut number = first;
    for (at, digit) in bytes.iter().enumerate() {
        match with_digit(number, *digit, limit) {
            Some(longer) => number = longer,
            None => return (number, &bytes[at..]),
        }
    }
    (number, &bytes[bytes.len()..])
}

// The number with one digit more, where the byte is a digit and the limit allows it.
fn with_digit(number: u64, byte: u8, limit: u64) -> Option<u64>
    ensures { let longer = number * 10 + (byte - 48) in
        result ≡ (if is_ascii_digit byte && nat_le longer limit then Some longer else None) }
{
    if !byte.is_ascii_digit() {
        return None;
    }
    let longer = number.checked_mul(10)?.checked_add((byte - b'0') as u64)?;
    if longer <= limit { Some(longer) } else { None }
}
