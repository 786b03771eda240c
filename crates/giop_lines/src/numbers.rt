//! Numbers as the lines have them. Each number has only one form.

ghost use Rattle.std.specs.Prelude.{◌≡◌, ◌^◌, IfSome, true};
ghost use Rattle.giop_lines.specs.Numbers.{IsNumberBelow, IsOrdinal, IsInteger, IsNegativeDigits, IsHexDigitValue, IsHexNumber, is_hex_digit};

use crate::words::after;

/// The greatest number of digits in a number.
const DIGITS_MAX: usize = 20;

/// The number below 2^64 that has these decimal digits.
pub fn number(digits: &[u8]) -> Option<u64>
    ensures { IsNumberBelow (2 ^ 64) digits.now result }
{
    if digits.is_empty() || digits.len() > DIGITS_MAX {
        return None;
    }
    if digits.len() > 1 && digits[0] == b'0' {
        return None;
    }
    let mut n: u64 = 0;
    for d in digits {
        if !d.is_ascii_digit() {
            return None;
        }
        n = n.checked_mul(10)?.checked_add(u64::from(*d - b'0'))?;
    }
    Some(n)
}

/// The number below 2^32 that has these decimal digits.
pub fn ulong(digits: &[u8]) -> Option<u32>
    ensures { IsNumberBelow (2 ^ 32) digits.now result }
{
    u32::try_from(number(digits)?).ok()
}

/// The number from 1 to 2^64 - 1 that has these decimal digits.
pub fn ordinal(digits: &[u8]) -> Option<u64>
    ensures { IsOrdinal digits.now result }
{
    match number(digits)? {
        0 => None,
        n => Some(n),
    }
}

/// The number from -2^63 to 2^63 - 1 that is written like this.
pub fn integer(text: &[u8]) -> Option<i64>
    ensures { IsInteger text.now result }
{
    match after(text, b"-") {
        Some(digits) => negative_of_digits(digits),
        None => i64::try_from(number(text)?).ok(),
    }
}

/// The number from -2^63 to -1 that has these decimal digits after its sign.
fn negative_of_digits(digits: &[u8]) -> Option<i64>
    ensures { IsNegativeDigits digits.now result }
{
    0i64.checked_sub_unsigned(ordinal(digits)?)
}

/// The value of a lower-case hexadecimal digit.
pub fn hex_digit_value(octet: u8) -> Option<u8>
    ensures { IsHexDigitValue octet result }
{
    if octet.is_ascii_digit() {
        Some(octet - b'0')
    } else if octet >= b'a' && octet <= b'f' {
        Some(octet - b'a' + 10)
    } else {
        None
    }
}

/// Whether an octet is a lower-case hexadecimal digit.
pub fn is_hex_digit(octet: u8) -> bool
    ensures { result ≡ is_hex_digit octet }
{
    octet.is_ascii_digit() || octet >= b'a' && octet <= b'f'
}

/// The number that at most 16 lower-case hexadecimal digits are.
pub fn number_of_hex_digits(digits: &[u8]) -> Option<u64>
    ensures { IfSome result (IsHexNumber digits.now) }
{
    if digits.len() > 16 {
        return None;
    }
    let mut n: u64 = 0;
    for octet in digits {
        n = n * 16 + u64::from(hex_digit_value(*octet)?);
    }
    Some(n)
}
