//! Seconds with nine digits after the point, and how many nanoseconds they are.

ghost use Rattle.std.specs.Prelude.{◌≡◌, ◌+◌, ◌++◌, ◌/◌, ◌^◌, ◌<◌, OnOk};
ghost use Rattle.giop_stat_counts.specs.Seconds.{fraction, digits_after_first};

use std::alloc::AllocError;

/// The number of nanoseconds in a second.
const SECOND: u64 = 1_000_000_000;

/// The number of nanoseconds in a microsecond.
const MICROSECOND: u64 = 1_000;

/// How many nanoseconds these seconds with nine digits after the point are; None if there is no digit.
pub(crate) fn nanoseconds_of_seconds(text: &[u8]) -> Option<i128> {
    let (digits, is_negative) = match text {
        [b'-', digits @ ..] => (digits, true),
        digits => (digits, false),
    };
    if digits.is_empty() {
        return None;
    }
    let mut number: i128 = 0;
    for octet in digits {
        if octet.is_ascii_digit() {
            number = number
                .saturating_mul(10)
                .saturating_add(i128::from(*octet - b'0'));
        }
    }
    Some(if is_negative {
        number.saturating_neg()
    } else {
        number
    })
}

/// Appends nanoseconds as seconds with nine digits after the point.
pub(crate) fn put_seconds(text: &mut Vec<u8>, time: i128) -> Result<(), AllocError> {
    if time < 0 {
        text.push(b'-')?;
    }
    put_fraction(text, time.unsigned_abs(), SECOND)
}

/// Appends nanoseconds as seconds with six digits after the point, rounded to the nearest.
pub(crate) fn put_short_seconds(text: &mut Vec<u8>, time: i128) -> Result<(), AllocError> {
    let rounded = microseconds(time.unsigned_abs());
    if time < 0 && rounded > 0 {
        text.push(b'-')?;
    }
    put_fraction(text, rounded, SECOND / MICROSECOND)
}

/// The nearest number of microseconds, for a number of nanoseconds.
fn microseconds(time: u128) -> u128
    ensures { time < 2 ^ 127 → result ≡ (time + 500) / 1000 }
{
    time.saturating_add(u128::from(MICROSECOND / 2)) / u128::from(MICROSECOND)
}

/// Appends a number of parts as decimal digits with a point. `parts` of them make one, and `parts` is a power of ten.
fn put_fraction(text: &mut Vec<u8>, number: u128, parts: u64) -> Result<(), AllocError>
    requires { 0 < parts }
    ensures { OnOk result (text.new.items ≡ text.old.items ++ fraction number parts) }
{
    let parts = u128::from(parts);
    let mut buffer = itoa::Buffer::new();
    text.extend_from_slice(buffer.format(number / parts).as_bytes())?;
    text.extend_from_slice(b".")?;
    put_digits_after_first(text, parts + number % parts)
}

/// Appends the decimal digits of a number after the first one.
fn put_digits_after_first(text: &mut Vec<u8>, number: u128) -> Result<(), AllocError>
    ensures { OnOk result (text.new.items ≡ text.old.items ++ digits_after_first number) }
{
    let mut buffer = itoa::Buffer::new();
    let digits = buffer.format(number).as_bytes();
    let first = digits.len().min(1);
    text.extend_from_slice(&digits[first..])
}
