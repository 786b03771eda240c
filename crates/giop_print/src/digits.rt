//! Hexadecimal digits, 16 at a time.

ghost use Rattle.std.specs.Prelude.{◌≡◌, ◌<◌, map, take, drop};
ghost use Rattle.std.specs.Simd.Lanes.{Each1};
ghost use Rattle.giop_print.specs.Text.{hex_digit, hex, hex_number};

use std::simd::prelude::*;

/// The digit of each of these numbers below 16, in one step if the processor looks up lanes.
#[inline(always)]
fn hex_digits(numbers: u8x16) -> u8x16
    requires { Each1 (λ number. number < 16) numbers }
    ensures { result ≡ map hex_digit numbers }
{
    u8x16::from_array(*b"0123456789abcdef").swizzle_dyn(numbers)
}

/// The two digits of each of 16 octets: first the digits of the first eight, and then those of the
/// others.
#[inline(always)]
pub(crate) fn digit_pairs(octets: u8x16) -> (u8x16, u8x16)
    ensures first { result.0 ≡ hex (take 8 octets) }
    ensures others { result.1 ≡ hex (drop 8 octets) }
{
    let high = octets >> u8x16::splat(4);
    let low = octets & u8x16::splat(15);
    let (first, others) = high.interleave(low);
    (hex_digits(first), hex_digits(others))
}

/// The 16 digits of a number.
#[inline(always)]
pub(crate) fn number_digits(n: u64) -> u8x16
    ensures { result ≡ hex_number 16 n }
{
    let octets = u64x2::from_array([n, 0]).to_le_bytes();
    let turned = octets.swizzle([7, 6, 5, 4, 3, 2, 1, 0, 7, 6, 5, 4, 3, 2, 1, 0]);
    let (digits, _) = digit_pairs(turned);
    digits
}
