//! Sequence numbers, which have 32 bits and wrap around (RFC 9293, Sequence Numbers).

ghost use Rattle.std.specs.Prelude.{◌≡◌};
ghost use Rattle.tcp_waiting.specs.Numbers as spec;

/// How far `number` is after `next`, modulo 2^32.
pub fn ahead(next: u32, number: u32) -> u32
    ensures { result ≡ spec.ahead next number }
{
    number.wrapping_sub(next)
}

/// The number that is `count` after a number, modulo 2^32.
pub fn onward(number: u32, count: usize) -> u32
    ensures { result ≡ spec.onward number count }
{
    ((u64::from(number) + (count % 0x1_0000_0000) as u64) % 0x1_0000_0000) as u32
}

/// How far a number is before `next`; 0 if it is `next` or after it.
pub fn age(next: u32, number: u32) -> u32
    ensures { result ≡ spec.age next number }
{
    let ahead = ahead(next, number);
    if ahead < 0x8000_0000 {
        0
    } else {
        u32::MAX - ahead + 1
    }
}

/// Whether a number is after `next`, by less than 2^31.
pub fn is_to_come(next: u32, number: u32) -> bool
    ensures { result ≡ spec.is_to_come next number }
{
    let ahead = ahead(next, number);
    0 < ahead && ahead < 0x8000_0000
}

/// A number's signed distance from `next`, plus 2^31: the oldest number has the least rank.
pub fn rank(next: u32, number: u32) -> u32
    ensures { result ≡ spec.rank next number }
{
    ahead(next, number).wrapping_add(0x8000_0000)
}
