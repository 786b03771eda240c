//! The number that octets are, and its value as a primitive.

ghost use Rattle.std.specs.Prelude.{◌≡◌, ◌^◌, ◌<◌, ◌≤◌, ◌↔◌, length, IfOk, IsErr, Some};
ghost use Rattle.giop_cdr.specs.declared.order.Order.TheVariants as orders;
ghost use Rattle.giop_cdr.specs.Numbers.{AreOctets, num, number_of, interpreted_as};
ghost use Rattle.giop_cdr.specs.Primitives.{size_of};
ghost use Rattle.giop_cdr.specs.declared.prim.Primitive.TheVariants as prims;

use crate::fault::CdrFault;
use crate::order::Order;
use crate::prim::Prim;

/// The value of a primitive.
#[derive(Clone, Copy, Debug, PartialEq, Eq, Hash)]
pub enum Number {
    /// The value of an octet or an unsigned integer.
    Unsigned(u64),
    /// The value of a signed integer.
    Signed(i64),
    /// The bits of a float (the lower 32) or a double.
    Bits(u64),
    /// The value of a boolean.
    Truth(bool),
    /// The octet of a char.
    Char(u8),
}

/// The value that the octets of a primitive are, as that primitive.
#[inline(always)]
pub fn number_of(order: Order, prim: Prim, octets: &[u8]) -> Result<Number, CdrFault>
    requires { length octets.now ≡ size_of prim }
    ensures ok { IfOk result (λ number. number_of prim order octets.now ≡ Some number) }
    // Only a boolean above 1 is refused.
    ensures err { IsErr result ↔ ((prim ≡ prims.Boolean) × (1 < num order octets.now)) }
    ensures octets { AreOctets octets.now }
{
    value_as_primitive(prim, number_in_order(order, octets))
}

/// The whole number that octets are in this byte order.
#[inline(always)]
fn number_in_order(order: Order, octets: &[u8]) -> u64
    requires { length octets.now ≤ 8 }
    ensures value { result ≡ num order octets.now }
    ensures bound { result < 256 ^ length octets.now }
{
    match order {
        Order::Big => heaviest_first(octets),
        Order::Little => lightest_first(octets),
    }
}

/// The value of a primitive that a whole number of its size is.
#[inline(always)]
#[tactic(auto, unfolding(crate::specs::Numbers::twos_complement))]
fn value_as_primitive(prim: Prim, n: u64) -> Result<Number, CdrFault>
    requires { n < 256 ^ size_of prim }
    ensures ok { IfOk result (λ number. interpreted_as prim n ≡ Some number) }
    ensures err { IsErr result ↔ ((prim ≡ prims.Boolean) × (1 < n)) }
{
    Ok(match prim {
        Prim::Octet | Prim::UShort | Prim::ULong | Prim::ULongLong => Number::Unsigned(n),
        Prim::Short => Number::Signed(i64::from((n as u16).cast_signed())),
        Prim::Long => Number::Signed(i64::from((n as u32).cast_signed())),
        Prim::LongLong => Number::Signed(n.cast_signed()),
        Prim::Float | Prim::Double => Number::Bits(n),
        Prim::Char => Number::Char(n as u8),
        Prim::Boolean => match n {
            0 => Number::Truth(false),
            1 => Number::Truth(true),
            _ => return Err(CdrFault::Boolean),
        },
    })
}

/// The whole number that octets are, the most significant octet first.
#[inline(always)]
#[tactic(auto, using(crate::proofs::Spelling::spelling_steps))]
fn heaviest_first(octets: &[u8]) -> u64
    requires { length octets.now ≤ 8 }
    ensures value { result ≡ num orders.Big octets.now }
    ensures bound { result < 256 ^ length octets.now }
{
    let mut n = 0;
    for octet in octets {
        n = n * 256 + u64::from(*octet);
    }
    n
}

/// The whole number that octets are, the least significant octet first.
#[inline(always)]
#[tactic(auto, using(crate::proofs::Spelling::spelling_steps))]
fn lightest_first(octets: &[u8]) -> u64
    requires { length octets.now ≤ 8 }
    ensures value { result ≡ num orders.Little octets.now }
    ensures bound { result < 256 ^ length octets.now }
{
    let mut n = 0;
    let mut left = octets.len();
    while left > 0 {
        left -= 1;
        n = n * 256 + u64::from(octets[left]);
    }
    n
}
