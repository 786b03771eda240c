//! A carry: the octets that have come of a number that comes octet by octet.

ghost use Rattle.std.specs.Prelude.{◌≡◌, ℕ, ◌<◌, ◌≤◌, ◌↔◌, List, [], ◌∷◌, ◌++◌, length, IsTrue, IfOk, IsErr, Some};
ghost use Rattle.giop_cdr.specs.Numbers.{AreOctets, num, number_of};
ghost use Rattle.giop_cdr.specs.Primitives.{size_of};
ghost use Rattle.giop_cdr.specs.declared.prim.Primitive.TheVariants as prims;

use crate::fault::CdrFault;
use crate::number::{Number, number_of};
use crate::order::Order;
use crate::prim::{Prim, size};
use arrayvec::ArrayVec;
use std::marker::Model;

/// The octets that have come of a number, at most 8. A contract sees the list of the octets that are held.
#[derive(Clone, Debug, Default, Drop, PartialEq, Eq)]
pub struct Carry {
    octets: ArrayVec<u8, 8>,
}

impl Model for Carry {
    ghost use Rattle.std.specs.Prelude.{ℕ, ◌≤◌, List, length};
    ghost use Rattle.giop_cdr.specs.Numbers.{AreOctets};

    ghost Value = { List ℕ };

    ghost view = { λ carry. carry.octets.items };

    ghost inverse = { λ octets. record { octets = record { items = octets } } };

    ghost invariant = { λ carry. (length carry.octets.items ≤ 8) × AreOctets carry.octets.items };
}

impl Carry {
    /// Makes a carry that holds no octet.
    pub fn new() -> Carry
        ensures { result ≡ [] }
    {
        Carry {
            octets: ArrayVec::new(),
        }
    }

    /// How many octets are held.
    pub fn len(&self) -> usize
        ensures value { result ≡ length self.now }
        ensures within { result ≤ 8 }
        ensures octets { AreOctets self.now }
    {
        self.octets.len()
    }

    /// Whether no octet is held.
    pub fn is_empty(&self) -> bool
        ensures { IsTrue result ↔ (self.now ≡ []) }
    {
        self.octets.is_empty()
    }

    /// The octets that are held.
    pub fn as_slice(&self) -> &[u8]
        ensures value { result.now ≡ self.now }
        ensures within { length self.now ≤ 8 }
    {
        &self.octets
    }

    /// Drops all octets that are held.
    pub fn clear(&mut self)
        ensures { self.new ≡ [] }
    {
        self.octets.clear();
    }

    /// Takes one more octet.
    pub fn push(&mut self, octet: u8)
        requires { length self.old < 8 }
        ensures { self.new ≡ self.old ++ octet ∷ [] }
    {
        self.octets.push(octet);
    }

    /// Whether the carry holds as many octets as the primitive has.
    pub fn is_full_for(&self, prim: Prim) -> bool
        ensures { IsTrue result ↔ (length self.now ≡ size_of prim) }
    {
        self.len() == usize::from(size(prim))
    }

    /// The number that the held octets are, as the primitive that the carry is full for.
    pub fn value(&self, order: Order, prim: Prim) -> Result<Number, CdrFault>
        requires { length self.now ≡ size_of prim }
        ensures ok { IfOk result (λ number. number_of prim order self.now ≡ Some number) }
        // Only a boolean above 1 is refused.
        ensures err { IsErr result ↔ ((prim ≡ prims.Boolean) × (1 < num order self.now)) }
        ensures octets { AreOctets self.now }
    {
        number_of(order, prim, &self.octets)
    }
}
