//! Guesses of the slot of a connection from its endpoints, in memory that is allocated once.

ghost use Rattle.std.specs.Prelude.{◌≡◌, ◌≤◌, ◌<◌, ◌^◌, IfOk, get_or, set, replicate};
ghost use Rattle.std.specs.Vec.{vec_len};

use std::alloc::{AllocError, Global};
use tcp_segment::{Address, Endpoint};
use tcp_streams::EndpointPair;

/// The slot of the last connection of each bucket. It is only a guess, since connections may share a
/// bucket and slots are given back. The caller checks it.
#[derive(Drop)]
pub struct Guesses {
    slots: Vec<u16>,
    ghost some: { 1 ≤ vec_len slots },
}

impl Guesses {
    /// Buckets with slot 0 each. No other call allocates.
    pub fn new(alloc: Global, buckets: usize) -> Result<Guesses, AllocError>
        requires { 1 ≤ buckets }
        ensures { IfOk result (λ g. g.slots.items ≡ replicate buckets 0) }
    {
        let slots = vec![in alloc; 0; buckets]?;
        Ok(Guesses { slots })
    }

    /// The bucket of a connection, from the last octets of its addresses and its ports.
    pub fn bucket(&self, pair: &EndpointPair) -> usize {
        let lesser = number_of(pair.lesser).wrapping_mul(0x9e37_79b1);
        let greater = number_of(pair.greater).wrapping_mul(0x85eb_ca6b);
        ((lesser ^ greater) >> 13) as usize % self.slots.len()
    }

    /// The slot that is guessed for a bucket.
    pub fn at(&self, bucket: usize) -> u32
        ensures is { result ≡ get_or self.now.slots.items bucket 0 }
        ensures small { result < 2 ^ 16 }
    {
        u32::from(self.slots.get(bucket).copied().unwrap_or(0))
    }

    /// Sets the slot that is guessed for a bucket.
    pub fn note(&mut self, bucket: usize, slot: u32)
        requires { slot < 2 ^ 16 }
        ensures { self.new.slots.items ≡ set self.old.slots.items bucket slot }
    {
        if let Some(noted) = self.slots.get_mut(bucket) {
            *noted = slot as u16;
        }
    }
}

/// The last two octets of an endpoint's address, and then its port.
fn number_of(endpoint: Endpoint) -> u32 {
    let address = match endpoint.address {
        Address::V4(octets) => u32::from_be_bytes(octets),
        Address::V6(octets) => {
            u32::from_be_bytes([octets[12], octets[13], octets[14], octets[15]])
        }
    };
    address << 16 | u32::from(endpoint.port)
}
