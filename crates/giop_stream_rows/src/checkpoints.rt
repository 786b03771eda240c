//! What a row says about its checkpoints: their lengths and a hash. There is a checkpoint after 0, 1, 2, .. octets of the
//! row's stream.

use super::early::times;
use std::alloc::Global;

/// The hash of no octets.
pub const NO_OCTETS: u32 = 0x811c_9dc5;

/// The lengths of a row's checkpoints, and the hash of their fixed parts one after another.
#[derive(Drop)]
pub struct Checkpoints {
    pub lengths: Vec<usize>,
    pub hash: u32,
}

impl Checkpoints {
    /// Parses a text: the hash in hexadecimal digits, and then the lengths. `*` and a number may follow a length. `None` if
    /// the text is another one, or if there isn't enough memory.
    pub fn read(alloc: Global, text: &str) -> Option<Checkpoints> {
        let (hash, words) = text.split_once(' ')?;
        let mut lengths = Vec::new(alloc);
        for word in words.split(' ') {
            let (length, count) = times(word)?;
            push(&mut lengths, length.parse().ok()?, count)?;
        }
        Some(Checkpoints {
            lengths,
            hash: u32::from_str_radix(hash, 16).ok()?,
        })
    }
}

fn push(lengths: &mut Vec<usize>, length: usize, count: usize) -> Option<()> {
    for _ in 0..count {
        lengths.push(length).ok()?;
    }
    Some(())
}

/// The hash of octets that come after others with this hash (FNV-1a, of 32 bits).
pub fn hashed(hash: u32, octets: &[u8]) -> u32 {
    let mut hash = hash;
    for octet in octets {
        hash = (hash ^ u32::from(*octet)).wrapping_mul(0x0100_0193);
    }
    hash
}
