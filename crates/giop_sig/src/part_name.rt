//! The name of a member or a case, kept as a line shows it. It has a dot before it, and before that
//! octets that fill a block, so that a short name with its dot is the end of a block.

ghost use Rattle.std.specs.Prelude.{◌≡◌, ◌+◌, ◌++◌, codes, drop, length, IfOk};

use std::alloc::{AllocError, Global};
use std::marker::Model;

/// The octets before a name: 15 that no line shows, and the dot.
const BEFORE: [u8; 16] = *b"               .";

/// The name of a member or a case. A contract sees its octets.
#[derive(Drop)]
pub(crate) struct PartName {
    octets: Vec<u8>,
}

impl Model for PartName {
    ghost use Rattle.std.specs.Prelude.{ℕ, ◌≡◌, ◌++◌, List, codes, drop};

    ghost Value = { List ℕ };

    ghost view = { λ a. drop 16 a.octets.items };

    ghost invariant = { λ a. a.octets.items ≡ codes "               ." ++ drop 16 a.octets.items };
}

impl PartName {
    /// Keeps a name. Refused only for memory.
    pub(crate) fn new(alloc: Global, name: &[u8]) -> Result<PartName, AllocError>
        ensures { IfOk result (λ kept. kept ≡ name.now) }
    {
        let mut octets = Vec::with_capacity(alloc, BEFORE.len() + name.len())?;
        octets.extend_from_slice(&BEFORE)?;
        octets.extend_from_slice(name)?;
        Ok(PartName { octets })
    }

    /// The name alone.
    pub(crate) fn octets(&self) -> &[u8]
        ensures { result.now ≡ self.now }
    {
        &self.octets[BEFORE.len()..]
    }

    /// The name after a dot. The dot is the 16th octet, and the octets before it mean nothing.
    #[inline(always)]
    pub(crate) fn dotted(&self) -> &[u8]
        ensures size { length result.now ≡ 16 + length self.now }
        ensures text { drop 15 result.now ≡ codes "." ++ self.now }
    {
        &self.octets
    }
}
