//! The blocks of a text: its lines, but the lines of a declaration are one block.

ghost use Rattle.std.specs.Prelude.{◌≡◌, ◌∷◌, ◌++◌, [], IfOk};
ghost use Rattle.std.specs.List.{count_by};
ghost use Rattle.giop_sig_files.specs.Blocks.{begins_with, begins_declaration, opens_bracket, closes_bracket, continues_in_next_line};

use std::alloc::{AllocError, Global};

/// Whether a text begins with these octets.
fn begins_with(text: &[u8], word: &[u8]) -> bool
    ensures { result ≡ begins_with word.now text.now }
{
    text.starts_with(word)
}

/// Whether a block begins with the word of a declaration, or of the version.
#[tactic(auto, unfolding(crate::specs::Blocks::begins_declaration))]
pub(crate) fn begins_declaration(block: &[u8]) -> bool
    ensures { result ≡ begins_declaration block.now }
{
    begins_with(block, b"operation ")
        || begins_with(block, b"exception ")
        || begins_with(block, b"struct ")
        || begins_with(block, b"union ")
        || begins_with(block, b"enum ")
        || begins_with(block, b"key ")
        || begins_with(block, b"signatures ")
}

/// The front of a block, and how many braces and parentheses open and close in it.
#[derive(Drop)]
pub(crate) struct Front {
    pub(crate) octets: Vec<u8>,
    opening: usize,
    closing: usize,
    ghost opened: { opening ≡ count_by opens_bracket octets.items },
    ghost closed: { closing ≡ count_by closes_bracket octets.items },
}

impl Front {
    /// Makes an empty front.
    pub(crate) fn new(alloc: Global) -> Front
        ensures { result.octets.items ≡ [] }
    {
        Front {
            octets: Vec::new(alloc),
            opening: 0,
            closing: 0,
        }
    }

    /// Adds an octet.
    pub(crate) fn push(&mut self, octet: u8) -> Result<(), AllocError>
        ensures { IfOk result (λ _. self.new.octets.items ≡ self.old.octets.items ++ octet ∷ []) }
    {
        self.octets.push(octet)?;
        self.opening += usize::from(octet == b'{' || octet == b'(');
        self.closing += usize::from(octet == b'}' || octet == b')');
        Ok(())
    }

    /// Whether the front is a declaration that goes on in the next line.
    pub(crate) fn continues_in_next_line(&self) -> bool
        ensures { result ≡ continues_in_next_line self.now.octets.items }
    {
        let is_over = self.octets.as_slice().ends_with(b";") && self.opening == self.closing;
        begins_declaration(self.octets.as_slice()) && !is_over
    }
}
