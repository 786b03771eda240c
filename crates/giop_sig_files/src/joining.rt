//! The text that several signature files are read as.

ghost use Rattle.std.specs.Prelude.{◌≡◌, ◌∷◌, ◌++◌, [], map, flat_map, IfOk};
ghost use Rattle.giop_sig_files.specs.Blocks.{blocks};
ghost use Rattle.giop_sig_files.specs.Joined.{is_repeated_declaration, joined, block_or_line_feeds, with_line_feed};

use crate::block::{Front, begins_declaration};
use crate::places::SignatureText;
use std::alloc::{AllocError, Global};

/// The blocks of a text.
fn blocks(alloc: Global, text: &[u8]) -> Result<Vec<Vec<u8>>, AllocError>
    ensures { IfOk result (λ bs. map (λ b. b.items) bs.items ≡ blocks text.now) }
{
    let mut blocks = Vec::new(alloc);
    let mut front = Front::new(alloc);
    for octet in text {
        if *octet == b'\n' && !front.continues_in_next_line() {
            blocks.push(front.octets)?;
            front = Front::new(alloc);
        } else {
            front.push(*octet)?;
        }
    }
    blocks.push(front.octets)?;
    Ok(blocks)
}

/// Whether a block is a declaration that stands among the blocks of earlier files.
fn is_repeated_declaration(before: &[Vec<u8>], block: &Vec<u8>) -> bool
    ensures { result ≡ is_repeated_declaration (map (λ b. b.items) before.now) block.now.items }
{
    begins_declaration(block.as_slice()) && before.contains(block)
}

/// Adds to a text what is taken of a block: all of it, or only its line feeds if an earlier file has the block.
fn append_block(text: &mut Vec<u8>, before: &[Vec<u8>], block: &Vec<u8>) -> Result<(), AllocError>
    ensures { IfOk result (λ _. text.new.items ≡ text.old.items
        ++ 10 ∷ block_or_line_feeds (map (λ b. b.items) before.now) block.now.items) }
{
    text.push(b'\n')?;
    if !is_repeated_declaration(before, block) {
        return text.extend_from_slice(block.as_slice());
    }
    for octet in block {
        if *octet == b'\n' {
            text.push(b'\n')?;
        }
    }
    Ok(())
}

/// Adds to a text what is taken of the blocks of a file.
fn append_blocks(
    text: &mut Vec<u8>,
    before: &[Vec<u8>],
    blocks: &[Vec<u8>],
) -> Result<(), AllocError>
    ensures { IfOk result (λ _. text.new.items ≡ text.old.items ++ flat_map with_line_feed
        (map (block_or_line_feeds (map (λ b. b.items) before.now))
        (map (λ b. b.items) blocks.now))) }
{
    for block in blocks {
        append_block(text, before, block)?;
    }
    Ok(())
}

/// The text that these files are read as.
pub fn joined(alloc: Global, files: &[SignatureText]) -> Result<Vec<u8>, AllocError>
    ensures { IfOk result (λ text. text.items ≡ joined (map (λ f. f.text.items) files.now)) }
{
    let mut text = Vec::new(alloc);
    let mut before = Vec::new(alloc);
    for file in files {
        let mut blocks = blocks(alloc, file.text.as_slice())?;
        append_blocks(&mut text, before.as_slice(), blocks.as_slice())?;
        before.append(&mut blocks)?;
    }
    match text.as_slice() {
        [] => Ok(text),
        [_, rest @ ..] => Vec::from_slice(alloc, rest),
    }
}
