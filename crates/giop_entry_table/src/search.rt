//! Searches for the first index of an id among many, from an index on, block by block.

ghost use Rattle.std.specs.Prelude.{◌≡◌, ◌<◌, ◌≤◌, ◌==◌, drop, length, IfSome};
ghost use Rattle.std.specs.List.{list_any, position_from};

use std::collections::VecDeque;

/// How many ids are compared before it is tested whether the id was found.
const BLOCK: usize = 64;

/// Whether an id is among these. All of them are compared without an early exit, so that several can be compared at once.
fn is_among(keys: &[u32], key: u32) -> bool
    ensures { result ≡ list_any (λ k. k == key) keys.now }
{
    let mut found = false;
    for k in keys {
        found |= *k == key;
    }
    found
}

/// The index of the first block, from an index on, that has the id, or of the last ids, which fill no block.
fn skip_blocks_without(keys: &[u32], from: usize, key: u32) -> usize
    requires { from ≤ length keys.now }
    ensures within { result ≤ length keys.now }
    ensures value { position_from (λ k. k == key) from (drop from keys.now)
        ≡ position_from (λ k. k == key) result (drop result keys.now) }
{
    let mut at = from;
    while BLOCK <= keys.len() - at && !is_among(&keys[at..at + BLOCK], key) {
        at += BLOCK;
    }
    at
}

/// The first index of an id, found by comparing one id after another.
fn first_index_of(keys: &[u32], key: u32) -> Option<usize>
    ensures value { result ≡ position_from (λ k. k == key) 0 keys.now }
    ensures within { IfSome result (λ k. k < length keys.now) }
{
    keys.iter().position(|k| *k == key)
}

/// The first index of an id in a slice, from this index on.
fn index_in(keys: &[u32], from: usize, key: u32) -> Option<usize>
    requires { from ≤ length keys.now }
    ensures value { result ≡ position_from (λ k. k == key) from (drop from keys.now) }
    ensures within { IfSome result (λ k. k < length keys.now) }
{
    let at = skip_blocks_without(keys, from, key);
    match first_index_of(&keys[at..], key) {
        Some(rest) => Some(at + rest),
        None => None,
    }
}

/// The first index of an id, from this index on.
pub(crate) fn first_index_from(keys: &VecDeque<u32>, from: usize, key: u32) -> Option<usize>
    requires { from ≤ length keys.now.items }
    ensures value { result ≡ position_from (λ k. k == key) from (drop from keys.now.items) }
    ensures within { IfSome result (λ k. k < length keys.now.items) }
{
    let (front, back) = keys.as_slices();
    match index_in(front, from.min(front.len()), key) {
        Some(index) => Some(index),
        None => match index_in(back, from.saturating_sub(front.len()), key) {
            Some(rest) => Some(front.len() + rest),
            None => None,
        },
    }
}
