//! Slots in an order, in memory that is allocated once. When a slot comes or goes, few others are
//! moved.

ghost use Rattle.std.specs.Prelude.{◌≡◌, ◌≤◌, ◌<◌, ◌*◌, ◌^◌, ◌++◌, ◌∷◌, suc, [], IfOk, get_or, length};
ghost use Rattle.std.specs.List.{insert, remove, concat};
ghost use Rattle.tcp_slots.specs.Order.{rows_of, HaveMemory, HasGap, IsFilled};

use std::alloc::{AllocError, Global};
use std::collections::VecDeque;
use std::marker::Model;

/// How many slots a block holds.
const BLOCK: usize = 1024;

/// Slots in an order. Each block is full, apart from the last one that isn't empty.
#[derive(Drop)]
pub struct Order {
    blocks: Vec<VecDeque<u32>>,
    len: usize,
}

impl Model for Order {
    ghost use Rattle.tcp_slots.specs.Order.{OrderView, order_of, IsSoundOrder};

    ghost Value = { OrderView };

    ghost view = { order_of };

    ghost invariant = { IsSoundOrder };
}

impl Order {
    /// An order without slots. There is memory for at least `most` slots, and no other call
    /// allocates.
    pub fn new(alloc: Global, most: usize) -> Result<Order, AllocError>
        requires { most ≤ 1_048_832 }
        ensures items { IfOk result (λ o. o.items ≡ []) }
        ensures most { IfOk result (λ o. most ≤ o.most) }
    {
        let count = most / BLOCK + 1;
        let mut blocks = Vec::with_capacity(alloc, count)?;
        while blocks.len() < count {
            let block = VecDeque::with_capacity(alloc, BLOCK)?;
            blocks.push_reserved(block);
        }
        Ok(Order { blocks, len: 0 })
    }

    /// How many slots there are.
    pub fn len(&self) -> usize
        ensures items { result ≡ length self.now.items }
        ensures small { result < 2 ^ 63 }
    {
        self.len
    }

    /// The slot at an index.
    pub fn at(&self, index: usize) -> u32
        requires { index < length self.now.items }
        ensures { result ≡ get_or self.now.items index 0 }
    {
        self.blocks[index / BLOCK][index % BLOCK]
    }

    /// Inserts a slot at an index. The slots from there on move one place on.
    pub fn insert(&mut self, index: usize, slot: u32)
        requires index { index ≤ length self.old.items }
        requires some { length self.old.items < self.old.most }
        ensures items { self.new.items ≡ insert self.old.items index slot }
        ensures most { self.new.most ≡ self.old.most }
    {
        insert_in_blocks(&mut self.blocks, self.len, index, slot);
        self.len += 1;
    }

    /// Removes the last slot, and answers it.
    pub fn pop(&mut self) -> u32
        requires { 0 < length self.old.items }
        ensures items { self.old.items ≡ self.new.items ++ result ∷ [] }
        ensures most { self.new.most ≡ self.old.most }
    {
        let slot = remove_last_of_blocks(&mut self.blocks, self.len);
        self.len -= 1;
        slot
    }

    /// Removes the slot at an index. The slots after it move one place back. Answers the slot.
    pub fn remove(&mut self, index: usize) -> u32
        requires { index < length self.old.items }
        ensures items { self.new.items ≡ remove self.old.items index }
        ensures slot { result ≡ get_or self.old.items index 0 }
        ensures most { self.new.most ≡ self.old.most }
    {
        let slot = self.at(index);
        remove_from_blocks(&mut self.blocks, self.len, index);
        self.len -= 1;
        slot
    }
}

/// Inserts a slot at an index. The free place after the last slot is moved to the block of that
/// place.
fn insert_in_blocks(blocks: &mut [VecDeque<u32>], len: usize, index: usize, slot: u32)
    requires memory { HaveMemory blocks.old }
    requires filled { IsFilled (rows_of blocks.old) }
    requires len { len ≡ length (concat (rows_of blocks.old)) }
    requires index { index ≤ len }
    requires some { len < 1024 * length blocks.old }
    ensures memory { HaveMemory blocks.new }
    ensures filled { IsFilled (rows_of blocks.new) }
    ensures items { concat (rows_of blocks.new) ≡ insert (concat (rows_of blocks.old)) index slot }
    ensures blocks { length blocks.new ≡ length blocks.old }
{
    let block = index / BLOCK;
    move_gap_earlier(blocks, len / BLOCK, block);
    // It can't fail: the block has a free place.
    let _inserted = blocks[block].insert(index % BLOCK, slot);
}

/// Removes the slot at an index. The place that becomes free is moved to the end.
fn remove_from_blocks(blocks: &mut [VecDeque<u32>], len: usize, index: usize)
    requires memory { HaveMemory blocks.old }
    requires filled { IsFilled (rows_of blocks.old) }
    requires len { len ≡ length (concat (rows_of blocks.old)) }
    requires index { index < len }
    ensures memory { HaveMemory blocks.new }
    ensures filled { IsFilled (rows_of blocks.new) }
    ensures items { concat (rows_of blocks.new) ≡ remove (concat (rows_of blocks.old)) index }
    ensures blocks { length blocks.new ≡ length blocks.old }
{
    let block = index / BLOCK;
    let _removed = blocks[block].remove(index % BLOCK);
    move_gap_later(blocks, block, (len - 1) / BLOCK);
}

/// Removes the last slot, and answers it.
fn remove_last_of_blocks(blocks: &mut [VecDeque<u32>], len: usize) -> u32
    requires memory { HaveMemory blocks.old }
    requires filled { IsFilled (rows_of blocks.old) }
    requires len { len ≡ length (concat (rows_of blocks.old)) }
    requires some { 0 < len }
    ensures memory { HaveMemory blocks.new }
    ensures filled { IsFilled (rows_of blocks.new) }
    ensures items { concat (rows_of blocks.old) ≡ concat (rows_of blocks.new) ++ result ∷ [] }
    ensures blocks { length blocks.new ≡ length blocks.old }
{
    let block = (len - 1) / BLOCK;
    if let Some(slot) = blocks[block].pop_back() {
        return slot;
    }
    unreachable!()
}

/// Moves a free place from one block to an earlier one.
fn move_gap_earlier(blocks: &mut [VecDeque<u32>], from: usize, to: usize)
    requires memory { HaveMemory blocks.old }
    requires gap { HasGap from (rows_of blocks.old) }
    requires order { to ≤ from }
    ensures memory { HaveMemory blocks.new }
    ensures gap { HasGap to (rows_of blocks.new) }
    ensures items { concat (rows_of blocks.new) ≡ concat (rows_of blocks.old) }
    ensures blocks { length blocks.new ≡ length blocks.old }
{
    let mut free = from;
    while free > to {
        free -= 1;
        move_last_to_next(blocks, free);
    }
}

/// Moves a free place from one block to a later one. The blocks before that one stay full.
fn move_gap_later(blocks: &mut [VecDeque<u32>], from: usize, to: usize)
    requires memory { HaveMemory blocks.old }
    requires gap { HasGap from (rows_of blocks.old) }
    requires order { from ≤ to }
    requires many { 1024 * to ≤ length (concat (rows_of blocks.old)) }
    ensures memory { HaveMemory blocks.new }
    ensures gap { HasGap to (rows_of blocks.new) }
    ensures items { concat (rows_of blocks.new) ≡ concat (rows_of blocks.old) }
    ensures blocks { length blocks.new ≡ length blocks.old }
{
    let mut free = from;
    while free < to {
        take_first_of_next(blocks, free);
        free += 1;
    }
}

/// Moves the last slot of a block to the front of the next block, which has a free place.
fn move_last_to_next(blocks: &mut [VecDeque<u32>], block: usize)
    requires memory { HaveMemory blocks.old }
    requires gap { HasGap (suc block) (rows_of blocks.old) }
    ensures memory { HaveMemory blocks.new }
    ensures gap { HasGap block (rows_of blocks.new) }
    ensures items { concat (rows_of blocks.new) ≡ concat (rows_of blocks.old) }
    ensures blocks { length blocks.new ≡ length blocks.old }
{
    if let Some(slot) = blocks[block].pop_back() {
        blocks[block + 1].push_front_reserved(slot);
    }
}

/// Moves the first slot of the next block to the end of a block that has a free place.
fn take_first_of_next(blocks: &mut [VecDeque<u32>], block: usize)
    requires memory { HaveMemory blocks.old }
    requires gap { HasGap block (rows_of blocks.old) }
    requires many { 1024 * suc block ≤ length (concat (rows_of blocks.old)) }
    ensures memory { HaveMemory blocks.new }
    ensures gap { HasGap (suc block) (rows_of blocks.new) }
    ensures items { concat (rows_of blocks.new) ≡ concat (rows_of blocks.old) }
    ensures blocks { length blocks.new ≡ length blocks.old }
{
    if let Some(slot) = blocks[block + 1].pop_front() {
        blocks[block].push_back_reserved(slot);
    }
}
