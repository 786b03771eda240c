//! Which slot a key has, in memory that is allocated once: the key of each slot, and the slots in
//! the order of their keys, so that a key is found by binary search.

ghost use Rattle.std.specs.Prelude.{◌≡◌, ◌≤◌, ◌<◌, [], ℕ, length, IfOk, IfSome, None, get_or, nat_le};
ghost use Rattle.std.specs.List.{insert, remove};
ghost use Rattle.std.specs.List.Sorted.{IsBinarySearchResult, IsSearchInRange};

use crate::order::Order;
use std::alloc::{AllocError, Global};
use std::cmp::Ordering;
use std::marker::Model;

/// The keys that are known, in order, and the slot of each. A search takes no longer for any choice
/// of keys. When a key comes or goes, few slots are moved, and no key.
#[derive(Drop)]
pub struct SlotTable<K: Ord> {
    /// The last key that each slot had.
    last: Vec<Option<K>>,
    /// The slots that keys have, in the order of the keys.
    order: Order,
    most: usize,
}

impl<K: Ord> Model for SlotTable<K> {
    ghost use Rattle.tcp_slots.specs.Table.{TableView, table_of, IsTable};

    ghost Value = { TableView K };

    ghost view = { λ t. table_of t.last.items t.order t.most };

    ghost invariant = { λ t. IsTable t.last.items t.order t.most };
}

impl<K: Ord + Copy> SlotTable<K> {
    /// A table without keys, with memory for at most `most`. No other call allocates.
    pub fn new(alloc: Global, most: usize) -> Result<SlotTable<K>, AllocError>
        requires { most ≤ 65536 }
        ensures keys { IfOk result (λ t. t.keys ≡ []) }
        ensures slots { IfOk result (λ t. t.slots ≡ []) }
        ensures most { IfOk result (λ t. t.most ≡ most) }
    {
        let last = vec![in alloc; None; most]?;
        let order = Order::new(alloc, most)?;
        Ok(SlotTable { last, order, most })
    }

    /// How many keys are known.
    pub fn len(&self) -> usize
        ensures { result ≡ length self.now.keys }
    {
        self.order.len()
    }

    /// Whether no more keys may be known.
    pub fn is_full(&self) -> bool
        ensures { result ≡ nat_le self.now.most (length self.now.keys) }
    {
        self.order.len() >= self.most
    }

    /// The index of a key in the order of the keys, or the index at which it would be inserted.
    pub fn index(&self, key: &K) -> Result<usize, usize>
        ensures index { IsBinarySearchResult (λ y. K.cmp y key.now) self.now.keys result }
        ensures range { IsSearchInRange result (length self.now.keys) }
    {
        let mut low = 0;
        let mut high = self.len();
        while low < high {
            let middle = low + (high - low) / 2;
            match self.key(middle).cmp(key) {
                Ordering::Equal => return Ok(middle),
                Ordering::Less => low = middle + 1,
                Ordering::Greater => high = middle,
            }
        }
        Err(low)
    }

    /// The key at an index.
    pub fn key(&self, index: usize) -> &K
        requires { index < length self.now.keys }
        ensures { (default : K) → result.now ≡ get_or self.now.keys index default }
    {
        match &self.last[self.order.at(index) as usize] {
            Some(key) => key,
            None => unreachable!(),
        }
    }

    /// The last key that a slot had.
    pub fn last_key(&self, slot: u32) -> Option<&K>
        ensures { IfSome result (λ key. (index : ℕ) (default : K) → index < length self.now.slots
            → get_or self.now.slots index 0 ≡ slot
            → get_or self.now.keys index default ≡ key.now) }
    {
        match self.last.get(slot as usize) {
            Some(Some(key)) => Some(key),
            _ => None,
        }
    }

    /// The slot of the key at an index.
    pub fn slot(&self, index: usize) -> u32
        requires { index < length self.now.keys }
        ensures { result ≡ get_or self.now.slots index 0 }
    {
        self.order.at(index)
    }

    /// The index of the key that has a slot. The last key of the slot is looked at first, and then
    /// all keys.
    pub fn index_of_slot(&self, slot: u32) -> Option<usize>
        ensures none { (result ≡ None) → (index : ℕ) → index < length self.now.slots
            → get_or self.now.slots index 0 ≡ slot → ⊥ }
        ensures some { IfSome result (λ index. (index < length self.now.slots)
            × (get_or self.now.slots index 0 ≡ slot)) }
    {
        match self.index_by_last_key(slot) {
            Some(index) => Some(index),
            None => self.index_by_walk(slot),
        }
    }

    /// The index of the last key of a slot, if the key still has this slot.
    fn index_by_last_key(&self, slot: u32) -> Option<usize>
        ensures { IfSome result (λ index. (index < length self.now.slots)
            × (get_or self.now.slots index 0 ≡ slot)) }
    {
        let Some(Some(key)) = self.last.get(slot as usize) else {
            return None;
        };
        let Ok(index) = self.index(key) else {
            return None;
        };
        if self.slot(index) == slot {
            return Some(index);
        }
        None
    }

    /// The index of the key that has a slot, found by looking at each index.
    fn index_by_walk(&self, slot: u32) -> Option<usize>
        ensures none { (result ≡ None) → (index : ℕ) → index < length self.now.slots
            → get_or self.now.slots index 0 ≡ slot → ⊥ }
        ensures some { IfSome result (λ index. (index < length self.now.slots)
            × (get_or self.now.slots index 0 ≡ slot)) }
    {
        let mut index = 0;
        while index < self.order.len() {
            if self.order.at(index) == slot {
                return Some(index);
            }
            index += 1;
        }
        None
    }

    /// Gives a key a slot that no other key has.
    pub fn add(&mut self, index: usize, key: K, slot: u32)
        requires index { index ≤ length self.old.keys }
        requires some { length self.old.keys < self.old.most }
        requires slot { slot < self.old.most }
        requires free { (index : ℕ) → index < length self.old.slots
            → get_or self.old.slots index 0 ≡ slot → ⊥ }
        ensures keys { self.new.keys ≡ insert self.old.keys index key }
        ensures slots { self.new.slots ≡ insert self.old.slots index slot }
        ensures most { self.new.most ≡ self.old.most }
    {
        self.last[slot as usize] = Some(key);
        self.order.insert(index, slot);
    }

    /// Forgets the key at an index, and keeps its memory. Answers the slot that the key had.
    pub fn forget(&mut self, index: usize) -> u32
        requires { index < length self.old.keys }
        ensures keys { self.new.keys ≡ remove self.old.keys index }
        ensures slots { self.new.slots ≡ remove self.old.slots index }
        ensures slot { result ≡ get_or self.old.slots index 0 }
        ensures most { self.new.most ≡ self.old.most }
    {
        self.order.remove(index)
    }
}
