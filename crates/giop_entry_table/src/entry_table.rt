//! Values under ids, in the order in which they were added.

ghost use Rattle.std.specs.Prelude.{◌≡◌, ◌+◌, ◌<◌, ◌≤◌, ◌==◌, ◌↔◌, [], ◌∷◌, ◌++◌, drop, length, nat_le, slice_get, option_copied, IsSome, IfSome, OnSome, IfNone, IfOk};
ghost use Rattle.std.specs.List.{remove, position_from};
ghost use Rattle.std.specs.Option.{option_map, option_copied_mut};
ghost use Rattle.std.specs.Borrow.{sem};

use crate::ids::Ids;
use crate::search::first_index_from;
use slab::Slab;
use std::alloc::{AllocError, Global};
use std::collections::VecDeque;
use std::marker::Model;

/// A value and its id.
#[derive(Drop)]
pub struct Entry<V> {
    pub key: u32,
    pub value: V,
}

/// Values under ids, in the order in which they were added. All of its memory is allocated when it is made.
#[derive(Drop)]
pub struct EntryTable<V> {
    // The greatest number of entries.
    most: usize,
    // The id of each entry.
    ids: Ids,
    // The number under which `values` has the value of each entry.
    numbers: VecDeque<usize>,
    values: Slab<V>,
}

impl<V> Model for EntryTable<V> {
    ghost use Rattle.giop_entry_table.specs.EntryTable.{Entries, entries_code};

    ghost Value = { Entries V };

    ghost coded = { entries_code V.code };

    ghost use Rattle.std.specs.Prelude.{length, ◌≤◌};
    ghost use Rattle.std.specs.VecDeque.{deque_capacity};
    ghost use Rattle.giop_entry_table.specs.EntryTableView.{entries_of, MatchesSlab, HasRoom};

    ghost view = { λ r. record {
      most = r.most;
      entries = entries_of r.values r.ids.keys.items r.numbers.items;
    } };

    ghost invariant = { λ r. MatchesSlab r.ids.keys.items r.numbers.items r.values
        × HasRoom r.most (deque_capacity r.ids.keys) (deque_capacity r.numbers) r.values
        × (length r.numbers.items ≤ r.most) };
}

impl<V> EntryTable<V> {
    ghost use Rattle.giop_entry_table.specs.MutBorrow.{lends_value, lends_get};

    /// Makes a table without entries, with memory for this number of them.
    pub fn new(alloc: Global, most: usize) -> Result<EntryTable<V>, AllocError>
        ensures most { IfOk result (λ r. r.most ≡ most) }
        ensures entries { IfOk result (λ r. r.entries ≡ []) }
    {
        Ok(EntryTable {
            most,
            ids: Ids::with_capacity(alloc, most)?,
            numbers: VecDeque::with_capacity(alloc, most)?,
            values: Slab::with_capacity(alloc, most)?,
        })
    }

    /// The greatest number of entries.
    pub fn most(&self) -> usize
        ensures { result ≡ self.now.most }
    {
        self.most
    }

    /// How many entries there are.
    pub fn len(&self) -> usize
        ensures value { result ≡ length self.now.entries }
        ensures few { result ≤ self.now.most }
    {
        self.numbers.len()
    }

    /// Whether the table has as many entries as it may have.
    pub fn is_full(&self) -> bool
        ensures { result ≡ nat_le self.now.most (length self.now.entries) }
    {
        self.len() >= self.most
    }

    /// The index of the first entry with this id.
    pub fn find(&self, key: u32) -> Option<usize>
        ensures value { result ≡ position_from (λ e. e.key == key) 0 self.now.entries }
        ensures within { IfSome result (λ index. index < length self.now.entries) }
    {
        self.ids.find(key)
    }

    /// The index of the first entry with this id after the entry at this index.
    pub(crate) fn find_after(&self, index: usize, key: u32) -> Option<usize>
        requires { index < length self.now.entries }
        ensures value { result
            ≡ position_from (λ e. e.key == key) (index + 1) (drop (index + 1) self.now.entries) }
        ensures within { IfSome result (λ k. k < length self.now.entries) }
    {
        first_index_from(&self.ids.keys, index + 1, key)
    }

    /// The id of the entry at this index.
    pub fn key(&self, index: usize) -> Option<u32>
        ensures { result ≡ option_map (λ e. e.key) (slice_get self.now.entries index) }
    {
        match self.ids.keys.get(index) {
            Some(key) => Some(*key),
            None => None,
        }
    }

    /// The value of the nth oldest entry, counted from 0.
    pub fn get(&self, nth_oldest: usize) -> Option<&V>
        ensures { option_copied result
            ≡ option_map (λ e. e.value) (slice_get self.now.entries nth_oldest) }
    {
        match self.numbers.get(nth_oldest) {
            Some(number) => self.values.get(*number),
            None => None,
        }
    }

    /// The value of the entry at this index, for writing.
    pub fn get_mut(&mut self, index: usize) -> Option<&mut V>
        ensures* writes_back { sem 𝓛 (lends_get V.row self.entry index result) }
        ensures value { option_copied_mut result
            ≡ option_map (λ e. e.value) (slice_get self.old.entries index) }
    {
        if index < self.len() {
            Some(self.value_mut(index))
        } else {
            None
        }
    }

    fn value_mut(&mut self, index: usize) -> &mut V
        requires { index < length self.old.entries }
        ensures* writes_back { sem 𝓛 (lends_value V.row self.entry index result) }
        ensures value { option_map (λ e. e.value) (slice_get self.old.entries index)
            ≡ Some result.now }
    {
        let number = self.numbers[index];
        &mut self.values[number]
    }

    /// Adds a value under this id, after the other entries. There must be room for it.
    #[inline(always)]
    pub fn add(&mut self, key: u32, value: V)
        requires { length self.old.entries < self.old.most }
        ensures entries { self.new.entries
            ≡ self.old.entries ++ record { key = key; value = value } ∷ [] }
        ensures most { self.new.most ≡ self.old.most }
    {
        let number = self.values.insert_reserved(value);
        self.numbers.push_back_reserved(number);
        self.ids.push_reserved(key);
    }

    /// Removes the nth oldest entry, counted from 0, and returns it. The entries after it move up.
    pub fn take(&mut self, nth_oldest: usize) -> Option<Entry<V>>
        ensures value { result ≡ slice_get self.old.entries nth_oldest }
        ensures variant { IsSome result ↔ (nth_oldest < length self.old.entries) }
        ensures entries { OnSome result (self.new.entries ≡ remove self.old.entries nth_oldest) }
        ensures len { OnSome result
            (length self.new.entries + 1 ≡ length self.old.entries) }
        ensures none { IfNone result (self.new ≡ self.old) }
        ensures most { self.new.most ≡ self.old.most }
    {
        match self.key(nth_oldest) {
            Some(key) => {
                let value = self.remove(nth_oldest);
                Some(Entry { key, value })
            }
            None => None,
        }
    }

    /// Removes the entry at this index and returns its value. There must be such an entry. The entries after it move up.
    #[inline(always)]
    pub fn remove(&mut self, index: usize) -> V
        requires { index < length self.old.entries }
        ensures value { option_map (λ e. e.value) (slice_get self.old.entries index)
            ≡ Some result }
        ensures entries { self.new.entries ≡ remove self.old.entries index }
        ensures len { length self.new.entries + 1 ≡ length self.old.entries }
        ensures most { self.new.most ≡ self.old.most }
    {
        self.ids.remove(index);
        match self.numbers.remove(index) {
            Some(number) => self.values.remove(number),
            None => unreachable!(),
        }
    }

    /// Drops all entries, and keeps the memory.
    pub fn clear(&mut self)
    where
        V: Drop,
        ensures entries { self.new.entries ≡ [] }
        ensures most { self.new.most ≡ self.old.most }
    {
        self.ids.clear();
        self.numbers.clear();
        self.values.clear();
    }
}
