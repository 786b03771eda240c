//! Values in the order in which they were added, each under an id, or at most one of them without an id.

ghost use Rattle.std.specs.Prelude.{◌≡◌, ◌+◌, ◌<◌, ◌≤◌, ◌↔◌, ℕ, [], ◌∷◌, ◌++◌, Option, Some, None, length, is_none, nat_le, slice_get, option_copied, IsSome, IfSome, OnSome, IfNone, IfOk};
ghost use Rattle.std.specs.List.{remove, position_from};
ghost use Rattle.std.specs.Option.{option_map, option_copied_mut};
ghost use Rattle.std.specs.Borrow.{sem};
ghost use Rattle.giop_entry_table.specs.OptionalIds.{is_id};
ghost use Rattle.giop_entry_table.specs.OptionalIdsView.{index_after_removal};

use crate::entry_table::EntryTable;
use std::alloc::{AllocError, Global};
use std::marker::Model;

/// The id under which the entry without an id stands in the table of all entries. An entry may have the same id.
const STAND_IN: u32 = 0;

/// A value, and its id if it has one.
#[derive(Drop)]
pub struct OptionalIdEntry<V> {
    pub key: Option<u32>,
    pub value: V,
}

/// Values in the order in which they were added, each under an id, or at most one of them without an id. All of its memory
/// is allocated when it is made.
#[derive(Drop)]
pub struct OptionalIdTable<V> {
    table: EntryTable<V>,
    // The index of the entry without an id.
    without_id: Option<usize>,
}

impl<V> Model for OptionalIdTable<V> {
    ghost use Rattle.giop_entry_table.specs.OptionalIds.{OptionalIdEntries, entries_code};

    ghost Value = { OptionalIdEntries V };

    ghost coded = { entries_code V.code };

    ghost use Rattle.std.specs.Prelude.{length, ◌<◌, IfSome};
    ghost use Rattle.giop_entry_table.specs.OptionalIdsView.{with_optional_ids};

    ghost view = { λ r. record {
      most = r.table.most;
      entries = with_optional_ids r.without_id r.table.entries;
    } };

    ghost invariant = { λ r. IfSome r.without_id (λ index. index < length r.table.entries) };
}

/// Whether an entry is at this index.
fn is_at(entry: Option<usize>, index: usize) -> bool
    ensures { result ≡ is_id index entry }
{
    match entry {
        Some(there) => there == index,
        None => false,
    }
}

/// The index of an entry after one is removed; none if it is that one.
fn index_after_removal(entry: Option<usize>, removed: usize) -> Option<usize>
    ensures { result ≡ index_after_removal entry removed }
{
    match entry {
        Some(index) if index == removed => None,
        Some(index) if removed < index => Some(index - 1),
        _ => entry,
    }
}

impl<V> OptionalIdTable<V> {
    ghost use Rattle.giop_entry_table.specs.OptionalIdsMutBorrow.{lends_get};

    /// Makes a table without entries, with memory for this number of them.
    pub fn new(alloc: Global, most: usize) -> Result<OptionalIdTable<V>, AllocError>
        ensures most { IfOk result (λ r. r.most ≡ most) }
        ensures entries { IfOk result (λ r. r.entries ≡ []) }
    {
        Ok(OptionalIdTable {
            table: EntryTable::new(alloc, most)?,
            without_id: None,
        })
    }

    /// The greatest number of entries.
    pub fn most(&self) -> usize
        ensures { result ≡ self.now.most }
    {
        self.table.most()
    }

    /// How many entries there are.
    pub fn len(&self) -> usize
        ensures value { result ≡ length self.now.entries }
        ensures few { result ≤ self.now.most }
    {
        self.table.len()
    }

    /// Whether the table has as many entries as it may have.
    pub fn is_full(&self) -> bool
        ensures { result ≡ nat_le self.now.most (length self.now.entries) }
    {
        self.table.is_full()
    }

    /// The index of the first entry with this id.
    #[inline(always)]
    pub fn find(&self, key: u32) -> Option<usize>
        ensures value { result ≡ position_from (λ e. is_id key e.key) 0 self.now.entries }
        ensures within { IfSome result (λ index. index < length self.now.entries) }
    {
        match self.table.find(key) {
            Some(index) => {
                if is_at(self.without_id, index) {
                    self.table.find_after(index, key)
                } else {
                    Some(index)
                }
            }
            None => None,
        }
    }

    /// The index of the entry without an id.
    pub fn without_id(&self) -> Option<usize>
        ensures value { result ≡ position_from (λ e. is_none e.key) 0 self.now.entries }
        ensures within { IfSome result (λ index. index < length self.now.entries) }
    {
        self.without_id
    }

    /// The id of the entry at this index, or `Some(None)` if that entry has none.
    pub fn key(&self, index: usize) -> Option<Option<u32>>
        ensures { result ≡ option_map (λ e. e.key) (slice_get self.now.entries index) }
    {
        match self.table.key(index) {
            Some(key) => {
                if is_at(self.without_id, index) {
                    Some(None)
                } else {
                    Some(Some(key))
                }
            }
            None => None,
        }
    }

    /// The value of the nth oldest entry, counted from 0.
    pub fn get(&self, nth_oldest: usize) -> Option<&V>
        ensures { option_copied result
            ≡ option_map (λ e. e.value) (slice_get self.now.entries nth_oldest) }
    {
        self.table.get(nth_oldest)
    }

    /// The value of the entry at this index, for writing.
    pub fn get_mut(&mut self, index: usize) -> Option<&mut V>
        ensures* writes_back { sem 𝓛 (lends_get V.row self.entry index result) }
        ensures value { option_copied_mut result
            ≡ option_map (λ e. e.value) (slice_get self.old.entries index) }
    {
        self.table.get_mut(index)
    }

    /// Adds a value under this id, after the other entries. There must be room for it.
    #[inline(always)]
    pub fn add(&mut self, key: u32, value: V)
        requires { length self.old.entries < self.old.most }
        ensures entries { self.new.entries
            ≡ self.old.entries ++ record { key = Some key; value = value } ∷ [] }
        ensures most { self.new.most ≡ self.old.most }
    {
        self.table.add(key, value);
    }

    /// Adds a value without an id, after the other entries. There must be room for it, and each other entry must have an
    /// id.
    #[inline(always)]
    pub fn add_without_id(&mut self, value: V)
        requires room { length self.old.entries < self.old.most }
        requires only { position_from (λ e. is_none e.key) 0 self.old.entries ≡ None }
        ensures entries { self.new.entries
            ≡ self.old.entries ++ record { key = None; value = value } ∷ [] }
        ensures most { self.new.most ≡ self.old.most }
    {
        self.without_id = Some(self.table.len());
        self.table.add(STAND_IN, value);
    }

    /// Removes the nth oldest entry, counted from 0, and returns it. The entries after it move up.
    pub fn take(&mut self, nth_oldest: usize) -> Option<OptionalIdEntry<V>>
        ensures value { result ≡ slice_get self.old.entries nth_oldest }
        ensures variant { IsSome result ↔ (nth_oldest < length self.old.entries) }
        ensures entries { OnSome result (self.new.entries ≡ remove self.old.entries nth_oldest) }
        ensures len { OnSome result
            (length self.new.entries + 1 ≡ length self.old.entries) }
        ensures none { IfNone result (self.new ≡ self.old) }
        ensures most { self.new.most ≡ self.old.most }
    {
        match self.key(nth_oldest) {
            Some(key) => {
                let value = self.remove(nth_oldest);
                Some(OptionalIdEntry { key, value })
            }
            None => None,
        }
    }

    /// Removes the entry at this index and returns its value. There must be such an entry. The entries after it move up.
    // It is inlined, so that no value is moved for a caller that drops it.
    #[inline(always)]
    pub fn remove(&mut self, index: usize) -> V
        requires { index < length self.old.entries }
        ensures value { option_map (λ e. e.value) (slice_get self.old.entries index)
            ≡ Some result }
        ensures entries { self.new.entries ≡ remove self.old.entries index }
        ensures len { length self.new.entries + 1 ≡ length self.old.entries }
        ensures most { self.new.most ≡ self.old.most }
    {
        let without_id = index_after_removal(self.without_id, index);
        self.without_id = without_id;
        self.table.remove(index)
    }

    /// Drops all entries, and keeps the memory.
    pub fn clear(&mut self)
    where
        V: Drop,
        ensures entries { self.new.entries ≡ [] }
        ensures most { self.new.most ≡ self.old.most }
    {
        self.without_id = None;
        self.table.clear();
    }
}
