//! The payloads that wait, in order. When one comes or goes, only the slots of few others are moved,
//! which have four octets each.

ghost use Rattle.std.specs.Prelude.{◌≡◌, ◌≤◌, ◌<◌, ◌^◌, [], length, get_or, set, reverse, IfOk};
ghost use Rattle.std.specs.List.{insert, remove};

use crate::pool::Waiting;
use slab::Slab;
use std::alloc::{AllocError, Global};
use std::marker::Model;
use tcp_slots::Order;

/// The payloads that wait, in order. All memory is allocated when it is made.
#[derive(Drop)]
pub(crate) struct Places {
    /// How many payloads may wait.
    room: usize,
    /// The slot in `slots` of the payload at each place, the last one first: so the first payload
    /// goes without a move of others.
    order: Order,
    slots: Slab<Waiting>,
}

impl Model for Places {
    ghost use Rattle.tcp_waiting.specs.Places.{PlacesView, places_of, AreSoundPlaces};

    ghost Value = { PlacesView };

    ghost view = { places_of };

    ghost invariant = { AreSoundPlaces };
}

impl Places {
    /// An order without payloads. It has memory for `room` payloads.
    pub(crate) fn with_capacity(alloc: Global, room: usize) -> Result<Places, AllocError>
        requires { room ≤ 1_048_832 }
        ensures empty { IfOk result (λ p. p.items ≡ []) }
        ensures room { IfOk result (λ p. p.room ≡ room) }
    {
        let order = Order::new(alloc, room)?;
        let slots = Slab::with_capacity(alloc, room)?;
        // A slab promises no bound, and a slot has to have 32 bits.
        if slots.capacity() > u32::MAX as usize {
            return Err(AllocError);
        }
        Ok(Places { room, order, slots })
    }

    /// How many payloads wait.
    pub(crate) fn len(&self) -> usize
        ensures items { result ≡ length self.now.items }
        ensures small { result < 2 ^ 63 }
    {
        self.order.len()
    }

    /// The payload at a place.
    pub(crate) fn at(&self, place: usize) -> Waiting
        requires { place < length self.now.items }
        ensures { result ≡ get_or self.now.items place result }
    {
        self.slots[slot_from_end(&self.order, place) as usize]
    }

    /// Inserts a payload before the one at a place, or at the end. There must be room.
    pub(crate) fn insert(&mut self, place: usize, waiting: Waiting)
        requires place { place ≤ length self.old.items }
        requires room { length self.old.items < self.old.room }
        ensures items { self.new.items ≡ insert self.old.items place waiting }
        ensures room { self.new.room ≡ self.old.room }
    {
        let number = self.slots.insert_reserved(waiting);
        insert_from_end(&mut self.order, place, number as u32);
    }

    /// Removes the payload at a place.
    pub(crate) fn remove(&mut self, place: usize)
        requires { place < length self.old.items }
        ensures items { self.new.items ≡ remove self.old.items place }
        ensures room { self.new.room ≡ self.old.room }
    {
        let number = remove_from_end(&mut self.order, place);
        self.slots.try_remove(number as usize);
    }

    /// Replaces the payload at a place.
    pub(crate) fn replace(&mut self, place: usize, waiting: Waiting)
        requires { place < length self.old.items }
        ensures items { self.new.items ≡ set self.old.items place waiting }
        ensures room { self.new.room ≡ self.old.room }
    {
        let number = slot_from_end(&self.order, place);
        self.slots[number as usize] = waiting;
    }
}

/// The slot at a place, if the last place comes first.
#[inline]
fn slot_from_end(order: &Order, place: usize) -> u32
    requires { place < length order.now.items }
    ensures { result ≡ get_or (reverse order.now.items) place 0 }
{
    order.at(order.len() - 1 - place)
}

/// Inserts a slot at a place, if the last place comes first.
fn insert_from_end(order: &mut Order, place: usize, slot: u32)
    requires place { place ≤ length order.old.items }
    requires some { length order.old.items < order.old.most }
    ensures items { reverse order.new.items ≡ insert (reverse order.old.items) place slot }
    ensures most { order.new.most ≡ order.old.most }
{
    let index = order.len() - place;
    order.insert(index, slot);
}

/// Removes the slot at a place, if the last place comes first, and answers it.
fn remove_from_end(order: &mut Order, place: usize) -> u32
    requires { place < length order.old.items }
    ensures items { reverse order.new.items ≡ remove (reverse order.old.items) place }
    ensures slot { result ≡ get_or (reverse order.old.items) place 0 }
    ensures most { order.new.most ≡ order.old.most }
{
    if place == 0 {
        return order.pop();
    }
    let index = order.len() - 1 - place;
    order.remove(index)
}
