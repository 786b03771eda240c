//! The payloads of all flows that wait, in order, in memory that is allocated once.

ghost use Rattle.std.specs.Prelude.{◌≡◌, ℕ, true, false, cond, ◌≤◌, ◌<◌, ◌+◌, ◌*◌, ◌/◌, ◌^◌, [], length, IfOk, IfSome, None, get_or, set, nat_eq, nat_lt};
ghost use Rattle.std.specs.List.{remove};
ghost use Rattle.std.specs.Vec.{vec_capacity};
ghost use Rattle.tcp_waiting.specs.Payload.{payload, no_payload, count_of, load_of, oldest_index, blocks_of, holds_as_long, holds_beyond_window, put, place_of, AreYounger, key as spec_key, ends_beyond_window as spec_ends_beyond_window};
ghost use Rattle.tcp_waiting.specs.Layout.{AreWithin, total_octets, held_in, is_of_flow_at, holds_beyond_window_but};

use crate::arrival::Arrival;
use crate::numbers::{ahead, is_to_come};
use crate::places::Places;
use std::alloc::{AllocError, Global};
use std::cell::Cell;
use std::marker::Model;
use std::mem::swap;

/// How many octets after the number that is due a payload may end.
pub const WINDOW: usize = 1_048_576;

/// A payload that waits: its place in memory, and the packet that it came in.
#[derive(Clone, Copy)]
pub(crate) struct Waiting {
    time: Option<u128>,
    packet: u64,
    flow: u32,
    number: u32,
    from: usize,
    count: usize,
}

/// All payloads of a flow end at most `WINDOW` after `base`, apart from those with this number and
/// length.
#[derive(Clone, Copy)]
pub(crate) struct KnownEnds {
    base: u32,
    number: u32,
    count: usize,
}

/// Where a search ended, for which key, and how close payloads stood: how many have places in 2^32
/// numbers. The next search begins with this. It takes longer if the guess is bad.
#[derive(Drop)]
struct Guess {
    place: Cell<usize>,
    key: Cell<u128>,
    pace: Cell<u64>,
}

impl Guess {
    /// Nothing is known.
    fn new() -> Guess {
        Guess {
            place: Cell::new(0),
            key: Cell::new(0),
            pace: Cell::new(0),
        }
    }

    /// How many places a key is from another one, if there are so many numbers between them.
    #[inline(always)]
    fn places_for(&self, numbers: u64) -> usize {
        (numbers.wrapping_mul(self.pace.get()) / 0x1_0000_0000) as usize
    }

    /// Notes where the search for a key ended.
    #[inline(always)]
    fn note(&self, place: usize, key: u128) {
        let before = self.place.get();
        let places = if before < place {
            place - before
        } else {
            before - place
        };
        let last = self.key.get();
        let numbers = numbers_in(if last < key { key - last } else { last - key });
        if 0 < numbers && numbers < 0x1_0000_0000 {
            self.pace
                .set((places as u64).wrapping_mul(0x1_0000_0000) / numbers);
        }
        self.place.set(place);
        self.key.set(key);
    }
}

/// The payloads of all flows that wait, and the blocks that they take.
#[derive(Drop)]
pub struct Pool {
    waiting: Places,
    octets: Vec<u8>,
    /// When holes are closed, the octets are copied to this memory, and the two memories change
    /// places.
    spare: Vec<u8>,
    /// How many blocks each flow holds.
    loads: Vec<usize>,
    nears: Vec<Option<KnownEnds>>,
    blocks: usize,
    used: usize,
    /// No payload came before this time, as far as it is known when.
    since: u128,
    /// Where the searches ended that were made last: for a payload, for the oldest number of a
    /// flow, and for its least number.
    last: Guess,
    oldest: Guess,
    least: Guess,
}

impl Model for Pool {
    ghost use Rattle.tcp_waiting.specs.Pool.{PoolView};

    ghost Value = { PoolView };

    ghost use Rattle.tcp_waiting.specs.Layout.{pool_view_of, IsSoundPool};

    ghost view = { pool_view_of };

    ghost invariant = { IsSoundPool };
}

impl Pool {
    /// A pool of `blocks` blocks of 1,024 octets each. For each flow below `flows` the pool counts
    /// the blocks that it holds, so that nothing is searched if it holds none.
    pub fn new(alloc: Global, blocks: usize, flows: usize) -> Result<Pool, AllocError>
        requires blocks { blocks ≤ 1_048_576 }
        requires few { flows ≤ 1_048_576 }
        ensures empty { IfOk result (λ p. p.held ≡ []) }
        ensures blocks { IfOk result (λ p. p.blocks ≡ blocks) }
    {
        let most = blocks + 256;
        let waiting = Places::with_capacity(alloc, most)?;
        let octets = Vec::with_capacity(alloc, 1024 * most)?;
        let spare = Vec::with_capacity(alloc, 1024 * most)?;
        let loads = vec![in alloc; 0; flows]?;
        let nears = vec![in alloc; None; flows]?;
        Ok(Pool {
            waiting,
            octets,
            spare,
            loads,
            nears,
            blocks,
            used: 0,
            since: u128::MAX,
            last: Guess::new(),
            oldest: Guess::new(),
            least: Guess::new(),
        })
    }

    /// How many payloads wait.
    pub fn len(&self) -> usize
        ensures held { result ≡ length self.now.held }
        ensures small { result < 2 ^ 63 }
    {
        self.waiting.len()
    }

    /// The place of the first payload whose key is at least `wanted`, or the end if there is none.
    /// The place at which the last search with this guess ended is looked at first.
    #[inline(always)]
    fn place(&self, guess: &Guess, wanted: u128) -> usize
        ensures place { result ≡ place_of wanted self.now.held }
    {
        let guessed = guess.place.get().min(self.waiting.len());
        if self.is_place(guessed, wanted) {
            return guessed;
        }
        self.search(guess, wanted)
    }

    /// Whether a place is known to be that of a key.
    #[inline(always)]
    fn is_place(&self, place: usize, wanted: u128) -> bool
        ensures { result ≡ true → place ≡ place_of wanted self.now.held }
    {
        !self.is_before(place, wanted) && (place == 0 || self.is_before(place - 1, wanted))
    }

    /// The place of a key, which is noted in the guess.
    #[inline(never)]
    fn search(&self, guess: &Guess, wanted: u128) -> usize
        ensures place { result ≡ place_of wanted self.now.held }
    {
        let (low, high) = self.bounds(guess, wanted);
        let place = self.place_between(low, high, wanted);
        guess.note(place, wanted);
        place
    }

    /// Two bounds of the place of a key. At most ten payloads are looked at: first at the guess,
    /// then where the key is if payloads stand as close as the guess says. If their numbers have
    /// equal distances, the bounds are soon the same. If one is of another flow, that is the last.
    #[inline]
    fn bounds(&self, guess: &Guess, wanted: u128) -> (usize, usize)
        ensures low { result.0 ≤ place_of wanted self.now.held }
        ensures high { place_of wanted self.now.held ≤ result.1 }
    {
        let mut low = 0;
        let mut high = self.waiting.len();
        let mut next = guess.place.get();
        let mut left = 10;
        while low < high && left > 0 {
            let middle = next.max(low).min(high - 1);
            let here = self.key_at(middle);
            let numbers;
            if here < wanted {
                numbers = numbers_in(wanted - here);
                low = middle + 1;
                next = middle.saturating_add(guess.places_for(numbers));
            } else {
                numbers = numbers_in(here - wanted);
                high = middle;
                next = middle.saturating_sub(guess.places_for(numbers));
            }
            left = if numbers < 0x1_0000_0000 { left - 1 } else { 0 };
        }
        (low, high)
    }

    /// The place of a key, between two bounds.
    #[inline]
    fn place_between(&self, low: usize, high: usize, wanted: u128) -> usize
        requires low { low ≤ place_of wanted self.now.held }
        requires high { place_of wanted self.now.held ≤ high }
        ensures place { result ≡ place_of wanted self.now.held }
    {
        let mut low = low;
        let mut high = high;
        while low < high {
            let middle = low + (high - low) / 2;
            if self.is_before(middle, wanted) {
                low = middle + 1;
            } else {
                high = middle;
            }
        }
        low
    }

    /// Whether a place is before that of a key.
    #[inline(always)]
    fn is_before(&self, place: usize, wanted: u128) -> bool
        ensures { result ≡ nat_lt place (place_of wanted self.now.held) }
    {
        if place >= self.waiting.len() {
            return false;
        }
        self.key_at(place) < wanted
    }

    /// The key of the payload at a place.
    #[inline(always)]
    fn key_at(&self, place: usize) -> u128
        requires { place < length self.now.held }
        ensures { (wanted : ℕ) → nat_lt result wanted
            ≡ nat_lt place (place_of wanted self.now.held) }
    {
        let here = self.waiting.at(place);
        key(here.flow, here.number, here.count)
    }

    /// Whether the payload at a place is one of this flow.
    fn is_of_flow_at(&self, place: usize, flow: u32) -> bool
        ensures { result ≡ is_of_flow_at place flow self.now.held }
    {
        place < self.waiting.len() && self.waiting.at(place).flow == flow
    }

    /// The index of the oldest payload that a flow holds, by the distance from `next`.
    pub fn oldest_index(&self, flow: u32, next: u32) -> Option<usize>
        ensures { result ≡ oldest_index flow next self.now.held }
    {
        // The pool is read so that the prover knows its invariant.
        let _waiting = &self.waiting;
        if self.surely_holds_none(flow) {
            return None;
        }
        let oldest = self.place(&self.oldest, key(flow, next.wrapping_add(0x8000_0000), 0));
        if self.is_of_flow_at(oldest, flow) {
            return Some(oldest);
        }
        let least = self.place(&self.least, key(flow, 0, 0));
        if self.is_of_flow_at(least, flow) {
            return Some(least);
        }
        None
    }

    /// Whether it is known that a flow holds nothing.
    fn surely_holds_none(&self, flow: u32) -> bool
        ensures { result ≡ true → count_of flow self.now.held ≡ 0 }
    {
        (flow as usize) < self.loads.len() && self.loads[flow as usize] == 0
    }

    /// How many blocks a flow holds. This is counted for the flows below `flows` of `new`; for any
    /// other, each payload is looked at.
    #[inline(always)]
    pub fn load(&self, flow: u32) -> usize
        ensures { result ≡ load_of flow self.now.held }
    {
        if (flow as usize) < self.loads.len() {
            return self.loads[flow as usize];
        }
        self.load_by_walk(flow)
    }

    /// How many blocks a flow holds, found by looking at each payload.
    #[cold]
    #[inline(never)]
    fn load_by_walk(&self, flow: u32) -> usize
        ensures { result ≡ load_of flow self.now.held }
    {
        // It is read so that the prover knows its range: no flow holds more blocks than are in use.
        let _used = self.used;
        let mut load = 0;
        let mut index = 0;
        while index < self.waiting.len() {
            let here = self.waiting.at(index);
            if here.flow == flow {
                load += blocks_for(here.count);
            }
            index += 1;
        }
        load
    }

    /// The sequence number of the payload at an index.
    pub fn number(&self, index: usize) -> u32
        requires { index < length self.now.held }
        ensures { result ≡ (get_or self.now.held index no_payload).number }
    {
        self.waiting.at(index).number
    }

    /// The octets of the payload at an index.
    pub fn octets(&self, index: usize) -> &[u8]
        requires { index < length self.now.held }
        ensures { result.now ≡ (get_or self.now.held index no_payload).octets }
    {
        let here = self.waiting.at(index);
        &self.octets[here.from..here.from + here.count]
    }

    /// The packet that the payload at an index came in.
    pub fn arrival(&self, index: usize) -> Arrival
        requires { index < length self.now.held }
        ensures { result ≡ (get_or self.now.held index no_payload).arrival }
    {
        let held = self.waiting.at(index);
        Arrival {
            time: held.time,
            packet: held.packet,
        }
    }

    /// Whether a flow holds a payload with this number and at least this length.
    pub fn holds_as_long(&self, flow: u32, number: u32, count: usize) -> bool
        ensures { result ≡ holds_as_long flow number count self.now.held }
    {
        if self.surely_holds_none(flow) {
            return false;
        }
        let place = self.search(&self.last, key(flow, number, count));
        self.is_of_flow_at(place, flow) && self.waiting.at(place).number == number
    }

    /// Whether a flow holds a payload that ends more than `WINDOW` after `next`, the number that is
    /// due.
    pub fn holds_beyond_window(&self, flow: u32, next: u32) -> bool
        ensures { result ≡ holds_beyond_window flow next self.now.held }
    {
        if self.surely_holds_none(flow) {
            return false;
        }
        if self.surely_within_window(flow, next) {
            return false;
        }
        self.beyond_window_by_ends(flow, next)
    }

    /// Whether it is known at once that no payload of a flow ends more than `WINDOW` after `next`.
    #[inline(always)]
    fn surely_within_window(&self, flow: u32, next: u32) -> bool
        ensures { result ≡ true → holds_beyond_window flow next self.now.held ≡ false }
    {
        match self.near(flow) {
            Some(near) => near.base == next && !ends_beyond_window(next, near.number, near.count),
            None => false,
        }
    }

    /// Whether a flow holds a payload that ends more than `WINDOW` after `next`, found by the only
    /// ones that may.
    #[inline(never)]
    fn beyond_window_by_ends(&self, flow: u32, next: u32) -> bool
        ensures { result ≡ holds_beyond_window flow next self.now.held }
    {
        match self.only_maybe_beyond_window(flow, next) {
            Some(last) => {
                ends_beyond_window(next, last.number, last.count)
                    && self.holds_as_long(flow, last.number, last.count)
            }
            None => self.beyond_window_by_walk(flow, next),
        }
    }

    /// The number and length of the only payloads of a flow that may end more than `WINDOW` after
    /// `next`. None if it isn't known that all others end before that.
    fn only_maybe_beyond_window(&self, flow: u32, next: u32) -> Option<KnownEnds>
        ensures { IfSome result (λ n.
            holds_beyond_window_but flow next n.number n.count self.now.held ≡ false) }
    {
        let Some(near) = self.near(flow) else {
            return None;
        };
        if near.base == next {
            return Some(near);
        }
        let Some(index) = self.oldest_index(flow, next) else {
            return None;
        };
        if ahead(near.base, next) <= 0x8000_0000
            && is_to_come(next, self.waiting.at(index).number)
        {
            return Some(near);
        }
        None
    }

    /// What is known of the ends of a flow's payloads.
    fn near(&self, flow: u32) -> Option<KnownEnds>
        ensures { IfSome result (λ n.
            holds_beyond_window_but flow n.base n.number n.count self.now.held ≡ false) }
    {
        if (flow as usize) < self.nears.len() {
            return self.nears[flow as usize];
        }
        None
    }

    /// Whether a flow holds a payload that ends more than `WINDOW` after `next`, found by looking
    /// at each payload.
    fn beyond_window_by_walk(&self, flow: u32, next: u32) -> bool
        ensures { result ≡ holds_beyond_window flow next self.now.held }
    {
        let mut index = 0;
        while index < self.waiting.len() {
            let here = self.waiting.at(index);
            if here.flow == flow && ends_beyond_window(next, here.number, here.count) {
                return true;
            }
            index += 1;
        }
        false
    }

    /// Whether it is known that each payload came less than `age` nanoseconds before a time, or at a
    /// time that isn't known.
    pub fn surely_younger(&self, age: u128, time: u128) -> bool
        ensures { result ≡ true → AreYounger age time self.now.held }
    {
        time.saturating_sub(self.since) < age
    }

    /// How many blocks the payloads take.
    pub fn blocks_in_use(&self) -> usize
        ensures { result ≡ blocks_of self.now.held }
    {
        self.used
    }

    /// How many blocks the pool has.
    pub fn blocks(&self) -> usize
        ensures { result ≡ self.now.blocks }
    {
        self.blocks
    }

    /// Holds a payload: its octets are copied. If `next` is the number that is due in the flow,
    /// `holds_beyond_window` takes less time from now on.
    pub fn hold(&mut self, flow: u32, next: u32, number: u32, octets: &[u8], arrival: Arrival)
        requires some { 0 < length octets.now }
        requires room { blocks_of self.old.held +
            (length octets.now + 1023) / 1024 ≤ self.old.blocks + 256 }
        ensures held { self.new.held ≡ put (payload flow number octets.now arrival)
            self.old.held }
        ensures blocks { self.new.blocks ≡ self.old.blocks }
    {
        let most = 1024 * (self.blocks + 256);
        let count = octets.len();
        let near = if self.holds_beyond_window(flow, next) {
            None
        } else {
            Some(KnownEnds {
                base: next,
                number,
                count,
            })
        };
        let place = self.place(&self.last, key(flow, number, count));
        note(&mut self.nears, flow, near);
        make_room(
            &mut self.waiting,
            &mut self.octets,
            &mut self.spare,
            count,
            most,
        );
        let from = self.octets.len();
        self.used += blocks_for(count);
        add_load(&mut self.loads, flow, blocks_for(count));
        self.since = earlier(self.since, arrival.time);
        // Neither call fails: the pool has had room for the most octets and payloads since it was
        // made.
        let _copied = self.octets.extend_from_slice(octets);
        self.waiting.insert(
            place,
            Waiting {
                flow,
                number,
                from,
                count,
                time: arrival.time,
                packet: arrival.packet,
            },
        );
    }

    /// Removes the payload at an index and frees its memory.
    pub fn remove(&mut self, index: usize)
        requires { index < length self.old.held }
        ensures held { self.new.held ≡ remove self.old.held index }
        ensures blocks { self.new.blocks ≡ self.old.blocks }
    {
        let removed = self.waiting.at(index);
        self.used -= blocks_for(removed.count);
        subtract_load(&mut self.loads, removed.flow, blocks_for(removed.count));
        self.waiting.remove(index);
        self.since = since_if_any(self.waiting.len(), self.since);
    }
}

/// The order of payloads as one number: by flow, then by sequence number, then by length.
fn key(flow: u32, number: u32, count: usize) -> u128
    ensures { result ≡ spec_key flow number count }
{
    (u128::from(flow) * 0x1_0000_0000 + u128::from(number)) * 0x1_0000_0000 + count as u128
}

/// How many numbers there are in the distance of two keys, modulo 2^64.
#[inline(always)]
fn numbers_in(distance: u128) -> u64 {
    (distance / 0x1_0000_0000 % 0x1_0000_0000_0000_0000) as u64
}

/// Whether a payload ends more than `WINDOW` after `next`.
fn ends_beyond_window(next: u32, number: u32, count: usize) -> bool
    ensures { result ≡ spec_ends_beyond_window next number count }
{
    WINDOW < (ahead(next, number) as usize).saturating_add(count)
}

/// How many blocks `count` octets take.
fn blocks_for(count: usize) -> usize
    requires { count < 2 ^ 63 }
    ensures { result ≡ (count + 1023) / 1024 }
{
    (count + 1023) / 1024
}

/// The lesser of two times, if the second is known.
fn earlier(since: u128, time: Option<u128>) -> u128
    ensures since { result ≤ since }
    ensures time { IfSome time (λ came. result ≤ came) }
{
    match time {
        Some(time) => since.min(time),
        None => since,
    }
}

/// The time before which no payload came, if this many wait.
fn since_if_any(count: usize, since: u128) -> u128
    ensures { 0 < count → result ≡ since }
{
    if count == 0 { u128::MAX } else { since }
}

/// Counts blocks that a flow takes, if its blocks are counted.
fn add_load(loads: &mut Vec<usize>, flow: u32, blocks: usize)
    requires { (at : ℕ) → at < length loads.old.items
        → get_or loads.old.items at 0 + blocks < 2 ^ 64 }
    ensures len { length loads.new.items ≡ length loads.old.items }
    ensures loads { (at : ℕ) → at < length loads.old.items → get_or loads.new.items at 0
        ≡ get_or loads.old.items at 0 + cond (nat_eq flow at) blocks 0 }
{
    let at = flow as usize;
    if at < loads.len() {
        loads[at] += blocks;
    }
}

/// Counts blocks that a flow frees, if its blocks are counted.
fn subtract_load(loads: &mut Vec<usize>, flow: u32, blocks: usize)
    requires { flow < length loads.old.items → blocks ≤ get_or loads.old.items flow 0 }
    ensures len { length loads.new.items ≡ length loads.old.items }
    ensures loads { (at : ℕ) → at < length loads.old.items → get_or loads.new.items at 0
        + cond (nat_eq flow at) blocks 0 ≡ get_or loads.old.items at 0 }
{
    let at = flow as usize;
    if at < loads.len() {
        loads[at] -= blocks;
    }
}

/// Notes what is known of the ends of a flow's payloads, if its blocks are counted.
fn note(nears: &mut Vec<Option<KnownEnds>>, flow: u32, near: Option<KnownEnds>)
    ensures { nears.new.items ≡ set nears.old.items flow near }
{
    let at = flow as usize;
    if at < nears.len() {
        nears[at] = near;
    }
}

/// Copies the octets of all payloads to the spare memory, without holes. The two memories change
/// places.
fn pack(waiting: &mut Places, octets: &mut Vec<u8>, spare: &mut Vec<u8>)
    requires within { AreWithin (length octets.old.items) waiting.old.items }
    requires room { total_octets waiting.old.items ≤ vec_capacity spare.old }
    ensures held { held_in octets.new.items waiting.new.items
        ≡ held_in octets.old.items waiting.old.items }
    ensures within { AreWithin (length octets.new.items) waiting.new.items }
    ensures fits { length octets.new.items ≡ total_octets waiting.old.items }
    ensures places { waiting.new.room ≡ waiting.old.room }
    ensures room { vec_capacity spare.old ≤ vec_capacity octets.new }
    ensures spare { vec_capacity spare.new ≡ vec_capacity octets.old }
{
    spare.clear();
    let mut index = 0;
    while index < waiting.len() {
        let here = waiting.at(index);
        let from = spare.len();
        // It can't fail: the spare memory has room for all payloads.
        let _copied = spare.extend_from_slice(&octets[here.from..here.from + here.count]);
        waiting.replace(
            index,
            Waiting {
                flow: here.flow,
                number: here.number,
                from,
                count: here.count,
                time: here.time,
                packet: here.packet,
            },
        );
        index += 1;
    }
    swap(octets, spare);
}

/// Closes the holes if there is no room for `count` more octets.
fn make_room(
    waiting: &mut Places,
    octets: &mut Vec<u8>,
    spare: &mut Vec<u8>,
    count: usize,
    most: usize,
)
    requires within { AreWithin (length octets.old.items) waiting.old.items }
    requires bound { most < 2 ^ 62 }
    requires room { total_octets waiting.old.items + count ≤ most }
    requires spare { (most ≤ vec_capacity spare.old) × (most ≤ vec_capacity octets.old) }
    ensures held { held_in octets.new.items waiting.new.items
        ≡ held_in octets.old.items waiting.old.items }
    ensures within { AreWithin (length octets.new.items) waiting.new.items }
    ensures fits { length octets.new.items + count ≤ most }
    ensures places { waiting.new.room ≡ waiting.old.room }
    ensures room { most ≤ vec_capacity octets.new }
    ensures spare { most ≤ vec_capacity spare.new }
{
    if octets.len() + count > most {
        pack(waiting, octets, spare);
    }
}
