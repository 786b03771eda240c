//! A buffer of a fixed size. The octets that wait to be written stand at its start.

ghost use Rattle.std.specs.Prelude.{◌≡◌, ◌+◌, ◌≤◌, ◌<◌, [], ◌++◌, length, take, drop, IfOk};

use std::alloc::{AllocError, Global};
use std::simd::prelude::*;

/// The size of a buffer, in octets: 64 KiB.
pub(crate) const ROOM: usize = 65_536;

/// Octets that wait to be written, in the order in which they were added.
#[derive(Drop)]
pub(crate) struct Buffer {
    // How many puts have added octets since octets were last removed. Each of them added at least one. It doesn't stand
    // beside `kept`: two counts that do are added to as one vector, which takes longer.
    recent: usize,
    octets: Vec<u8>,
    // How many octets wait. They are the first ones of `octets`.
    kept: usize,
    ghost room: { length octets.items ≡ 65536 },
    ghost within: { kept ≤ 65536 },
    ghost few: { recent ≤ kept },
}

impl Buffer {
    ghost use Rattle.giop_run.specs.Buffered.{buffered};

    /// Makes an empty buffer. Its memory is taken here.
    pub(crate) fn new(alloc: Global) -> Result<Buffer, AllocError>
        ensures octets { IfOk result (λ buffer. buffered buffer ≡ []) }
        ensures recent { IfOk result (λ buffer. buffer.recent ≡ 0) }
    {
        Ok(Buffer {
            octets: vec![in alloc; 0; ROOM]?,
            kept: 0,
            recent: 0,
        })
    }

    /// How many more octets the buffer has room for.
    #[inline(always)]
    pub(crate) fn room_left(&self) -> usize
        ensures { result + length (buffered self.now) ≡ 65536 }
    {
        ROOM - self.kept
    }

    /// The octets that wait.
    pub(crate) fn octets(&self) -> &[u8]
        ensures { result.now ≡ buffered self.now }
    {
        &self.octets[..self.kept]
    }

    /// Adds octets. The buffer must have room for them.
    #[inline(always)]
    pub(crate) fn add(&mut self, octets: &[u8])
        requires { length (buffered self.old) + length octets.now ≤ 65536 }
        ensures octets { buffered self.new ≡ buffered self.old ++ octets.now }
        ensures kept { self.new.kept ≡ self.old.kept + length octets.now }
        ensures recent { self.new.recent ≡ self.old.recent }
    {
        copy_to_start(octets, &mut self.octets[self.kept..]);
        self.kept += octets.len();
    }

    /// Adds the octets of a put, at least one, and counts the put. The buffer must have room for them.
    #[inline(always)]
    pub(crate) fn add_put(&mut self, octets: &[u8])
        requires some { 0 < length octets.now }
        requires room { length (buffered self.old) + length octets.now ≤ 65536 }
        ensures octets { buffered self.new ≡ buffered self.old ++ octets.now }
        ensures recent { self.new.recent ≡ self.old.recent + 1 }
    {
        self.add(octets);
        self.recent += 1;
    }

    /// How many puts were counted since this was last called.
    pub(crate) fn take_put_count(&mut self) -> usize
        ensures value { result ≡ self.old.recent }
        ensures octets { buffered self.new ≡ buffered self.old }
        ensures recent { self.new.recent ≡ 0 }
    {
        let recent = self.recent;
        self.recent = 0;
        recent
    }

    /// Removes the first octets, as many as `count` says. `take_put_count` must have been called
    /// after the last `add_put`.
    pub(crate) fn remove_first(&mut self, count: usize)
        requires within { count ≤ length (buffered self.old) }
        requires taken { self.old.recent ≡ 0 }
        ensures octets { buffered self.new ≡ drop count (buffered self.old) }
        ensures recent { self.new.recent ≡ 0 }
    {
        self.octets.copy_within(count..self.kept, 0);
        self.kept -= count;
    }
}

/// Copies octets to the start of a room. If they are 32 to 128, as in most lines, they are copied as two blocks of the same
/// size, which may overlap: a copy of a fixed size is a few moves, and a copy of any size is a call.
#[inline(always)]
fn copy_to_start(octets: &[u8], room: &mut [u8])
    requires { length octets.now ≤ length room.old }
    ensures size { length room.new ≡ length room.old }
    ensures head { take (length octets.now) room.new ≡ octets.now }
{
    match octets.len() {
        32..=64 => copy_first_and_last::<32>(octets, room),
        65..=128 => copy_first_and_last::<64>(octets, room),
        _ => room[..octets.len()].copy_from_slice(octets),
    }
}

/// Copies N to 2 N octets to the start of a room: the first N, and then the last N.
#[inline(always)]
fn copy_first_and_last<const N: usize>(octets: &[u8], room: &mut [u8])
    requires fits { length octets.now ≤ length room.old }
    requires within { (N ≤ length octets.now) × (length octets.now ≤ N + N) }
    ensures size { length room.new ≡ length room.old }
    ensures head { take (length octets.now) room.new ≡ octets.now }
{
    let last = octets.len() - N;
    Simd::<u8, N>::from_slice(octets).copy_to_slice(room);
    Simd::<u8, N>::from_slice(&octets[last..]).copy_to_slice(&mut room[last..]);
}
