//! The lines of a source, one after another.

ghost use Rattle.std.specs.Prelude.{◌≤◌, length};

use giop_lines::LINE_MAX;
use giop_run::{Look, Source, SourceFault};
use memchr::memchr;
use std::alloc::{AllocError, Global};

/// The greatest number of octets that are read at once.
const READ: usize = 65_536;

/// Octets that were read. Lines were taken from the first of them.
#[derive(Drop)]
pub struct Input {
    room: Vec<u8>,
    start: usize,
    end: usize,
    number: u64,
    ghost ordered: { start ≤ end },
    ghost within: { end ≤ length room.items },
}

impl Input {
    /// Makes one that has read nothing.
    pub fn new(alloc: Global) -> Result<Input, AllocError> {
        Ok(Input {
            room: vec![in alloc; 0; LINE_MAX + 1 + READ]?,
            start: 0,
            end: 0,
            number: 0,
        })
    }

    /// The number of the last line that was given, from 1.
    pub fn line_number(&self) -> u64 {
        self.number
    }

    /// Whether what was read begins as a capture does, if only the first line was given.
    pub fn begins_capture(&self) -> bool {
        self.number == 1 && Look::of(&self.room[..self.end]) == Look::Capture
    }

    /// Reads once. Returns whether octets came.
    pub fn read_more<S: Source>(&mut self, source: &mut S) -> Result<bool, SourceFault> {
        let left = self.end - self.start;
        self.room.copy_within(self.start..self.end, 0);
        self.start = 0;
        self.end = left;
        let room = &mut self.room[left..];
        let most = room.len().min(READ);
        let given = source.read(&mut room[..most])?;
        self.end = left + given;
        Ok(given > 0)
    }

    /// The next line that was read as a whole, without its LF, or octets that are longer than any line. None if more must
    /// be read.
    #[inline]
    pub fn next_line(&mut self) -> Option<&[u8]> {
        let left = &self.room[self.start..self.end];
        let count = match memchr(b'\n', left) {
            Some(count) => count,
            None if left.len() > LINE_MAX => left.len(),
            None => return None,
        };
        let start = self.start;
        self.number = self.number.saturating_add(1);
        self.start = self.end.min(start + count + 1);
        Some(&self.room[start..start + count])
    }
}
