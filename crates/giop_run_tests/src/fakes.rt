//! A reader and a writer that fail at a chosen call.

use std::cell::Cell;
use std::io;
use std::io::{ErrorKind, Read, Write};

/// A reader that counts its reads: the first of them, so many, are interrupted, the others give an octet each, and the read
/// number `fails_at`, counted from 0, fails.
#[derive(Drop)]
pub struct Reader<'a> {
    pub left: &'a [u8],
    pub reads: &'a Cell<usize>,
    pub interrupts: usize,
    pub fails_at: usize,
}

impl Read for Reader<'_> {
    fn read(&mut self, into: &mut [u8]) -> io::Result<usize> {
        let reads = self.reads.get();
        self.reads.set(reads.saturating_add(1));
        if reads < self.interrupts {
            return Err(io::Error::from(ErrorKind::Interrupted));
        }
        if reads == self.fails_at {
            return Err(io::Error::from(ErrorKind::Other));
        }
        match (self.left.split_first(), into.first_mut()) {
            (Some((octet, left)), Some(place)) => {
                *place = *octet;
                self.left = left;
                Ok(1)
            }
            _ => Ok(0),
        }
    }
}

/// A writer that takes at most 16 octets a write, if they are those that are wanted next, counts them, and fails at write
/// number `fails_at`, counted from 0.
#[derive(Drop)]
pub struct Writer<'a> {
    pub wanted: &'a [u8],
    pub held: &'a Cell<usize>,
    pub writes: usize,
    pub fails_at: usize,
}

impl Write for Writer<'_> {
    fn write(&mut self, bytes: &[u8]) -> io::Result<usize> {
        let writes = self.writes;
        self.writes = writes.saturating_add(1);
        let (taken, _) = bytes.split_at(bytes.len().min(16));
        match self.wanted.strip_prefix(taken) {
            Some(wanted) if writes != self.fails_at => {
                self.wanted = wanted;
                self.held.set(self.held.get().saturating_add(taken.len()));
                Ok(taken.len())
            }
            _ => Err(io::Error::from(ErrorKind::Other)),
        }
    }

    fn flush(&mut self) -> io::Result<()> {
        Ok(())
    }
}
