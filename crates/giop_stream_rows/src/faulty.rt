//! Readers and writers that fail, or that take only a few octets at a time.

use giop_print::{Sheet, put_all};
use std::io;
use std::io::{ErrorKind, Read, Write};

/// A reader of these octets. After them it ends or fails.
#[derive(Drop)]
pub struct Octets<'a> {
    left: &'a [u8],
    is_broken: bool,
}

impl<'a> Octets<'a> {
    /// A reader that ends after these octets.
    pub fn whole(left: &'a [u8]) -> Octets<'a> {
        Octets {
            left,
            is_broken: false,
        }
    }

    /// A reader that fails after these octets.
    pub fn broken(left: &'a [u8]) -> Octets<'a> {
        Octets {
            left,
            is_broken: true,
        }
    }
}

impl Read for Octets<'_> {
    fn read(&mut self, into: &mut [u8]) -> io::Result<usize> {
        if self.is_broken && self.left.is_empty() {
            return Err(io::Error::from(ErrorKind::Other));
        }
        self.left.read(into)
    }
}

/// A writer that takes at most `width` octets at each write, and fails after `writes` writes.
#[derive(Drop)]
pub struct Narrow<'a, 's> {
    sheet: &'a mut Sheet<'s>,
    width: usize,
    writes: usize,
}

impl<'a, 's> Narrow<'a, 's> {
    /// Makes a writer to a sheet.
    pub fn new(sheet: &'a mut Sheet<'s>, width: usize, writes: usize) -> Narrow<'a, 's> {
        Narrow {
            sheet,
            width,
            writes,
        }
    }
}

impl Write for Narrow<'_, '_> {
    fn write(&mut self, bytes: &[u8]) -> io::Result<usize> {
        if self.writes == 0 {
            return Err(io::Error::from(ErrorKind::Other));
        }
        self.writes -= 1;
        let (front, _) = bytes.split_at(bytes.len().min(self.width));
        match put_all(self.sheet, front) {
            Ok(()) => Ok(front.len()),
            Err(_) => Err(io::Error::from(ErrorKind::Other)),
        }
    }

    fn flush(&mut self) -> io::Result<()> {
        Ok(())
    }
}
