//! What the steps of `giopcap` get in place of the system: a capture in memory, and somebody who ignores the notices.

ghost use Rattle.std.specs.Prelude.{◌≡◌, None, Some};
ghost use Rattle.std.specs.declared.io.ErrorKind.TheVariants.{NotFound};

use giop_capture::{Notice, Notices};
use giop_run::{Inputs, Reading};
use std::alloc::Global;
use std::io;
use std::io::ErrorKind;

/// A system in which standard input has these octets, and there are no files.
#[derive(Clone, Copy)]
pub struct Memory<'a> {
    pub alloc: Global,
    pub octets: &'a [u8],
}

impl Alloc for Memory<'_> {
    type A = Global;

    fn alloc(&self) -> Global {
        self.alloc
    }
}

impl<'a> Inputs for Memory<'a> {
    type File = Reading<&'a [u8]>;

    type Standard = Reading<&'a [u8]>;

    ghost held = { λ _ _. None };

    ghost given = { λ m. Some m.octets.now };

    ghost refuses = { λ _ _ kind. kind ≡ NotFound };

    fn open(&self, _name: &str) -> io::Result<Reading<&'a [u8]>> {
        Err(io::Error::from(ErrorKind::NotFound))
    }

    fn standard_input(&self) -> Reading<&'a [u8]> {
        Reading::new(self.octets)
    }
}

/// Gets the notices, and ignores them.
#[derive(Drop)]
pub struct Nobody;

impl Notices for Nobody {
    ghost told = { λ _ _. Unit {0} };

    fn tell(&mut self, _notice: Notice) {}
}
