//! A writer that notes whether its reader is gone.

ghost use Rattle.std.specs.Io.{WritesAtMost};
ghost use Rattle.std.specs.Io.KnownBytes.{WriteAppends};

use std::io;
use std::io::{ErrorKind, Write};

/// A writer that notes whether a write failed because nobody reads what it writes.
#[derive(Drop)]
pub(crate) struct WatchedWriter<W> {
    inner: W,
    is_unread: bool,
}

impl<W> WatchedWriter<W> {
    pub(crate) fn new(inner: W) -> WatchedWriter<W> {
        WatchedWriter {
            inner,
            is_unread: false,
        }
    }

    /// Whether a write failed because nobody reads what it writes.
    pub(crate) fn is_unread(&self) -> bool {
        self.is_unread
    }
}

impl<W: Write> Write for WatchedWriter<W> {
    ghost contents = { λ p. W.contents p.inner };

    fn write(&mut self, octets: &[u8]) -> io::Result<usize>
        ensures bound { WritesAtMost result octets.now }
        ensures bytes { WriteAppends (W.contents self.old.inner) (W.contents self.new.inner)
            result octets.now }
    {
        let written = self.inner.write(octets);
        if let Err(error) = &written {
            self.is_unread |= error.kind() == ErrorKind::BrokenPipe;
        }
        written
    }

    fn flush(&mut self) -> io::Result<()> {
        self.inner.flush()
    }
}
