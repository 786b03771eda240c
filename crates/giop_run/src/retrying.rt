//! A writer that tries interrupted calls again.

ghost use Rattle.std.specs.Prelude.{◌≡◌, ◌≢◌, IfErr};
ghost use Rattle.std.specs.IoError.{error_kind};
ghost use Rattle.std.specs.Io.{WritesAtMost};
ghost use Rattle.std.specs.Io.KnownBytes.{WriteAppends};

use super::reading::TRIES;
use std::io;
use std::io::{ErrorKind, Write};

/// A writer that tries a call again if it is interrupted, and fails if every try is interrupted.
#[derive(Drop)]
pub struct Retrying<S> {
    inner: S,
}

impl<S> Retrying<S> {
    ghost use Rattle.giop_run.specs.Retrying.{retrying_inner};

    /// Makes one over this writer.
    pub fn new(inner: S) -> Retrying<S>
        ensures { retrying_inner result ≡ inner }
    {
        Retrying { inner }
    }
}

impl<W: Write> Write for Retrying<W> {
    ghost use Rattle.giop_run.specs.Retrying.{retrying_inner};

    ghost contents = { λ p. W.contents (retrying_inner p) };

    fn write(&mut self, octets: &[u8]) -> io::Result<usize>
        ensures bound { WritesAtMost result octets.now }
        ensures bytes { WriteAppends (W.contents (retrying_inner self.old))
            (W.contents (retrying_inner self.new)) result octets.now }
        ensures retried { IfErr result (λ e. error_kind e ≢ ErrorKind.Interrupted) }
    {
        for _try in 0..TRIES {
            match self.inner.write(octets) {
                Err(error) if error.kind() == ErrorKind::Interrupted => {}
                written => return written,
            }
        }
        Err(io::Error::from(ErrorKind::TimedOut))
    }

    fn flush(&mut self) -> io::Result<()> {
        self.inner.flush()
    }
}
