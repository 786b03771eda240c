//! A writer that notes whether its reader is gone.

ghost use Rattle.std.specs.Prelude.{◌≡◌, ◌≢◌, true, false, IfOk, IfErr};
ghost use Rattle.std.specs.IoError.{error_kind};
ghost use Rattle.std.specs.Io.{WritesAtMost};
ghost use Rattle.std.specs.Io.KnownBytes.{WriteAppends};

use std::io;
use std::io::{ErrorKind, Write};

/// A writer that notes whether a write failed because nobody reads any more what is written, as it happens with a pipe
/// (EPIPE).
#[derive(Drop)]
pub struct Watched<W: Write> {
    inner: W,
    /// Whether a write has failed for this reason.
    pub reader_is_gone: bool,
}

impl<W: Write> Watched<W> {
    ghost use Rattle.giop_run.specs.Watched.{watched_inner};

    /// Makes one over this writer. As far as is known, the reader is there.
    pub fn new(inner: W) -> Watched<W>
        ensures inner { watched_inner result ≡ inner }
        ensures none { result.reader_is_gone ≡ false }
    {
        Watched {
            inner,
            reader_is_gone: false,
        }
    }
}

impl<W: Write> Write for Watched<W> {
    ghost use Rattle.giop_run.specs.Watched.{watched_inner};

    ghost contents = { λ p. W.contents (watched_inner p) };

    fn write(&mut self, octets: &[u8]) -> io::Result<usize>
        ensures bound { WritesAtMost result octets.now }
        ensures bytes { WriteAppends (W.contents (watched_inner self.old))
            (W.contents (watched_inner self.new)) result octets.now }
        ensures ok { IfOk result (λ _. self.new.reader_is_gone ≡ self.old.reader_is_gone) }
        ensures gone { IfErr result
            (λ e. error_kind e ≡ ErrorKind.BrokenPipe → self.new.reader_is_gone ≡ true) }
        ensures failed { IfErr result (λ e. error_kind e ≢ ErrorKind.BrokenPipe
            → self.new.reader_is_gone ≡ self.old.reader_is_gone) }
    {
        match self.inner.write(octets) {
            Ok(taken) => Ok(taken),
            Err(error) => {
                if error.kind() == ErrorKind::BrokenPipe {
                    self.reader_is_gone = true;
                }
                Err(error)
            }
        }
    }

    fn flush(&mut self) -> io::Result<()> {
        self.inner.flush()
    }
}
