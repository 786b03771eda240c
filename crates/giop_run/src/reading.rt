//! A reader of the standard library as a source.

ghost use Rattle.std.specs.Prelude.{◌≡◌, ◌≢◌, IfErr};
ghost use Rattle.std.specs.IoError.{error_kind};
ghost use Rattle.std.specs.Io.{ReadsAtMost};
ghost use Rattle.std.specs.Io.KnownBytes.{ReadConsumes};

use super::fault::SourceFault;
use super::source::{Source, saturating_add_one};
use std::io;
use std::io::{ErrorKind, Read};

/// How often a read or a write is tried before it fails: 2^16 times.
pub(crate) const TRIES: u32 = 1 << 16;

/// A reader as a source. The contracts know its octets if they know those of the reader.
#[derive(Drop)]
pub struct Reading<R: Read> {
    reader: R,
    reads: u64,
    failures: u64,
    ends: u64,
}

impl<R: Read> Reading<R> {
    ghost use Rattle.giop_run.specs.ReaderLog.{reading_log};

    /// Makes a source of what the reader gives. Nothing of it has been read.
    pub fn new(reader: R) -> Reading<R>
        ensures { reading_log R.remaining result
            ≡ record { left = R.remaining reader; reads = 0; failures = 0; ends = 0 } }
    {
        Reading {
            reader,
            reads: 0,
            failures: 0,
            ends: 0,
        }
    }
}

impl<R: Read> Source for Reading<R> {
    ghost use Rattle.giop_run.specs.ReaderLog.{reading_log};

    ghost log = { reading_log R.remaining };

    ghost fails = { λ _ _. Unit {0} };

    fn read(&mut self, into: &mut [u8]) -> Result<usize, SourceFault> {
        self.reads = saturating_add_one(self.reads);
        match read_uninterrupted(&mut self.reader, into) {
            Ok(given) => {
                if given == 0 && !into.is_empty() {
                    self.ends = saturating_add_one(self.ends);
                }
                Ok(given)
            }
            Err(error) => {
                self.failures = saturating_add_one(self.failures);
                Err(SourceFault { kind: error.kind() })
            }
        }
    }
}

/// Reads once. If the read is interrupted, it is tried again; if every try is interrupted, it fails.
fn read_uninterrupted<R: Read>(reader: &mut R, into: &mut [u8]) -> io::Result<usize>
    ensures within { ReadsAtMost result into.new }
    ensures octets { ReadConsumes (R.remaining reader.old) (R.remaining reader.new)
        result into.new }
    ensures retried { IfErr result (λ e. error_kind e ≢ ErrorKind.Interrupted) }
{
    for _try in 0..TRIES {
        match reader.read(into) {
            Err(error) if error.kind() == ErrorKind::Interrupted => {}
            read => return read,
        }
    }
    Err(io::Error::from(ErrorKind::TimedOut))
}
