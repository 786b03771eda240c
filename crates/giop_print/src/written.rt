//! A `Write` of the standard library as an `Out`.

ghost use Rattle.std.specs.Prelude.{◌≡◌};

use crate::sink::{Out, OutFault, one_more};
use std::io::Write;

/// A writer as an `Out`. A put fails if the writer fails, or if the writer takes none of the octets
/// that it is given.
#[derive(Drop)]
pub struct Written<W: Write> {
    writer: W,
    puts: u64,
    failures: u64,
}

impl<W: Write> Written<W> {
    ghost use Rattle.giop_print.specs.Written.{written_log};

    /// An `Out` over a writer.
    pub fn new(writer: W) -> Written<W>
        ensures { written_log W.contents result ≡
            record { written = W.contents writer; puts = 0; failures = 0 } }
    {
        Written {
            writer,
            puts: 0,
            failures: 0,
        }
    }
}

impl<W: Write> Out for Written<W> {
    ghost use Rattle.giop_print.specs.Written.{written_log};

    ghost log = { written_log W.contents };

    fn put(&mut self, octets: &[u8]) -> Result<usize, OutFault> {
        self.puts = one_more(self.puts);
        match self.writer.write(octets) {
            Ok(taken) => {
                if taken == 0 && !octets.is_empty() {
                    self.failures = one_more(self.failures);
                    return Err(OutFault);
                }
                Ok(taken)
            }
            Err(_) => {
                self.failures = one_more(self.failures);
                Err(OutFault)
            }
        }
    }
}
