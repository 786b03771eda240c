//! An out that buffers lines for a writer.

ghost use Rattle.std.specs.Prelude.{◌≡◌, ◌≤◌, [], length, take, IfOk, OnOk, MatchResult};
ghost use Rattle.std.specs.Io.KnownBytes.{Appends, Keeps, append_known};
ghost use Rattle.giop_print.specs.Output.{Took, Failed, Writes};

use super::buffer::{Buffer, ROOM};
use super::source::saturating_add_one;
use giop_print::{Flush, Line, Out, OutFault};
use std::alloc::{AllocError, Global};
use std::io::Write;

/// An out that keeps octets back for a writer, until there is no room for more or they are flushed. It fails if its writer
/// fails, and if the writer takes none of some octets. Then the octets that weren't taken stay.
#[derive(Drop)]
pub struct Lines<W: Write + Drop> {
    writer: W,
    buffer: Buffer,
    // How many puts there were, without those that the buffer counts.
    puts: u64,
    failures: u64,
}

impl<W: Write + Drop> Lines<W> {
    ghost use Rattle.giop_run.specs.Buffered.{lines_log, lines_kept_back};

    /// Makes an out over this writer that keeps nothing back.
    pub fn new(alloc: Global, writer: W) -> Result<Lines<W>, AllocError>
        ensures log { IfOk result (λ lines. lines_log W.contents lines
            ≡ record { written = W.contents writer; puts = 0; failures = 0 }) }
        ensures empty { IfOk result (λ lines. lines_kept_back lines ≡ []) }
    {
        Ok(Lines {
            writer,
            buffer: Buffer::new(alloc)?,
            puts: 0,
            failures: 0,
        })
    }

    /// The writer. It has all that was put, except the octets that are kept back.
    pub fn writer(&self) -> &W
        ensures { append_known (W.contents result.now) (lines_kept_back self.now)
            ≡ (lines_log W.contents self.now).written }
    {
        &self.writer
    }

    /// Adds the puts that the buffer has counted to the count of those before them.
    fn add_buffered_puts(&mut self)
        ensures log { lines_log W.contents self.new ≡ lines_log W.contents self.old }
        ensures kept { lines_kept_back self.new ≡ lines_kept_back self.old }
        ensures none { self.new.buffer.recent ≡ 0 }
    {
        self.puts = self
            .puts
            .saturating_add(self.buffer.take_put_count() as u64);
    }

    /// Gives the octets that are kept back to the writer. Those that the writer doesn't take stay.
    fn write_kept_back(&mut self) -> Result<(), OutFault>
        ensures written { Keeps (lines_log W.contents self.old).written
            (lines_log W.contents self.new).written }
        ensures puts { (lines_log W.contents self.new).puts ≡ (lines_log W.contents self.old).puts }
        ensures fails { self.new.failures ≡ self.old.failures }
        ensures none { OnOk result (lines_kept_back self.new ≡ []) }
        ensures recent { self.new.buffer.recent ≡ 0 }
    {
        self.add_buffered_puts();
        let octets = self.buffer.octets();
        let taken = write_until_failure(&mut self.writer, octets);
        let is_all = taken == octets.len();
        self.buffer.remove_first(taken);
        if is_all { Ok(()) } else { Err(OutFault) }
    }

    /// Puts octets for which there is no room, or an empty slice. First gives the writer what is kept back.
    #[cold]
    #[inline(never)]
    fn write_kept_then_put(&mut self, octets: &[u8]) -> Result<usize, OutFault>
        ensures { MatchResult result
            (λ n. Took (lines_log W.contents self.old) (lines_log W.contents self.new) octets.now n)
            (λ _. Failed (lines_log W.contents self.old) (lines_log W.contents self.new)) }
    {
        self.add_buffered_puts();
        self.puts = saturating_add_one(self.puts);
        if self.write_kept_back().is_err() {
            self.failures = saturating_add_one(self.failures);
            return Err(OutFault);
        }
        let taken = octets.len().min(ROOM);
        self.buffer.add(&octets[..taken]);
        Ok(taken)
    }

    /// Writes a line for which there is no room. This is a function of its own, so that the usual line, for which there is
    /// room, needs no stack.
    #[cold]
    #[inline(never)]
    fn put_unfitting_line(&mut self, text: &[u8]) -> Result<(), OutFault>
        ensures { Writes result (lines_log W.contents self.old) (lines_log W.contents self.new)
            text.now }
    {
        self.put_all(text)
    }
}

impl<W: Write + Drop> Out for Lines<W> {
    ghost use Rattle.giop_run.specs.Buffered.{lines_log};

    ghost log = { lines_log W.contents };

    #[inline]
    fn put(&mut self, octets: &[u8]) -> Result<usize, OutFault> {
        // The slice is empty, or there is no room for it: 0 less 1 wraps to the greatest number.
        if octets.len().wrapping_sub(1) >= self.buffer.room_left() {
            // An answer that is handed on whole is tested by the caller after the usual put too.
            let taken = self.write_kept_then_put(octets)?;
            return Ok(taken);
        }
        self.buffer.add_put(octets);
        Ok(octets.len())
    }

    // The call isn't counted as a put. The contract says of puts only that there are no more than octets.
    #[inline]
    fn put_line(&mut self, line: &mut Line) -> Result<(), OutFault> {
        let text = line.text();
        if text.len() > self.buffer.room_left() {
            return self.put_unfitting_line(text);
        }
        self.buffer.add(text);
        Ok(())
    }
}

impl<W: Write + Drop> Flush for Lines<W> {
    ghost use Rattle.giop_run.specs.Buffered.{lines_kept_back};

    ghost kept = { lines_kept_back };

    fn flush(&mut self) -> Result<(), OutFault> {
        if self.write_kept_back().is_err() || self.writer.flush().is_err() {
            self.failures = saturating_add_one(self.failures);
            return Err(OutFault);
        }
        Ok(())
    }
}

/// Gives octets to a writer until the writer has taken all of them, takes none, or fails. Returns how many it took.
fn write_until_failure<W: Write>(writer: &mut W, octets: &[u8]) -> usize
    ensures within { result ≤ length octets.now }
    ensures written { Appends (W.contents writer.old) (W.contents writer.new)
        (take result octets.now) }
{
    let mut taken = 0;
    while taken < octets.len() {
        match writer.write(&octets[taken..]) {
            Ok(0) => return taken,
            Ok(some) => taken += some,
            Err(_) => return taken,
        }
    }
    taken
}
