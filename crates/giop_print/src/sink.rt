//! The sink of the lines: a trait `Out` for what takes octets, and functions that write all of some
//! octets to it.

ghost use Rattle.std.specs.Prelude.{◌≡◌, MatchResult, flat_map};
ghost use Rattle.giop_print.specs.Output.{OutLog, saturating_next, Took, Failed, Writes};
ghost use Rattle.giop_print.specs.Gathering.{Gathers};
ghost use Rattle.giop_print.specs.Line.{line_text};

use crate::line::Line;
use arrayvec::ArrayVec;
use thiserror::Error;

/// A put failed: it wrote none of the octets that it was given.
#[derive(Clone, Copy, Debug, PartialEq, Eq, Error)]
#[error("write failed")]
pub struct OutFault;

/// Something that takes octets.
pub trait Out {
    /// What was written, if that is known, and how many puts and failures there were. A count of
    /// 2^64 - 1 stays.
    ghost log: { Self → OutLog };

    /// Takes the first octets of those that it is given, at least one unless there are none, and
    /// returns how many it took.
    fn put(&mut self, octets: &[u8]) -> Result<usize, OutFault>
        ensures { MatchResult result
            (λ n. Took (log self.old) (log self.new) octets.now n)
            (λ _. Failed (log self.old) (log self.new)) };

    /// Writes all the octets, by at most as many puts.
    fn put_all(&mut self, octets: &[u8]) -> Result<(), OutFault>
        ensures { Writes result (log self.old) (log self.new) octets.now }
    {
        let mut rest = octets;
        while !rest.is_empty() {
            let taken = self.put(rest)?;
            rest = &rest[taken..];
        }
        Ok(())
    }

    /// Writes a line that is spelled. If something must stand before the line, the unused room of
    /// the line may be used for it, so this says nothing about what the line holds afterwards.
    fn put_line(&mut self, line: &mut Line) -> Result<(), OutFault>
        ensures { Writes result (log self.old) (log self.new) (line_text line.old) }
    {
        self.put_all(line.text())
    }
}

/// Writes all the octets, by at most as many puts.
pub fn put_all<O: Out>(out: &mut O, octets: &[u8]) -> Result<(), OutFault>
    ensures { Writes result (O.log out.old) (O.log out.new) octets.now }
{
    out.put_all(octets)
}

/// How many octets of parts are gathered for one put. Most lines are shorter.
const GATHERED: usize = 128;

/// Writes the parts, one after another. Parts that follow each other are gathered, since a put costs more than the
/// octets of a part.
pub fn put_parts<O: Out>(out: &mut O, parts: &[&[u8]]) -> Result<(), OutFault>
    ensures { Writes result (O.log out.old) (O.log out.new)
        (flat_map (λ part. part.now) parts.now) }
{
    let mut gathered = ArrayVec::<u8, GATHERED>::new();
    for part in parts {
        gather_part(out, &mut gathered, part)?;
    }
    put_all(out, gathered.as_slice())
}

/// Appends a part to what is gathered. If there is no room for it, all that is gathered is written
/// first; and if the part is longer than the whole room, it is written too.
#[inline]
fn gather_part<O: Out>(
    out: &mut O,
    gathered: &mut ArrayVec<u8, GATHERED>,
    part: &[u8],
) -> Result<(), OutFault>
    ensures { Gathers result (O.log out.old) (O.log out.new) gathered.old.items gathered.new.items
        part.now }
{
    if let [octet] = part {
        if !gathered.is_full() {
            gathered.push(*octet);
            return Ok(());
        }
    }
    if gathered.try_extend_from_slice(part).is_ok() {
        return Ok(());
    }
    put_all(out, gathered.as_slice())?;
    gathered.clear();
    if gathered.try_extend_from_slice(part).is_ok() {
        return Ok(());
    }
    put_all(out, part)
}

/// One more, except that a count of 2^64 - 1 stays.
#[tactic(auto, unfolding(crate::specs::Output::saturating_next))]
pub fn one_more(count: u64) -> u64
    ensures { result ≡ saturating_next count }
{
    count.saturating_add(1)
}
