//! An `Out` that puts a tag in front of each line.

ghost use Rattle.std.specs.Prelude.{◌≡◌, ◌⊎◌, ◌<◌, ◌≤◌, ◌+◌, ◌-◌, ◌^◌, ◌↔◌, true, false, List, ℕ, [], length, take, drop, IsTrue, OnOk, MatchResult};
ghost use Rattle.std.specs.Io.KnownBytes.{Appends, Keeps};
ghost use Rattle.giop_print.specs.Line.{line_text, line_room};
ghost use Rattle.giop_print.specs.Output.{saturating_next};
ghost use Rattle.giop_conversation.specs.TaggedState.{IsShortTagDue};
ghost use Rattle.giop_conversation.specs.Failing.{FailsByPut, CountsFailure};
ghost use Rattle.giop_conversation.specs.Seen.{IsSeen};
ghost use Rattle.giop_conversation.specs.TaggedText.{first_line_size, tag_due_after, IsOneLine, StandsTaggedIn, HasPutCounted, CountedPutFailed, HasPutTagged, TaggedPutFailed};

use crate::tag::{BLOCK, Tag, no_tag};
use giop_print::{Flush, Line, Out, OutFault};
use memchr::memchr;
use std::marker::Model;
use std::simd::prelude::*;

/// An `Out` that puts a tag in front of each line, in whatever pieces the lines come. It fails only if the out below fails,
/// or if it refuses: more than 2^64 - 1 octets would have been written since the tag was set, or `refuse` was called. That
/// is done when octets come in a flow without a slot.
#[derive(Drop)]
pub struct Tagged<O: Out> {
    out: O,
    tag: Tag,
    // How many octets of the tag must be written before the next octet.
    due: usize,
    // Whether `due` is the whole tag, and the tag isn't longer than a block.
    is_short_tag_due: bool,
    // How many octets were written since the tag was set.
    since: u64,
    // Whether a call has failed without a put.
    refused: bool,
    puts: u64,
    failures: u64,
}

impl<O: Out> Model for Tagged<O> {
    ghost use Rattle.giop_conversation.specs.TaggedState.{Tagging};

    ghost Value = { Tagging };

    ghost view = { λ t. record {
      whole = (O.log t.out).written;
      below = (O.log t.out).failures;
      tag = t.tag;
      due = t.due;
      since = t.since;
      refused = t.refused;
      puts = t.puts;
      failures = t.failures;
    } };

    ghost use Rattle.std.specs.Prelude.{◌≡◌, ◌⊎◌, ◌<◌, ◌≤◌, true, length};
    ghost use Rattle.giop_conversation.specs.TaggedState.{IsShortTagDue};

    ghost invariant = { λ t. (t.due ≤ length t.tag)
        × (t.is_short_tag_due ≡ true → IsShortTagDue t.due t.tag)
        × (0 < t.failures → (0 < (O.log t.out).failures) ⊎ (t.refused ≡ true)) };
}

impl<O: Out> Tagged<O> {
    /// Makes an `Out` over another, with the empty tag.
    pub fn new(out: O) -> Tagged<O>
        ensures { result ≡ record {
          whole = (O.log out).written;
          below = (O.log out).failures;
          tag = [];
          due = 0;
          since = 0;
          refused = false;
          puts = 0;
          failures = 0;
        } }
    {
        Tagged {
            out,
            tag: no_tag(),
            due: 0,
            is_short_tag_due: false,
            since: 0,
            refused: false,
            puts: 0,
            failures: 0,
        }
    }

    /// Sets the tag of the lines that come next. A line begins here.
    pub fn set_tag(&mut self, tag: Tag)
        ensures { self.new ≡ record self.old { tag = tag; due = length tag; since = 0 } }
    {
        self.due = tag.len();
        self.is_short_tag_due = is_short_tag_due(self.due, &tag);
        self.tag = tag;
        self.since = 0;
    }

    /// Whether a put has failed.
    pub fn has_failed(&self) -> bool
        ensures { IsTrue result ↔ 0 < self.now.failures }
    {
        self.failures > 0
    }

    /// Whether a call has failed without a put.
    pub fn has_refused(&self) -> bool
        ensures { result ≡ self.now.refused }
    {
        self.refused
    }

    /// Fails without a put: it has refused from now on.
    pub fn refuse(&mut self) -> OutFault
        ensures { self.new ≡ record self.old {
          refused = true;
          failures =
              saturating_next self.old.failures;
        } }
    {
        self.refused = true;
        self.failures = saturating_add_one(self.failures);
        OutFault
    }

    /// Gives the out below back.
    pub fn into_out(self) -> O
        ensures written { (O.log result).written ≡ self.whole }
        // If this has failed, the out below has failed, unless this has refused.
        ensures cause { 0 < self.failures →
            (0 < (O.log result).failures) ⊎ (self.refused ≡ true) }
    {
        self.out
    }
}

impl<O: Flush> Tagged<O> {
    /// Makes sure that all that was written can be seen.
    pub fn flush(&mut self) -> Result<(), OutFault>
        ensures same { self.new ≡ record self.old {
          whole = self.new.whole;
          below = self.new.below;
          failures = self.new.failures;
        } }
        ensures put { Keeps self.old.whole self.new.whole }
        ensures seen { OnOk result (IsSeen O.log O.kept self.new.whole) }
        ensures fails { FailsByPut result self.old self.new }
    {
        match self.out.flush() {
            Ok(()) => Ok(()),
            Err(fault) => {
                self.failures = saturating_add_one(self.failures);
                Err(fault)
            }
        }
    }
}

impl<O: Out> Out for Tagged<O> {
    ghost use Rattle.std.specs.Prelude.{◌≡◌, ◌⊎◌, OnErr, MatchResult};
    ghost use Rattle.giop_print.specs.Output.{saturating_next, Took, Failed, Writes};
    ghost use Rattle.giop_print.specs.Line.{line_text};
    ghost use Rattle.giop_conversation.specs.TaggedState.{tagging_log};
    ghost use Rattle.giop_conversation.specs.Failing.{FailsBelow};

    ghost log = { tagging_log };

    fn put(&mut self, octets: &[u8]) -> Result<usize, OutFault>
        ensures does { MatchResult result
            (λ n. Took (tagging_log self.old) (tagging_log self.new) octets.now n)
            (λ _. Failed (tagging_log self.old) (tagging_log self.new)) }
        ensures cause { FailsBelow result self.old self.new octets.now }
    {
        self.puts = saturating_add_one(self.puts);
        if octets.is_empty() {
            return Ok(0);
        }
        if !counts_fit_u64(self.since, self.due, octets.len()) {
            return Err(self.refuse());
        }
        let put = put_tagged(
            &mut self.out,
            self.tag.as_slice(),
            &mut self.due,
            &mut self.since,
            octets,
        );
        self.is_short_tag_due = is_short_tag_due(self.due, &self.tag);
        match put {
            Ok(taken) => Ok(taken),
            Err(fault) => {
                self.failures = saturating_add_one(self.failures);
                Err(fault)
            }
        }
    }

    // Puts all octets, as `put_all` of any out does, and says more: a failure has a cause.
    fn put_all(&mut self, octets: &[u8]) -> Result<(), OutFault>
        ensures does { Writes result (tagging_log self.old) (tagging_log self.new) octets.now }
        ensures cause { FailsBelow result self.old self.new octets.now }
    {
        let mut rest = octets;
        while !rest.is_empty() {
            let taken = self.put(rest)?;
            rest = &rest[taken..];
        }
        Ok(())
    }

    // It is called for each line, and as a function of its own it would save registers for what is rare.
    #[inline(always)]
    fn put_line(&mut self, line: &mut Line) -> Result<(), OutFault>
        ensures does { Writes result (tagging_log self.old) (tagging_log self.new)
            (line_text line.old) }
        ensures cause { FailsBelow result self.old self.new (line_text line.old) }
    {
        if !can_put_in_one_step(self.is_short_tag_due, self.since, line) {
            return self.put_all(line.text());
        }
        line.put_end(self.tag.last_16_octets(), self.tag.len());
        let text = line.text();
        let taken = put_until_failure(&mut self.out, text);
        self.since += taken as u64;
        if taken == text.len() {
            return Ok(());
        }
        self.due = self.due.saturating_sub(taken);
        self.is_short_tag_due = false;
        self.failures = saturating_add_one(self.failures);
        Err(OutFault)
    }
}

/// Whether a whole tag is due, and it is no longer than a block.
fn is_short_tag_due(due: usize, tag: &Tag) -> bool
    ensures { IsTrue result → IsShortTagDue due tag.now }
{
    matches!(due, 1..=BLOCK) && due == tag.len()
}

/// Whether a line and its tag can be put in one step: the whole tag is due and short, the line has room for it, the octets
/// since the tag was set can still be counted, and the text is one line with its end.
#[inline]
fn can_put_in_one_step(is_short_tag_due: bool, since: u64, line: &Line) -> bool
    ensures short { IsTrue result → is_short_tag_due ≡ true }
    ensures room { IsTrue result → 16 ≤ line_room line.now }
    ensures line { IsTrue result → IsOneLine (line_text line.now) }
    ensures counts { IsTrue result → since < 2 ^ 63 }
{
    is_short_tag_due && since < MOST && is_one_line_with_room(line)
}

/// If this many octets were written since the tag was set, a line and its tag are no longer put in one step.
const MOST: u64 = 1 << 63;

/// Whether the text is one line with its end, and there is room for a block before it. A short line is looked at in one
/// step, and most others in two.
#[inline]
fn is_one_line_with_room(line: &Line) -> bool
    ensures line { IsTrue result → IsOneLine (line_text line.now) }
    ensures room { IsTrue result → 16 ≤ line_room line.now }
{
    match line.room() {
        192..=255 => only_last_of_64_is_lf(line.last_octets()),
        144..=191 => no_lf_in_first_48(line.text()) && only_last_of_64_is_lf(line.last_octets()),
        room => room >= BLOCK && is_one_line(line.text()),
    }
}

/// Whether the last of 64 octets is the end of a line, and no other of them is.
#[inline]
fn only_last_of_64_is_lf(octets: &[u8]) -> bool
    requires { length octets.now ≡ 64 }
    ensures { IsTrue result → IsOneLine octets.now }
{
    no_lf_in_first_48(octets) && only_last_of_16_is_lf(&octets[48..])
}

/// Whether there are at least 64 octets, and none of the first 48 is the end of a line. Then all are one line if those after
/// some of these 48 are.
#[inline]
fn no_lf_in_first_48(octets: &[u8]) -> bool
    ensures { IsTrue result →
        (k : ℕ) → k ≤ 48 → IsOneLine (drop k octets.now) → IsOneLine octets.now }
{
    if octets.len() < 64 {
        return false;
    }
    let end = u8x16::splat(b'\n');
    let first = u8x16::from_slice(octets).simd_eq(end);
    let second = u8x16::from_slice(&octets[16..]).simd_eq(end);
    let third = u8x16::from_slice(&octets[32..]).simd_eq(end);
    !(first | second | third).any()
}

/// Whether the last of 16 octets is the end of a line, and no other of them is.
#[inline]
fn only_last_of_16_is_lf(octets: &[u8]) -> bool
    requires { length octets.now ≡ 16 }
    ensures { IsTrue result → IsOneLine octets.now }
{
    let ends = u8x16::from_slice(octets).simd_eq(u8x16::splat(b'\n'));
    ends.to_bitmask() == 1 << 15
}

/// Whether octets are one line with its end.
#[inline(never)]
fn is_one_line(octets: &[u8]) -> bool
    ensures { IsTrue result → IsOneLine octets.now }
{
    match octets.split_last() {
        Some((last, front)) => *last == b'\n' && !front.contains(&b'\n'),
        None => false,
    }
}

/// Puts a text to an out until the out has taken all of it or a put fails. Returns how many octets the out took. One put is
/// mostly enough.
#[inline]
fn put_until_failure<O: Out>(out: &mut O, text: &[u8]) -> usize
    ensures within { result ≤ length text.now }
    ensures written { Appends (O.log out.old).written (O.log out.new).written
        (take result text.now) }
    ensures none { result ≡ length text.now → 0 < length text.now →
        (O.log out.new).failures ≡ (O.log out.old).failures }
    ensures cause { result < length text.now →
        (O.log out.new).failures ≡ saturating_next (O.log out.old).failures }
{
    match out.put(text) {
        Ok(taken) => {
            if taken == text.len() {
                return taken;
            }
            taken + put_pieces_until_failure(out, &text[taken..])
        }
        Err(_) => 0,
    }
}

/// Puts octets as `put_until_failure` does, by as many puts as it takes.
#[cold]
#[inline(never)]
fn put_pieces_until_failure<O: Out>(out: &mut O, octets: &[u8]) -> usize
    ensures within { result ≤ length octets.now }
    ensures written { Appends (O.log out.old).written (O.log out.new).written
        (take result octets.now) }
    ensures none { result ≡ length octets.now → 0 < length octets.now →
        (O.log out.new).failures ≡ (O.log out.old).failures }
    ensures cause { result < length octets.now →
        (O.log out.new).failures ≡ saturating_next (O.log out.old).failures }
{
    let mut at = 0;
    while at < octets.len() {
        match out.put(&octets[at..]) {
            Ok(taken) => at += taken,
            Err(_) => return at,
        }
    }
    at
}

/// One more than a count, or the greatest number of 64 bits if the count is that.
#[tactic(auto, unfolding(giop_print::specs::Output::saturating_next))]
fn saturating_add_one(count: u64) -> u64
    ensures { result ≡ saturating_next count }
{
    count.saturating_add(1)
}

/// Whether these octets, and the octets of a tag that are due, can be counted in addition to those since the tag was set.
fn counts_fit_u64(since: u64, due: usize, octets: usize) -> bool
    ensures { IsTrue result ↔ since + (due + octets) < 2 ^ 64 }
{
    match since.checked_add(due as u64) {
        Some(behind) => behind.checked_add(octets as u64).is_some(),
        None => false,
    }
}

/// Puts octets to an out, and adds the number of those that it takes to the count.
fn put_counted<O: Out>(out: &mut O, since: &mut u64, octets: &[u8]) -> Result<usize, OutFault>
    requires room { since.old + length octets.now < 2 ^ 64 }
    ensures does { MatchResult result
        (λ n. HasPutCounted (O.log out.old).written (O.log out.new).written octets.now
        since.old since.new n)
        (λ _. CountedPutFailed (O.log out.old).written (O.log out.new).written
        since.old since.new) }
    ensures cause { CountsFailure result (O.log out.old).failures (O.log out.new).failures }
{
    match out.put(octets) {
        Ok(taken) => {
            *since += taken as u64;
            Ok(taken)
        }
        Err(fault) => Err(fault),
    }
}

/// Puts the octets of a tag that are due.
fn put_tag<O: Out>(
    out: &mut O,
    tag: &[u8],
    due: &mut usize,
    since: &mut u64,
) -> Result<(), OutFault>
    requires within { due.old ≤ length tag.now }
    requires room { since.old + due.old < 2 ^ 64 }
    ensures stands { (before text : List ℕ) →
        StandsTaggedIn (O.log out.old).written before tag.now since.old text due.old →
        StandsTaggedIn (O.log out.new).written before tag.now since.new text due.new }
    ensures within { due.new ≤ length tag.now }
    ensures done { OnOk result (due.new ≡ 0) }
    ensures count { since.new + due.new ≡ since.old + due.old }
    ensures cause { CountsFailure result (O.log out.old).failures (O.log out.new).failures }
{
    while *due > 0 {
        match put_counted(out, since, &tag[tag.len() - *due..]) {
            Ok(taken) => *due -= taken,
            Err(fault) => return Err(fault),
        }
    }
    Ok(())
}

/// How many octets the first line has, with its end if it ends here.
fn first_line_size(octets: &[u8]) -> usize
    ensures value { result ≡ first_line_size octets.now }
    ensures within { result ≤ length octets.now }
    ensures some { 0 < length octets.now → 0 < result }
{
    match memchr(b'\n', octets) {
        Some(at) => at + 1,
        None => octets.len(),
    }
}

/// How many octets of the tag are due after an octet.
fn tag_due_after(tag: &[u8], octet: u8) -> usize
    ensures { result ≡ tag_due_after tag.now octet }
{
    if octet == b'\n' { tag.len() } else { 0 }
}

/// Puts octets of one line, at least one, when nothing of the tag is due. If the line ends in them, the tag of the next
/// line is due.
fn put_part_of_line<O: Out>(
    out: &mut O,
    tag: &[u8],
    due: &mut usize,
    since: &mut u64,
    octets: &[u8],
) -> Result<usize, OutFault>
    requires some { 0 < length octets.now }
    requires none { due.old ≡ 0 }
    requires room { since.old + length octets.now < 2 ^ 64 }
    ensures does { MatchResult result
        (λ n. HasPutTagged (O.log out.old).written (O.log out.new).written tag.now octets.now
        since.old since.new due.old due.new n)
        (λ _. TaggedPutFailed (O.log out.old).written (O.log out.new).written tag.now
        since.old since.new due.old due.new) }
    ensures cause { CountsFailure result (O.log out.old).failures (O.log out.new).failures }
{
    let size = first_line_size(octets);
    match put_counted(out, since, &octets[..size]) {
        Ok(taken) => {
            *due = tag_due_after(tag, octets[taken - 1]);
            Ok(taken)
        }
        Err(fault) => Err(fault),
    }
}

/// Puts the octets of the tag that are due, and then octets of one line.
fn put_tagged<O: Out>(
    out: &mut O,
    tag: &[u8],
    due: &mut usize,
    since: &mut u64,
    octets: &[u8],
) -> Result<usize, OutFault>
    requires some { 0 < length octets.now }
    requires within { due.old ≤ length tag.now }
    requires room { since.old + (due.old + length octets.now) < 2 ^ 64 }
    ensures does { MatchResult result
        (λ n. HasPutTagged (O.log out.old).written (O.log out.new).written tag.now octets.now
        since.old since.new due.old due.new n)
        (λ _. TaggedPutFailed (O.log out.old).written (O.log out.new).written tag.now
        since.old since.new due.old due.new) }
    ensures cause { CountsFailure result (O.log out.old).failures (O.log out.new).failures }
{
    match put_tag(out, tag, due, since) {
        Ok(()) => put_part_of_line(out, tag, due, since, octets),
        Err(fault) => Err(fault),
    }
}
