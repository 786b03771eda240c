//! A line that is spelled from its end to its front, so that the digits of a number can be put
//! straight into their place.

ghost use Rattle.std.specs.Prelude.{◌≡◌, ◌≤◌, ◌<◌, ◌+◌, ◌-◌, ◌*◌, [], ◌∷◌, ◌++◌, length, take, drop, decimal, IsTrue};
ghost use Rattle.std.specs.Fmt.{signed_decimal};
ghost use Rattle.giop_print.specs.Text.{hex_octet, hex, hex_number, escaped_octet, escaped, quoted};
ghost use Rattle.giop_print.specs.Lines.{piece_octets, spaced_hex, split_piece_text};

use crate::digits::{digit_pairs, number_digits};
use crate::value::Piece;
use itoa::write_digits;
use std::simd::prelude::*;

/// How many octets fit. Most lines are shorter.
const ROOM: usize = 256;

/// How many octets a block has.
const BLOCK: usize = 16;

/// The two digits of each octet, one after another.
static PAIRS: [u8; 512] =
    *b"000102030405060708090a0b0c0d0e0f101112131415161718191a1b1c1d1e1f202122232425262728292a2b2c2d2e2f303132333435363738393a3b3c3d3e3f404142434445464748494a4b4c4d4e4f505152535455565758595a5b5c5d5e5f606162636465666768696a6b6c6d6e6f707172737475767778797a7b7c7d7e7f808182838485868788898a8b8c8d8e8f909192939495969798999a9b9c9d9e9fa0a1a2a3a4a5a6a7a8a9aaabacadaeafb0b1b2b3b4b5b6b7b8b9babbbcbdbebfc0c1c2c3c4c5c6c7c8c9cacbcccdcecfd0d1d2d3d4d5d6d7d8d9dadbdcdddedfe0e1e2e3e4e5e6e7e8e9eaebecedeeeff0f1f2f3f4f5f6f7f8f9fafbfcfdfeff";

/// Whether each of these octets stands for itself between quotes.
#[inline(always)]
fn are_plain(block: u8x16) -> bool
    ensures { IsTrue result → escaped block ≡ block }
{
    let low = block.simd_lt(u8x16::splat(b' ')).to_bitmask();
    let high = block.simd_gt(u8x16::splat(b'~')).to_bitmask();
    let quotes = block.simd_eq(u8x16::splat(b'"')).to_bitmask();
    let backslashes = block.simd_eq(u8x16::splat(b'\\')).to_bitmask();
    low | high | quotes | backslashes == 0
}

/// The end of a line, in the last octets of an array. The octets before it are unused.
#[derive(Drop)]
pub struct Line {
    octets: [u8; ROOM],
    at: usize,
    ghost within: { at ≤ 256 },
}

impl Line {
    ghost use Rattle.giop_print.specs.Line.{line_text, line_room};

    /// A line before anything of it is spelled. Its room is filled with spaces, so no octet in it
    /// ends a line.
    #[inline]
    pub fn new() -> Line
        ensures text { line_text result ≡ [] }
        ensures room { line_room result ≡ 256 }
    {
        Line {
            octets: [b' '; ROOM],
            at: ROOM,
        }
    }

    /// The text that was spelled.
    #[inline]
    pub fn text(&self) -> &[u8]
        ensures { result.now ≡ line_text self.now }
    {
        &self.octets[self.at..]
    }

    /// How many more octets fit.
    #[inline]
    pub fn room(&self) -> usize
        ensures value { result ≡ line_room self.now }
        ensures most { result ≤ 256 }
    {
        self.at
    }

    /// The last 64 octets of the room. If what was spelled isn't longer, it stands at their end;
    /// else they are its end.
    #[inline]
    pub fn last_octets(&self) -> &[u8]
        ensures size { length result.now ≡ 64 }
        ensures text { 192 ≤ line_room self.now →
            drop (line_room self.now - 192) result.now ≡ line_text self.now }
        ensures long { line_room self.now ≤ 192 →
            result.now ≡ drop (192 - line_room self.now) (line_text self.now) }
    {
        &self.octets[ROOM - 64..]
    }

    /// Begins a new line: nothing of it is spelled.
    #[inline]
    pub fn clear(&mut self)
        ensures text { line_text self.new ≡ [] }
        ensures room { line_room self.new ≡ 256 }
    {
        self.at = ROOM;
    }

    /// Drops what was spelled last, until this many octets fit.
    #[inline]
    pub(crate) fn drop_front_to_room(&mut self, room: usize)
        requires within { line_room self.old ≤ room }
        requires most { room ≤ 256 }
        ensures text { line_text self.new ≡ drop (room - line_room self.old) (line_text self.old) }
        ensures room { line_room self.new ≡ room }
    {
        self.at = room;
    }

    /// Puts an octet before what was spelled.
    #[inline]
    pub fn put(&mut self, octet: u8)
        requires { 0 < line_room self.old }
        ensures text { line_text self.new ≡ octet ∷ line_text self.old }
        ensures room { line_room self.new + 1 ≡ line_room self.old }
    {
        let at = self.at - 1;
        self.octets[at] = octet;
        self.at = at;
    }

    /// Puts octets before what was spelled.
    #[inline]
    pub fn put_octets(&mut self, octets: &[u8])
        requires { length octets.now ≤ line_room self.old }
        ensures text { line_text self.new ≡ octets.now ++ line_text self.old }
        ensures room { line_room self.new + length octets.now ≡ line_room self.old }
    {
        let at = self.at - octets.len();
        self.octets[at..self.at].copy_from_slice(octets);
        self.at = at;
    }

    /// Puts the last `count` octets of a block before what was spelled. The whole block is copied,
    /// since a copy of a fixed size is one step.
    #[inline]
    pub fn put_end(&mut self, block: &[u8], count: usize)
        requires size { length block.now ≡ 16 }
        requires within { count ≤ 16 }
        requires room { 16 ≤ line_room self.old }
        ensures text { line_text self.new ≡ drop (16 - count) block.now ++ line_text self.old }
        ensures room { line_room self.new + count ≡ line_room self.old }
    {
        self.put_lanes(u8x16::from_slice(block), count);
    }

    /// Puts the last `count` octets of two blocks before what was spelled, the last block first.
    #[inline(always)]
    pub(crate) fn put_blocks(&mut self, blocks: &[u8], count: usize)
        requires size { length blocks.now ≡ 32 }
        requires within { count ≤ 32 }
        requires room { 32 ≤ line_room self.old }
        ensures text { line_text self.new ≡ drop (32 - count) blocks.now ++ line_text self.old }
        ensures room { line_room self.new + count ≡ line_room self.old }
    {
        if count <= BLOCK {
            self.put_end(&blocks[BLOCK..], count);
        } else {
            self.put_end(&blocks[BLOCK..], BLOCK);
            self.put_end(&blocks[..BLOCK], count - BLOCK);
        }
    }

    /// Puts what was spelled of another line before what was spelled of this line. If the other
    /// line is short, it is copied in blocks.
    #[inline(always)]
    pub(crate) fn put_front(&mut self, front: &Line)
        requires within { length (line_text front.now) ≤ line_room self.old }
        requires room { 32 ≤ line_room self.old }
        ensures text { line_text self.new ≡ line_text front.now ++ line_text self.old }
        ensures room { line_room self.new + length (line_text front.now) ≡ line_room self.old }
    {
        let count = ROOM - front.at;
        if count <= 2 * BLOCK {
            self.put_blocks(&front.last_octets()[2 * BLOCK..], count);
        } else {
            self.put_octets(front.text());
        }
    }

    /// Puts the last `count` lanes of a vector before what was spelled.
    #[inline(always)]
    fn put_lanes(&mut self, block: u8x16, count: usize)
        requires within { count ≤ 16 }
        requires room { 16 ≤ line_room self.old }
        ensures text { line_text self.new ≡ drop (16 - count) block ++ line_text self.old }
        ensures room { line_room self.new + count ≡ line_room self.old }
    {
        let at = self.at;
        block.copy_to_slice(&mut self.octets[at - BLOCK..]);
        self.at = at - count;
    }

    /// Puts a number before what was spelled.
    #[inline]
    pub fn put_number(&mut self, n: u64)
        requires { 20 ≤ line_room self.old }
        ensures text { line_text self.new ≡ decimal n ++ line_text self.old }
        ensures room { line_room self.new + length (decimal n) ≡ line_room self.old }
        ensures most { line_room self.old ≤ line_room self.new + 20 }
    {
        self.at = write_digits(n, &mut self.octets, self.at);
    }

    /// Puts a number with its sign before what was spelled.
    #[inline]
    pub(crate) fn put_signed(&mut self, n: i64)
        requires { 21 ≤ line_room self.old }
        ensures text { line_text self.new ≡ signed_decimal n ++ line_text self.old }
        ensures room { line_room self.old ≤ line_room self.new + 21 }
    {
        self.put_number(n.unsigned_abs());
        if n < 0 {
            self.put(b'-');
        }
    }

    /// Puts the two digits of an octet before what was spelled.
    #[inline]
    fn put_octet(&mut self, octet: u8)
        requires { 2 ≤ line_room self.old }
        ensures text { line_text self.new ≡ hex_octet octet ++ line_text self.old }
        ensures room { line_room self.new + 2 ≡ line_room self.old }
    {
        let pair = octet as usize * 2;
        self.put(PAIRS[pair + 1]);
        self.put(PAIRS[pair]);
    }

    /// Puts two digits for each octet before what was spelled: first 16 octets at once, from the
    /// last, and then one by one the octets before those.
    #[inline(always)]
    #[tactic(auto, using(crate::proofs::Spelling::spelling_steps))]
    pub(crate) fn put_hex(&mut self, octets: &[u8])
        requires { 2 * length octets.now ≤ line_room self.old }
        ensures text { line_text self.new ≡ hex octets.now ++ line_text self.old }
        ensures room { line_room self.new + 2 * length octets.now ≡ line_room self.old }
    {
        let mut left = octets.len();
        while left >= BLOCK {
            left -= BLOCK;
            self.put_hex_block(&octets[left..]);
        }
        self.put_hex_octets(&octets[..left]);
    }

    /// Puts two digits for each of the first 16 octets before what was spelled.
    #[inline(always)]
    fn put_hex_block(&mut self, octets: &[u8])
        requires size { 16 ≤ length octets.now }
        requires room { 32 ≤ line_room self.old }
        ensures text { line_text self.new ≡ hex (take 16 octets.now) ++ line_text self.old }
        ensures room { line_room self.new + 32 ≡ line_room self.old }
    {
        let (first, others) = digit_pairs(u8x16::from_slice(octets));
        self.put_lanes(others, BLOCK);
        self.put_lanes(first, BLOCK);
    }

    /// Puts two digits for each octet before what was spelled, one octet after another.
    #[inline(always)]
    #[tactic(auto, using(crate::proofs::Spelling::spelling_steps))]
    fn put_hex_octets(&mut self, octets: &[u8])
        requires { 2 * length octets.now ≤ line_room self.old }
        ensures text { line_text self.new ≡ hex octets.now ++ line_text self.old }
        ensures room { line_room self.new + 2 * length octets.now ≡ line_room self.old }
    {
        let mut left = octets.len();
        while left > 0 {
            left -= 1;
            self.put_octet(octets[left]);
        }
    }

    /// Puts the octet itself, or what stands for it between quotes, before what was spelled.
    #[inline]
    fn put_escaped_octet(&mut self, octet: u8)
        requires { 4 ≤ line_room self.old }
        ensures text { line_text self.new ≡ escaped_octet octet ++ line_text self.old }
        ensures room { line_room self.old ≤ line_room self.new + 4 }
    {
        match octet {
            b'"' | b'\\' | 0..=0x1f | 0x7f..=0xff => {
                self.put_octet(octet);
                self.put(b'x');
                self.put(b'\\');
            }
            _ => self.put(octet),
        }
    }

    /// Puts what stands for the octets between quotes before what was spelled: first 16 octets at
    /// once, from the last, and then one by one the octets before those.
    #[inline(never)]
    #[tactic(auto, using(crate::proofs::Spelling::spelling_steps))]
    pub(crate) fn put_escaped(&mut self, octets: &[u8])
        requires { 4 * length octets.now ≤ line_room self.old }
        ensures text { line_text self.new ≡ escaped octets.now ++ line_text self.old }
        ensures room { line_room self.old ≤ line_room self.new + 4 * length octets.now }
    {
        let mut left = octets.len();
        while left >= BLOCK {
            left -= BLOCK;
            self.put_escaped_block(&octets[left..]);
        }
        self.put_escaped_octets(&octets[..left]);
    }

    /// Puts what stands for the first 16 octets between quotes before what was spelled. If each of
    /// them stands for itself, they are put at once.
    #[inline(always)]
    fn put_escaped_block(&mut self, octets: &[u8])
        requires size { 16 ≤ length octets.now }
        requires room { 64 ≤ line_room self.old }
        ensures text { line_text self.new ≡ escaped (take 16 octets.now) ++ line_text self.old }
        ensures room { line_room self.old ≤ line_room self.new + 64 }
    {
        let block = u8x16::from_slice(octets);
        if are_plain(block) {
            self.put_lanes(block, BLOCK);
        } else {
            self.put_escaped_octets(&octets[..BLOCK]);
        }
    }

    /// Puts what stands for the octets between quotes before what was spelled, one octet after
    /// another.
    #[inline(always)]
    #[tactic(auto, using(crate::proofs::Spelling::spelling_steps))]
    fn put_escaped_octets(&mut self, octets: &[u8])
        requires { 4 * length octets.now ≤ line_room self.old }
        ensures text { line_text self.new ≡ escaped octets.now ++ line_text self.old }
        ensures room { line_room self.old ≤ line_room self.new + 4 * length octets.now }
    {
        let mut left = octets.len();
        while left > 0 {
            left -= 1;
            self.put_escaped_octet(octets[left]);
        }
    }

    /// Puts an octet between quotes before what was spelled.
    #[inline]
    pub(crate) fn put_quoted(&mut self, octet: u8)
        requires { 6 ≤ line_room self.old }
        ensures text { line_text self.new ≡ quoted (octet ∷ []) ++ line_text self.old }
        ensures room { line_room self.old ≤ line_room self.new + 6 }
    {
        self.put(b'"');
        self.put_escaped_octet(octet);
        self.put(b'"');
    }

    /// Puts the digits of a number that has this many octets before what was spelled, two for each
    /// octet.
    #[inline]
    pub(crate) fn put_bits(&mut self, n: u64, octets: u8)
        requires octets { octets ≤ 8 }
        requires room { 16 ≤ line_room self.old }
        ensures text { line_text self.new ≡ hex_number (2 * octets) n ++ line_text self.old }
        ensures room { line_room self.new + 2 * octets ≡ line_room self.old }
    {
        self.put_lanes(number_digits(n), 2 * usize::from(octets));
    }

    /// Puts what a piece has after its offset before what was spelled; the octets `next` follow
    /// those of the piece. A string has a space and its text between quotes. Any other piece has a
    /// space and its digits, or nothing if there are no octets.
    #[inline(always)]
    pub(crate) fn put_piece(&mut self, piece: Piece<'_>, next: &[u8])
        requires size { length (piece_octets piece) + length next.now ≤ 32 }
        requires room { 131 ≤ line_room self.old }
        ensures text { line_text self.new ≡ split_piece_text piece.entry next.now
            ++ line_text self.old }
        ensures room { line_room self.old ≤ line_room self.new + 131 }
    {
        match piece {
            Piece::Text(octets) => {
                self.put(b'"');
                self.put_escaped(next);
                self.put_escaped(octets);
                self.put(b'"');
                self.put(b' ');
            }
            Piece::Octets(octets) => self.put_spaced_hex(octets, next),
            Piece::WideText(octets) => self.put_spaced_hex(octets, next),
            Piece::WideChar(octets) => self.put_spaced_hex(octets, next),
        }
    }

    /// Puts a space and two digits for each octet before what was spelled, or nothing if there are
    /// no octets.
    #[inline(always)]
    fn put_spaced_hex(&mut self, octets: &[u8], next: &[u8])
        requires size { length octets.now + length next.now ≤ 32 }
        requires room { 65 ≤ line_room self.old }
        ensures text { line_text self.new
            ≡ spaced_hex (octets.now ++ next.now) ++ line_text self.old }
        ensures room { line_room self.old ≤ line_room self.new + 65 }
    {
        let size = octets.len() + next.len();
        if size > 0 {
            self.put_hex(next);
            self.put_hex(octets);
            self.put(b' ');
        }
    }
}
