//! Takes full pieces of an octet sequence one after another. What their lines begin with is spelled
//! once.

ghost use Rattle.std.specs.Prelude.{◌≡◌, ℕ, ◌<◌, ◌≤◌, false, true, List, [], length, take, codes, IfOk, IfSome, IsTrue, OnOk};
ghost use Rattle.giop_decode.specs.SeenState.{Fits};
ghost use Rattle.giop_decode.specs.NextPieces.{NotesNoOctets, IsPieceAhead, decoder_after_piece, path_front};
ghost use Rattle.giop_decode.specs.Runs.{TakesSome};
ghost use Rattle.giop_print.specs.Line.{headed, line_text};
ghost use Rattle.giop_print.specs.Lines.{content_line, more_word, spaced_hex};
ghost use Rattle.giop_print.specs.Output.{Writes};

use crate::decoder::Decoder;
use crate::frame::Within;
use crate::leaf::Leaf;
use crate::notes::is_header;
use crate::parts::put_front;
use crate::progress::Progress;
use giop_print::{Line, Out, OutFault, Piece, SplitPiece, line_behind, put_piece_end};
use giop_sig::{SeenCatalogue, Shape, TypeId};

/// A full piece of an octet sequence. None of its octets is held, and more come after it.
#[derive(Clone, Copy, Debug)]
struct PieceAhead<'a> {
    /// The octets that begin with those of the piece.
    octets: &'a [u8],
    of: TypeId,
    /// How many octets the content has.
    total: u32,
    /// Where in the content the piece begins.
    offset: u32,
}

/// How many octets a full piece has.
const PIECE: usize = 32;

/// How many octets there must be for a run of full pieces to begin. More than this many of the
/// content must be to come.
const RUN: usize = 2 * PIECE;

/// How many octets a line may have before the word of its piece: what `put_piece_end` leaves.
const FRONT: usize = 89;

impl Decoder {
    /// Whether all octets of two full pieces of an octet sequence come at the front of these, more
    /// of the sequence comes after them, and it isn't noted.
    #[inline(always)]
    pub(crate) fn has_piece_run(&self, catalogue: &SeenCatalogue<'_>, octets: &[u8]) -> bool
        requires { Fits catalogue.now self.now }
        ensures quiet { IsTrue result → NotesNoOctets catalogue.now self.now.head.root }
    {
        let Some(piece) = self.next_piece(catalogue, octets) else {
            return false;
        };
        if (piece.total - piece.offset) as usize <= RUN || octets.len() < RUN {
            return false;
        }
        self.notes_no_octets(catalogue)
    }

    /// Whether octet sequences aren't noted: this isn't a header, or no object key has an
    /// interface.
    fn notes_no_octets(&self, catalogue: &SeenCatalogue<'_>) -> bool
        ensures { IsTrue result → NotesNoOctets catalogue.now self.now.head.root }
    {
        !(is_header(self.head.root()) && catalogue.has_keys())
    }

    /// Takes some of the octets, which are at least one: full pieces of an octet sequence whose
    /// octets are all there, and some of what comes after them. Writes their lines.
    #[inline(never)]
    pub(crate) fn take_piece_run<O: Out>(
        &mut self,
        catalogue: &SeenCatalogue<'_>,
        octets: &[u8],
        out: &mut O,
    ) -> Result<(usize, Progress), OutFault>
        requires fits { Fits catalogue.now self.old }
        requires octets { 0 < length octets.now }
        requires quiet { NotesNoOctets catalogue.now self.old.head.root }
        requires outside { self.old.inside ≡ Within.Nothing }
        ensures { TakesSome catalogue.now self.old self.new octets.now
            (O.log out.old) (O.log out.new) result }
    {
        let mut line = Line::new();
        let front = put_front(catalogue, &self.head, self.outer.as_slice(), &mut line);
        if !front || line.text().len() > FRONT {
            return self.take_one_unit(catalogue, octets, out);
        }
        self.write_pieces(catalogue, octets, &line, out)
    }

    /// The same, after what their lines begin with was spelled.
    #[inline(always)]
    fn write_pieces<O: Out>(
        &mut self,
        catalogue: &SeenCatalogue<'_>,
        octets: &[u8],
        front: &Line,
        out: &mut O,
    ) -> Result<(usize, Progress), OutFault>
        requires fits { Fits catalogue.now self.old }
        requires octets { 0 < length octets.now }
        requires quiet { NotesNoOctets catalogue.now self.old.head.root }
        requires outside { self.old.inside ≡ Within.Nothing }
        requires front { line_text front.now ≡ path_front catalogue.now self.old }
        requires short { length (line_text front.now) ≤ 89 }
        ensures { TakesSome catalogue.now self.old self.new octets.now
            (O.log out.old) (O.log out.new) result }
    {
        let mut line = Line::new();
        let mut taken = 0;
        while let Some(piece) = self.next_piece(catalogue, &octets[taken..]) {
            let (count, _) = self.write_piece(catalogue, piece, front, &mut line, out)?;
            taken += count;
        }
        if taken == octets.len() {
            return Ok((taken, Progress::More));
        }
        let (rest, progress) = self.take_one_unit(catalogue, &octets[taken..], out)?;
        Ok((taken + rest, progress))
    }

    /// The full piece that comes next, if it is one of an octet sequence, all its octets come at
    /// the front of these, and none of it is held.
    #[inline(always)]
    fn next_piece<'a>(
        &self,
        catalogue: &SeenCatalogue<'_>,
        octets: &'a [u8],
    ) -> Option<PieceAhead<'a>>
        requires { Fits catalogue.now self.now }
        ensures ahead { IfSome result (λ piece. IsPieceAhead catalogue.now self.now piece) }
        ensures octets { IfSome result (λ piece. piece.octets.now ≡ octets.now) }
    {
        let Some(Leaf::Content { of, total, offset }) = self.leaf else {
            return None;
        };
        if total.saturating_sub(offset) as usize <= PIECE
            || octets.len() < PIECE
            || !self.piece.is_empty()
        {
            return None;
        }
        match catalogue.shape(of) {
            Shape::Octets(_) => Some(PieceAhead {
                octets,
                of,
                total,
                offset,
            }),
            _ => None,
        }
    }

    /// Takes the octets of that piece, and writes its line. The front of the line is spelled.
    #[inline(always)]
    fn write_piece<O: Out>(
        &mut self,
        catalogue: &SeenCatalogue<'_>,
        piece: PieceAhead<'_>,
        front: &Line,
        line: &mut Line,
        out: &mut O,
    ) -> Result<(usize, Progress), OutFault>
        requires fits { Fits catalogue.now self.old }
        requires ahead { IsPieceAhead catalogue.now self.old piece }
        requires quiet { NotesNoOctets catalogue.now self.old.head.root }
        requires outside { self.old.inside ≡ Within.Nothing }
        requires front { line_text front.now ≡ path_front catalogue.now self.old }
        requires short { length (line_text front.now) ≤ 89 }
        ensures takes { TakesSome catalogue.now self.old self.new piece.entry.octets.now
            (O.log out.old) (O.log out.new) result }
        ensures more { IfOk result (λ taken. taken.1 ≡ Progress.More) }
        ensures next { OnOk result (self.new ≡ decoder_after_piece self.old piece.entry) }
    {
        piece_line(piece, front, line, out)?;
        self.leaf = Some(Leaf::Content {
            of: piece.of,
            total: piece.total,
            offset: piece.offset + 32,
        });
        Ok((PIECE, Progress::More))
    }
}

/// The line of that piece. The front of the line is spelled. The rest is spelled in `line`,
/// whatever that has.
#[inline(always)]
fn piece_line<O: Out>(
    piece: PieceAhead<'_>,
    front: &Line,
    line: &mut Line,
    out: &mut O,
) -> Result<(), OutFault>
    requires whole { 32 ≤ length piece.octets.now }
    requires short { length (line_text front.now) ≤ 89 }
    ensures { (message : ℕ) (place : List ℕ) →
        line_text front.now ≡ headed message place [] →
        Writes result (O.log out.old) (O.log out.new) (content_line message place
        (codes " octets @") piece.entry.offset
        (spaced_hex (take 32 piece.entry.octets.now)) (more_word true)) }
{
    let piece = SplitPiece {
        offset: u64::from(piece.offset),
        held: Piece::Octets(&piece.octets[..PIECE]),
        rest: &[],
        more: true,
    };
    line.clear();
    put_piece_end(line, piece);
    line_behind(out, front, line)
}
