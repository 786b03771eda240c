//! The lines of a value: its path, and its number, count or piece.

ghost use Rattle.std.specs.Prelude.{ℕ, ◌+◌, ◌<◌, ◌≤◌, List, ◌++◌, length};
ghost use Rattle.giop_decode.specs.ReadResult.{ValueAt};
ghost use Rattle.giop_decode.specs.ReadResult as results;
ghost use Rattle.giop_decode.specs.Fits.{HasContent};
ghost use Rattle.giop_decode.specs.Spelling.{value_text, lines_text};
ghost use Rattle.giop_decode.specs.Passes.{AreFinishedLines};
ghost use Rattle.giop_decode.specs.Transitions.{AreKnown, IsNumberOf, HasOutput, tree_in};
ghost use Rattle.giop_decode.specs.Segments.{current_path_text};
ghost use Rattle.giop_print.specs.Output.{Writes};
ghost use Rattle.giop_sig.specs.Trees.{tree_at};
ghost use Rattle.giop_sig.specs.Types.{Marked};

use crate::current_path::CurrentPath;
use crate::frame::Frame;
use crate::leaf::{Finished, Output};
use giop_cdr::{Number, Prim};
use giop_print::{
    Head, Out, OutFault, Piece, SplitPiece, Value, encapsulation_line, order_line,
    split_inner_rest_line, split_piece_line, value_line,
};
use giop_sig::{NumberName, SeenCatalogue, Shape, TypeId, kind_word, number_name};

/// The line of a value of a type of one number.
#[tactic(auto, unfolding(giop_print::specs::Lines::kind_line))]
#[inline(always)]
fn number_line<O: Out>(
    path: &CurrentPath<'_>,
    t: TypeId,
    number: Number,
    out: &mut O,
) -> Result<(), OutFault>
    requires known { t.0 < length path.now.table.types }
    requires number { (n : ℕ) × IsNumberOf (tree_at path.now.table n t.0) number }
    ensures { (n : ℕ) (is : IsNumberOf (tree_at path.now.table n t.0) number) →
        Writes result (O.log out.old) (O.log out.new)
        (value_text path.now.head.message (current_path_text path.now)
        (results.Number is.scalar is.n)) }
{
    match path.catalogue.shape(t) {
        Shape::Prim(prim) => value_line(out, path, Value::Primitive(prim, number)),
        Shape::Enumeration(_) => match number {
            Number::Unsigned(n) => match path.catalogue.enum_name(t, n as u32) {
                Some(name) => value_line(out, path, Value::Enum(name)),
                None => unreachable!(),
            },
            _ => unreachable!(),
        },
        Shape::Marked(mark) => match number {
            Number::Unsigned(n) => marked_line(path, mark, n as u32, out),
            _ => unreachable!(),
        },
        _ => unreachable!(),
    }
}

/// The line of a number with this mark: its word, or the number with its name if it has one.
#[inline(never)]
fn marked_line<O: Out>(
    path: &CurrentPath<'_>,
    mark: u32,
    n: u32,
    out: &mut O,
) -> Result<(), OutFault>
    ensures { Writes result (O.log out.old) (O.log out.new)
        (value_text path.now.head.message (current_path_text path.now)
        (results.Number (Marked mark) n)) }
{
    match kind_word(mark, n) {
        Some(word) => value_line(out, path, Value::Enum(word)),
        None => match number_name(mark, n) {
            Some(name) => {
                let NumberName { word, code } = name;
                let number = n;
                value_line(out, path, Value::Named { number, word, code })
            }
            None => {
                let number = Number::Unsigned(u64::from(n));
                value_line(out, path, Value::Primitive(Prim::ULong, number))
            }
        },
    }
}

/// The line of a piece, which begins at this offset of its content. It has the octets that were
/// held, and then the rest.
#[inline(always)]
#[tactic(auto, unfolding(giop_print::specs::Lines::content_line))]
fn octets_line<O: Out>(
    path: &CurrentPath<'_>,
    finished: Finished<'_>,
    offset: u32,
    more: bool,
    out: &mut O,
) -> Result<(), OutFault>
    requires known { finished.of.0 < length path.now.table.types }
    requires content { (n : ℕ) × HasContent (tree_at path.now.table n finished.of.0) }
    requires short { length finished.held.now + length finished.rest.now ≤ 32 }
    ensures { (n : ℕ) → Writes result (O.log out.old) (O.log out.new)
        (value_text path.now.head.message (current_path_text path.now)
        (results.Piece (tree_at path.now.table n finished.entry.of.0) offset
        (finished.entry.held.now ++ finished.entry.rest.now) more)) }
{
    let Finished { held, rest, .. } = finished;
    let offset = u64::from(offset);
    let held = match path.catalogue.shape(finished.of) {
        Shape::Text(_) => Piece::Text(held),
        Shape::Octets(_) => Piece::Octets(held),
        Shape::WideText => Piece::WideText(held),
        Shape::WideChar => Piece::WideChar(held),
        Shape::Encapsulation => {
            return split_inner_rest_line(out, path, offset, held, rest);
        }
        _ => unreachable!(),
    };
    let piece = SplitPiece {
        offset,
        held,
        rest,
        more,
    };
    split_piece_line(out, path, piece)
}

/// Writes the line of what an octet of an innermost part finishes.
#[inline(always)]
pub(crate) fn write_line<O: Out>(
    catalogue: &SeenCatalogue<'_>,
    head: &Head,
    outer: &[Frame],
    finished: Finished<'_>,
    out: &mut O,
) -> Result<(), OutFault>
    requires known { finished.of.0 < length catalogue.now.types }
    requires known_outer { AreKnown catalogue.now outer.now }
    requires room { length outer.now < 24 }
    requires has_output { HasOutput (tree_in catalogue.now outer.now finished.of.0)
        finished.output }
    requires short { length finished.held.now + length finished.rest.now ≤ 32 }
    ensures { (here at : ℕ) (lines : List ValueAt) →
        AreFinishedLines catalogue.now outer.now finished.entry here at lines →
        Writes result (O.log out.old) (O.log out.new)
        (lines_text head.now.message head.now.root lines) }
{
    let here = CurrentPath {
        catalogue,
        head,
        outer,
        switch: None,
    };
    match finished.output {
        Output::Nothing => Ok(()),
        Output::Length => Ok(()),
        Output::Number(number) => number_line(&here, finished.of, number, out),
        Output::Switch(number) => {
            let path = CurrentPath {
                catalogue,
                head,
                outer,
                switch: Some(finished.of),
            };
            let switch = catalogue.switch_type(finished.of);
            number_line(&path, switch, number, out)
        }
        Output::Count(count) => value_line(out, &here, Value::Count(count)),
        Output::Size(size) => encapsulation_line(out, &here, size),
        Output::Ordered(order) => order_line(out, &here, order),
        Output::Piece { offset, more } => { octets_line(&here, finished, offset, more, out) }
    }
}
