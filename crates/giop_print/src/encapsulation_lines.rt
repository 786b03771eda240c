//! The lines of an encapsulation, written to any `Out` (docs/FORMATS.md): how many octets it has,
//! their order, and the octets that are left after its value. Each function returns as the
//! functions of the other lines do.

ghost use Rattle.std.specs.Prelude.{◌+◌, ◌≤◌, ◌++◌, length};
ghost use Rattle.giop_print.specs.Output.{Writes};
ghost use Rattle.giop_print.specs.Lines.{encapsulation_line, order_line, inner_rest_line};

use crate::line::Line;
use crate::lines::{counted_line, kind_line, line_with_spelled_rest, put_content};
use crate::position::Position;
use crate::sink::{Out, OutFault};
use crate::value::{Piece, SplitPiece};
use crate::words::order_word;
use giop_cdr::Order;

/// The line of an encapsulation: how many octets it has.
pub fn encapsulation_line<O: Out, P: Position>(
    out: &mut O,
    path: &P,
    length: u32,
) -> Result<(), OutFault>
    ensures { Writes result (O.log out.old) (O.log out.new)
        (encapsulation_line (P.message path.now) (P.spelled path.now) length) }
{
    counted_line(out, path, b" encapsulation ", length)
}

/// The line of an encapsulation's byte order.
pub fn order_line<O: Out, P: Position>(out: &mut O, path: &P, order: Order) -> Result<(), OutFault>
    ensures { Writes result (O.log out.old) (O.log out.new)
        (order_line (P.message path.now) (P.spelled path.now) order) }
{
    kind_line(out, path, b" order ", order_word(order))
}

/// The line of at most 32 octets that stand at this offset in the rest of an encapsulation.
pub fn inner_rest_line<O: Out, P: Position>(
    out: &mut O,
    path: &P,
    offset: u64,
    octets: &[u8],
) -> Result<(), OutFault>
    requires { length octets.now ≤ 32 }
    ensures { Writes result (O.log out.old) (O.log out.new)
        (inner_rest_line (P.message path.now) (P.spelled path.now) offset octets.now) }
{
    split_inner_rest_line(out, path, offset, octets, &[])
}

/// The line of a part of an encapsulation's rest that came in two parts: the octets that were held,
/// and those that follow them, at most 32 together.
#[tactic(auto, unfolding(crate::specs::Lines::content_line))]
pub fn split_inner_rest_line<O: Out, P: Position>(
    out: &mut O,
    path: &P,
    offset: u64,
    held: &[u8],
    octets: &[u8],
) -> Result<(), OutFault>
    requires { length held.now + length octets.now ≤ 32 }
    ensures { Writes result (O.log out.old) (O.log out.new)
        (inner_rest_line (P.message path.now) (P.spelled path.now) offset
        (held.now ++ octets.now)) }
{
    let rest = SplitPiece {
        offset,
        held: Piece::Octets(held),
        rest: octets,
        more: false,
    };
    let mut line = Line::new();
    put_content(&mut line, rest);
    line.put_octets(b" rest @");
    line_with_spelled_rest(out, path, &mut line)
}
