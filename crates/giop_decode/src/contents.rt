//! The content of a string or of an octet sequence, or the rest of an encapsulation, in pieces of
//! 32 octets (docs/FORMATS.md).

ghost use Rattle.std.specs.Prelude.{◌≡◌};
ghost use Rattle.giop_decode.specs.Transitions.{held_after_output};

use crate::leaf::Output;
use arrayvec::ArrayVec;

/// Empties the piece that is held, if its line was written.
#[inline(always)]
pub(crate) fn drop_written_piece(output: Output, piece: &mut ArrayVec<u8, 32>)
    ensures { piece.new.items ≡ held_after_output output piece.old.items }
{
    match output {
        Output::Piece { .. } => piece.clear(),
        Output::Nothing => {}
        Output::Length => {}
        Output::Number(_) => {}
        Output::Switch(_) => {}
        Output::Count(_) => {}
        Output::Size(_) => {}
        Output::Ordered(_) => {}
    }
}
