//! The lines of a dump, written to any `Out` (docs/FORMATS.md). If a function returns Ok, its whole
//! line was written; else a put failed after a front of the line was written. Messages are named by
//! their numbers.

ghost use Rattle.std.specs.Prelude.{◌≡◌, ◌+◌, ◌≤◌, [], ◌++◌, length, codes, decimal};
ghost use Rattle.giop_cdr.specs.Primitives.{size_of};
ghost use Rattle.giop_print.specs.Output.{Writes};
ghost use Rattle.giop_print.specs.Line.{line_text, line_room, numbered, headed, Spells};
ghost use Rattle.giop_print.specs.Lines.{kind_line, kind_word, spaced, named_text, number_text, piece_octets, piece_word, split_piece_text, more_word, value_line, piece_line, split_piece_line, rest_line, start_line, call_line, interface_call_line, continues_line, cancelled_line, fault_line, end_line, stream_fault_line, unfinished_line, total_line};

use crate::line::Line;
use crate::position::Position;
use crate::sink::{Out, OutFault, put_parts};
use crate::value::{MessageHeader, Piece, SplitPiece, Value};
use crate::words::{put_kind, put_more, put_order, put_piece_word, put_type, truth_word};
use giop_cdr::{Number, Prim, size};
use itoa::Buffer;

/// The line of a value: a number, an enum's name, a count, or an unsigned long with a name.
pub fn value_line<O: Out, P: Position>(
    out: &mut O,
    path: &P,
    value: Value<'_>,
) -> Result<(), OutFault>
    ensures { Writes result (O.log out.old) (O.log out.new)
        (value_line (P.message path.now) (P.spelled path.now) value.entry) }
{
    match value {
        Value::Primitive(prim, number) => number_line(out, path, prim, number),
        Value::Enum(name) => kind_line(out, path, b" enum ", name),
        Value::Count(count) => counted_line(out, path, b" count ", count),
        Value::Named { number, word, code } => named_line(out, path, number, word, code),
    }
}

/// The line that says how many there are of something. The word of the kind already has its spaces.
#[tactic(auto, unfolding(crate::specs::Lines::kind_line))]
#[inline(always)]
pub(crate) fn counted_line<O: Out, P: Position>(
    out: &mut O,
    path: &P,
    kind: &[u8],
    count: u32,
) -> Result<(), OutFault>
    requires { length kind.now ≤ 128 }
    ensures { Writes result (O.log out.old) (O.log out.new)
        (kind_line (P.message path.now) (P.spelled path.now) kind.now (decimal count)) }
{
    let mut line = Line::new();
    line.put(b'\n');
    line.put_number(u64::from(count));
    line.put_octets(kind);
    line_with_spelled_rest(out, path, &mut line)
}

/// The line of a primitive's number.
#[tactic(auto, unfolding(crate::specs::Lines::kind_line))]
fn number_line<O: Out, P: Position>(
    out: &mut O,
    path: &P,
    prim: Prim,
    number: Number,
) -> Result<(), OutFault>
    ensures { Writes result (O.log out.old) (O.log out.new)
        (kind_line (P.message path.now) (P.spelled path.now) (spaced (kind_word prim))
        (number_text (size_of prim) number)) }
{
    let mut line = Line::new();
    put_number_end(&mut line, prim, number);
    line_with_spelled_rest(out, path, &mut line)
}

/// Puts what the line of a primitive's number has after its path on an empty line: the kind, the
/// number and the line feed.
#[inline(always)]
pub fn put_number_end(line: &mut Line, prim: Prim, number: Number)
    requires empty { line_text line.old ≡ [] }
    requires room { line_room line.old ≡ 256 }
    ensures text { line_text line.new
        ≡ spaced (kind_word prim) ++ (number_text (size_of prim) number ++ codes "\n") }
    ensures room { 200 ≤ line_room line.new }
{
    line.put(b'\n');
    match number {
        Number::Unsigned(n) => line.put_number(n),
        Number::Signed(n) => line.put_signed(n),
        Number::Bits(bits) => line.put_bits(bits, size(prim)),
        Number::Truth(truth) => line.put_octets(truth_word(truth)),
        Number::Char(octet) => line.put_quoted(octet),
    }
    put_kind(line, prim);
}

/// A line whose front is given, and whose rest is already spelled.
#[inline(always)]
pub fn line_behind<O: Out>(out: &mut O, front: &Line, line: &mut Line) -> Result<(), OutFault>
    requires within { length (line_text front.now) ≤ line_room line.old }
    requires room { 32 ≤ line_room line.old }
    ensures { Writes result (O.log out.old) (O.log out.new)
        (line_text front.now ++ line_text line.old) }
{
    line.put_front(front);
    out.put_line(line)
}

/// The longest text that is spelled in one piece with its line. Most texts are shorter.
const SHORT: usize = 128;

/// The line of a value of a kind. The word of the kind already has its spaces.
#[tactic(auto, unfolding(crate::specs::Lines::kind_line))]
pub fn kind_line<'a, O: Out, P: Position>(
    out: &mut O,
    path: &'a P,
    kind: &'a [u8],
    text: &'a [u8],
) -> Result<(), OutFault>
    ensures { Writes result (O.log out.old) (O.log out.new)
        (kind_line (P.message path.now) (P.spelled path.now) kind.now text.now) }
{
    if text.len() > SHORT {
        return long_kind_line(out, path, kind, text);
    }
    let mut line = Line::new();
    line.put(b'\n');
    line.put_octets(text);
    line_at_position(out, path, kind, &mut line)
}

/// The line of an unsigned long that has a name: the number, a word, and the code after it if there
/// is one.
#[tactic(auto, unfolding(crate::specs::Lines::kind_line))]
#[inline(never)]
fn named_line<O: Out, P: Position>(
    out: &mut O,
    path: &P,
    number: u32,
    word: &[u8],
    code: Option<u16>,
) -> Result<(), OutFault>
    ensures { Writes result (O.log out.old) (O.log out.new)
        (kind_line (P.message path.now) (P.spelled path.now) (codes " ulong ")
        (named_text number word.now code)) }
{
    let mut line = Line::new();
    line.put(b'\n');
    if let Some(code) = code {
        line.put_number(u64::from(code));
        line.put(b' ');
    }
    if word.len() > SHORT {
        return long_named_line(out, path, number, word, line.text());
    }
    line.put_octets(word);
    line.put(b' ');
    line.put_number(u64::from(number));
    line.put_octets(b" ulong ");
    line_with_spelled_rest(out, path, &mut line)
}

/// The same line with a word of any length, written in parts, with what follows the word.
#[inline(never)]
fn long_named_line<O: Out, P: Position>(
    out: &mut O,
    path: &P,
    number: u32,
    word: &[u8],
    end: &[u8],
) -> Result<(), OutFault>
    ensures { Writes result (O.log out.old) (O.log out.new)
        (headed (P.message path.now) (P.spelled path.now)
        (codes " ulong " ++ (decimal number ++ (codes " " ++ (word.now ++ end.now))))) }
{
    let mut message_digits = Buffer::new();
    let mut digits = Buffer::new();
    let place = path.path();
    put_parts(
        out,
        &[
            b"m",
            message_digits.format(path.message()).as_bytes(),
            b" ",
            place.text(),
            b" ulong ",
            digits.format(number).as_bytes(),
            b" ",
            word,
            end,
        ],
    )
}

/// The same line with a text of any length, written in parts.
#[tactic(auto, unfolding(crate::specs::Lines::kind_line))]
#[inline(never)]
fn long_kind_line<'a, O: Out, P: Position>(
    out: &mut O,
    path: &'a P,
    kind: &'a [u8],
    text: &'a [u8],
) -> Result<(), OutFault>
    ensures { Writes result (O.log out.old) (O.log out.new)
        (kind_line (P.message path.now) (P.spelled path.now) kind.now text.now) }
{
    let mut message_digits = Buffer::new();
    let place = path.path();
    put_parts(
        out,
        &[
            b"m",
            message_digits.format(path.message()).as_bytes(),
            b" ",
            place.text(),
            kind,
            text,
            b"\n",
        ],
    )
}

/// A line of a message at a position, written in parts: what it begins with, and the rest.
#[inline(never)]
fn long_line<'a, O: Out, P: Position>(
    out: &mut O,
    path: &'a P,
    kind: &'a [u8],
    rest: &'a [u8],
) -> Result<(), OutFault>
    ensures { Writes result (O.log out.old) (O.log out.new)
        (headed (P.message path.now) (P.spelled path.now) (kind.now ++ rest.now)) }
{
    let mut digits = Buffer::new();
    let place = path.path();
    put_parts(
        out,
        &[
            b"m",
            digits.format(path.message()).as_bytes(),
            b" ",
            place.text(),
            kind,
            rest,
        ],
    )
}

/// A line of a message at a position: what it begins with, a kind, and the rest, which is already
/// spelled.
fn line_at_position<O: Out, P: Position>(
    out: &mut O,
    path: &P,
    kind: &[u8],
    line: &mut Line,
) -> Result<(), OutFault>
    ensures { Writes result (O.log out.old) (O.log out.new)
        (headed (P.message path.now) (P.spelled path.now) (kind.now ++ line_text line.old)) }
{
    if kind.len() > line.room() {
        return long_line(out, path, kind, line.text());
    }
    line.put_octets(kind);
    line_with_spelled_rest(out, path, line)
}

/// A line of a message at a position: what it begins with, and the rest, which is already spelled
/// with its kind.
pub(crate) fn line_with_spelled_rest<O: Out, P: Position>(
    out: &mut O,
    path: &P,
    line: &mut Line,
) -> Result<(), OutFault>
    ensures { Writes result (O.log out.old) (O.log out.new)
        (headed (P.message path.now) (P.spelled path.now) (line_text line.old)) }
{
    let room = line.room();
    if path.spell(line) {
        return out.put_line(line);
    }
    line.drop_front_to_room(room);
    long_line(out, path, &[], line.text())
}

/// A line of a message: its number, and the rest, which is already spelled.
#[inline(always)]
pub fn numbered_line<O: Out>(out: &mut O, message: u64, line: &mut Line) -> Result<(), OutFault>
    requires { 21 ≤ line_room line.old }
    ensures { Writes result (O.log out.old) (O.log out.new)
        (numbered message (line_text line.old)) }
{
    line.put_number(message);
    line.put(b'm');
    out.put_line(line)
}

/// The line of a piece of at most 32 octets, with its offset in its content, and whether more
/// comes.
pub fn piece_line<O: Out, P: Position>(
    out: &mut O,
    path: &P,
    piece: Piece<'_>,
    offset: u64,
    more: bool,
) -> Result<(), OutFault>
    requires { length (piece_octets piece) ≤ 32 }
    ensures { Writes result (O.log out.old) (O.log out.new)
        (piece_line (P.message path.now) (P.spelled path.now) piece.entry offset more) }
{
    let piece = SplitPiece {
        offset,
        held: piece,
        rest: &[],
        more,
    };
    split_piece_line(out, path, piece)
}

/// The line of a piece that came in two parts, at most 32 octets together.
#[tactic(auto, unfolding(crate::specs::Lines::content_line))]
pub fn split_piece_line<O: Out, P: Position>(
    out: &mut O,
    path: &P,
    piece: SplitPiece<'_>,
) -> Result<(), OutFault>
    requires { length (piece_octets piece.held) + length piece.rest.now ≤ 32 }
    ensures { Writes result (O.log out.old) (O.log out.new)
        (split_piece_line (P.message path.now) (P.spelled path.now) piece.entry.held
        piece.entry.rest.now piece.entry.offset piece.entry.more) }
{
    let mut line = Line::new();
    put_piece_end(&mut line, piece);
    line_with_spelled_rest(out, path, &mut line)
}

/// Puts what the line of a piece has after its path on an empty line: its word, its offset, its octets, whether more
/// comes, and the line feed.
#[inline(always)]
pub fn put_piece_end(line: &mut Line, piece: SplitPiece<'_>)
    requires size { length (piece_octets piece.held) + length piece.rest.now ≤ 32 }
    requires empty { line_text line.old ≡ [] }
    requires room { line_room line.old ≡ 256 }
    ensures text { line_text line.new ≡ piece_word piece.entry.held
        ++ (decimal piece.entry.offset ++ (split_piece_text piece.entry.held piece.entry.rest.now
        ++ (more_word piece.entry.more ++ codes "\n"))) }
    ensures room { 89 ≤ line_room line.new }
{
    put_content(line, piece);
    put_piece_word(line, piece.held);
}

/// Puts what the line of a part of a content has after its word on an empty line: its offset, its
/// octets, whether more comes, and the line feed. The part came in two parts.
#[inline(always)]
pub(crate) fn put_content(line: &mut Line, piece: SplitPiece<'_>)
    requires size { length (piece_octets piece.held) + length piece.rest.now ≤ 32 }
    requires empty { line_text line.old ≡ [] }
    requires room { line_room line.old ≡ 256 }
    ensures text { line_text line.new ≡ decimal piece.entry.offset
        ++ (split_piece_text piece.entry.held piece.entry.rest.now
        ++ (more_word piece.entry.more ++ codes "\n")) }
    ensures room { 99 ≤ line_room line.new }
{
    line.put(b'\n');
    put_more(line, piece.more);
    line.put_piece(piece.held, piece.rest);
    line.put_number(piece.offset);
}

/// The line of at most 32 octets that stand at this offset in the rest.
pub fn rest_line<O: Out>(
    out: &mut O,
    message: u64,
    offset: u64,
    octets: &[u8],
) -> Result<(), OutFault>
    requires { length octets.now ≤ 32 }
    ensures { Writes result (O.log out.old) (O.log out.new) (rest_line message offset octets.now) }
{
    split_rest_line(out, message, offset, octets, &[])
}

/// The line of a part of the rest that came in two parts: the octets that were held, and those that
/// follow them, at most 32 together.
pub fn split_rest_line<O: Out>(
    out: &mut O,
    message: u64,
    offset: u64,
    held: &[u8],
    octets: &[u8],
) -> Result<(), OutFault>
    requires { length held.now + length octets.now ≤ 32 }
    ensures { Writes result (O.log out.old) (O.log out.new)
        (rest_line message offset (held.now ++ octets.now)) }
{
    let mut line = Line::new();
    line.put(b'\n');
    line.put_hex(octets);
    line.put_hex(held);
    line.put(b' ');
    line.put_number(offset);
    line.put_octets(b" rest @");
    numbered_line(out, message, &mut line)
}

/// The line of a header: the minor version, the order, the message type, the size, and whether fragments follow.
#[tactic(auto, unfolding(crate::specs::Lines::start_line))]
pub fn start_line<O: Out>(out: &mut O, message: u64, header: MessageHeader) -> Result<(), OutFault>
    ensures { Writes result (O.log out.old) (O.log out.new)
        (start_line message header.minor header.order header.kind header.size header.more) }
{
    let mut line = Line::new();
    line.put(b'\n');
    put_more(&mut line, header.more);
    line.put_number(u64::from(header.size));
    line.put_octets(b" size ");
    put_type(&mut line, header.kind);
    line.put(b' ');
    put_order(&mut line, header.order);
    line.put(b' ');
    line.put_number(u64::from(header.minor));
    line.put_octets(b" start 1.");
    numbered_line(out, message, &mut line)
}

/// The line of a Request's id and operation.
#[tactic(auto, unfolding(crate::specs::Lines::call_line))]
pub fn call_line<O: Out>(out: &mut O, message: u64, id: u32, name: &[u8]) -> Result<(), OutFault>
    ensures { Writes result (O.log out.old) (O.log out.new) (call_line message id name.now) }
{
    if name.len() > SHORT {
        return long_call_line(out, message, id, name);
    }
    let mut line = Line::new();
    line.put(b'\n');
    line.put_octets(name);
    line.put(b' ');
    line.put_number(u64::from(id));
    line.put_octets(b" call ");
    numbered_line(out, message, &mut line)
}

/// The same line with a name of any length, written in parts.
#[tactic(auto, unfolding(crate::specs::Lines::call_line))]
#[inline(never)]
fn long_call_line<O: Out>(out: &mut O, message: u64, id: u32, name: &[u8]) -> Result<(), OutFault>
    ensures { Writes result (O.log out.old) (O.log out.new) (call_line message id name.now) }
{
    let mut message_digits = Buffer::new();
    let mut id_digits = Buffer::new();
    put_parts(
        out,
        &[
            b"m",
            message_digits.format(message).as_bytes(),
            b" call ",
            id_digits.format(id).as_bytes(),
            b" ",
            name,
            b"\n",
        ],
    )
}

/// The line of a Request's id, operation and interface.
#[tactic(auto, unfolding(crate::specs::Lines::interface_call_line))]
pub fn interface_call_line<O: Out>(
    out: &mut O,
    message: u64,
    id: u32,
    name: &[u8],
    interface: &[u8],
) -> Result<(), OutFault>
    ensures { Writes result (O.log out.old) (O.log out.new)
        (interface_call_line message id name.now interface.now) }
{
    let mut message_digits = Buffer::new();
    let mut call_digits = Buffer::new();
    put_parts(
        out,
        &[
            b"m",
            message_digits.format(message).as_bytes(),
            b" call ",
            call_digits.format(id).as_bytes(),
            b" ",
            name,
            b" ",
            interface,
            b"\n",
        ],
    )
}

/// The line of a Fragment and the message that it continues.
#[tactic(auto, unfolding(crate::specs::Lines::continues_line))]
pub fn continues_line<O: Out>(out: &mut O, fragment: u64, opener: u64) -> Result<(), OutFault>
    ensures { Writes result (O.log out.old) (O.log out.new) (continues_line fragment opener) }
{
    let mut line = Line::new();
    line.put(b'\n');
    line.put_number(opener);
    line.put_octets(b" continues m");
    numbered_line(out, fragment, &mut line)
}

/// The line of a message and the CancelRequest that cancels it.
#[tactic(auto, unfolding(crate::specs::Lines::cancelled_line))]
pub fn cancelled_line<O: Out>(out: &mut O, message: u64, by: u64) -> Result<(), OutFault>
    ensures { Writes result (O.log out.old) (O.log out.new) (cancelled_line message by) }
{
    let mut message_digits = Buffer::new();
    let mut by_digits = Buffer::new();
    put_parts(
        out,
        &[
            b"m",
            message_digits.format(message).as_bytes(),
            b" cancelled by m",
            by_digits.format(by).as_bytes(),
            b"\n",
        ],
    )
}

/// The line of a message's fault: its word, and the number of octets of the stream up to and with
/// the octet that has the fault.
#[tactic(auto, unfolding(crate::specs::Lines::fault_line))]
pub fn fault_line<O: Out>(out: &mut O, message: u64, word: &str, place: u64) -> Result<(), OutFault>
    ensures { Writes result (O.log out.old) (O.log out.new) (fault_line message word.now place) }
{
    if word.len() > SHORT {
        return long_fault_line(out, message, word, place);
    }
    let mut line = Line::new();
    line.put(b'\n');
    line.put_number(place);
    line.put_octets(b" at ");
    line.put_octets(word.as_bytes());
    line.put_octets(b" fault ");
    numbered_line(out, message, &mut line)
}

/// The same line with a word of any length, written in parts.
#[tactic(auto, unfolding(crate::specs::Lines::fault_line))]
#[inline(never)]
fn long_fault_line<O: Out>(
    out: &mut O,
    message: u64,
    word: &str,
    place: u64,
) -> Result<(), OutFault>
    ensures { Writes result (O.log out.old) (O.log out.new) (fault_line message word.now place) }
{
    let mut message_digits = Buffer::new();
    let mut place_digits = Buffer::new();
    put_parts(
        out,
        &[
            b"m",
            message_digits.format(message).as_bytes(),
            b" fault ",
            word.as_bytes(),
            b" at ",
            place_digits.format(place).as_bytes(),
            b"\n",
        ],
    )
}

/// The line of a message's end.
#[tactic(auto, unfolding(crate::specs::Lines::end_line))]
pub fn end_line<O: Out>(out: &mut O, message: u64) -> Result<(), OutFault>
    ensures { Writes result (O.log out.old) (O.log out.new) (end_line message) }
{
    let mut line = Line::new();
    line.put_octets(b" end\n");
    numbered_line(out, message, &mut line)
}

/// The line of the stream's fault: its word, and the number of octets up to and with the octet that
/// has the fault.
#[tactic(auto, unfolding(crate::specs::Lines::stream_fault_line))]
pub fn stream_fault_line<O: Out>(out: &mut O, word: &str, place: u64) -> Result<(), OutFault>
    ensures { Writes result (O.log out.old) (O.log out.new) (stream_fault_line word.now place) }
{
    let mut place_digits = Buffer::new();
    put_parts(
        out,
        &[
            b"stream fault ",
            word.as_bytes(),
            b" at ",
            place_digits.format(place).as_bytes(),
            b"\n",
        ],
    )
}

/// The line of a message that the stream leaves open.
#[tactic(auto, unfolding(crate::specs::Lines::unfinished_line))]
pub fn unfinished_line<O: Out>(out: &mut O, message: u64) -> Result<(), OutFault>
    ensures { Writes result (O.log out.old) (O.log out.new) (unfinished_line message) }
{
    let mut message_digits = Buffer::new();
    put_parts(
        out,
        &[
            b"m",
            message_digits.format(message).as_bytes(),
            b" unfinished\n",
        ],
    )
}

/// The line of the whole stream: how many messages have begun, how many faults there were, and how
/// many octets.
#[tactic(auto, unfolding(crate::specs::Lines::total_line))]
pub fn total_line<O: Out>(
    out: &mut O,
    messages: u64,
    faults: u64,
    octets: u64,
) -> Result<(), OutFault>
    ensures { Writes result (O.log out.old) (O.log out.new) (total_line messages faults octets) }
{
    let mut messages_digits = Buffer::new();
    let mut faults_digits = Buffer::new();
    let mut octets_digits = Buffer::new();
    put_parts(
        out,
        &[
            b"total messages ",
            messages_digits.format(messages).as_bytes(),
            b" faults ",
            faults_digits.format(faults).as_bytes(),
            b" octets ",
            octets_digits.format(octets).as_bytes(),
            b"\n",
        ],
    )
}
