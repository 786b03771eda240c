//! The lines of worked streams, and of pieces.

ghost use Rattle.std.specs.Prelude.{◌≡◌};

use crate::place::placed;
use crate::streams::{FRAGMENTS, REQUEST, fragments, request};
use giop_cdr::Order;
use giop_print::{
    Head, Line, OutFault, Path, Piece, Root, Sheet, SplitPiece, encapsulation_line,
    inner_rest_line, order_line, piece_line, split_inner_rest_line, split_piece_line,
    split_rest_line,
};
use std::test::Fail;

#[test]
fn lines_of_a_request(rt: HostRuntime) -> Result<(), Fail> {
    let mut room = [0; 512];
    let mut sheet = Sheet::new(&mut room);
    request(&mut sheet)?;
    assert!(rt; sheet.held() == REQUEST);
    Ok(())
}

#[test]
fn lines_of_fragments_and_faults(rt: HostRuntime) -> Result<(), Fail> {
    let mut room = [0; 512];
    let mut sheet = Sheet::new(&mut room);
    fragments(&mut sheet)?;
    assert!(rt; sheet.held() == FRAGMENTS);
    Ok(())
}

/// Pieces of a text and of octets: the last ones, and ones after which more comes.
fn pieces(sheet: &mut Sheet, path: &mut Path) -> Result<(), OutFault> {
    piece_line(
        sheet,
        &placed(1, path),
        Piece::Text(b"IDL:Late:1.0"),
        0,
        false,
    )?;
    path.restart(Root::Body);
    path.push_name(b"s");
    path.push_index(4_294_967_295);
    piece_line(sheet, &placed(1, path), Piece::Text(b""), 0, false)?;
    piece_line(
        sheet,
        &placed(1, path),
        Piece::Text(b"\"\\\x07 ~\x7f\xff"),
        32,
        false,
    )?;
    piece_line(sheet, &placed(1, path), Piece::Text(&[0; 32]), 64, true)?;
    piece_line(sheet, &placed(1, path), Piece::Octets(&[0xab; 32]), 0, true)
}

const PIECES: &[u8] = b"m1 exception string @0 \"IDL:Late:1.0\"
m1 body.s[4294967295] string @0 \"\"
m1 body.s[4294967295] string @32 \"\\x22\\x5c\\x07 ~\\x7f\\xff\"
m1 body.s[4294967295] string @64 \"\\x00\\x00\\x00\\x00\\x00\\x00\\x00\\x00\\x00\\x00\\x00\\x00\\x00\\x00\\x00\\x00\\x00\\x00\\x00\\x00\\x00\\x00\\x00\\x00\\x00\\x00\\x00\\x00\\x00\\x00\\x00\\x00\" more
m1 body.s[4294967295] octets @0 abababababababababababababababababababababababababababababababab more
";

#[test]
fn pieces_are_escaped_or_spelled_and_say_whether_more_comes(rt: HostRuntime) -> Result<(), Fail> {
    let mut room = [0; 512];
    let mut sheet = Sheet::new(&mut room);
    let mut path = Path::new(Root::Exception);
    pieces(&mut sheet, &mut path)?;
    assert!(rt; sheet.held() == PIECES);
    Ok(())
}

/// A piece that came in two parts.
fn split<'a>(offset: u64, held: Piece<'a>, rest: &'a [u8], more: bool) -> SplitPiece<'a>
    ensures held { result.held ≡ held.entry }
    ensures rest { result.rest ≡ rest.entry }
{
    SplitPiece {
        offset,
        held,
        rest,
        more,
    }
}

/// Pieces of a text and of octets, and a part of a rest. Each of them came in two parts.
fn split_parts(sheet: &mut Sheet, path: &Path) -> Result<(), OutFault> {
    split_piece_line(
        sheet,
        &placed(1, path),
        split(0, Piece::Text(b"IDL:"), b"La\x07", false),
    )?;
    split_piece_line(
        sheet,
        &placed(1, path),
        split(32, Piece::Text(b""), b"te\"", true),
    )?;
    split_piece_line(
        sheet,
        &placed(1, path),
        split(0, Piece::Octets(&[0xab; 31]), b"\xcd", true),
    )?;
    split_piece_line(
        sheet,
        &placed(1, path),
        split(32, Piece::Octets(b""), b"", false),
    )?;
    split_rest_line(sheet, 1, 32, b"\x00\x00", b"\x00\x2a\x09")
}

const SPLIT_PARTS: &[u8] = b"m1 exception string @0 \"IDL:La\\x07\"
m1 exception string @32 \"te\\x22\" more
m1 exception octets @0 abababababababababababababababababababababababababababababababcd more
m1 exception octets @32
m1 rest @32 0000002a09
";

#[test]
fn parts_that_came_in_two_are_written_as_one(rt: HostRuntime) -> Result<(), Fail> {
    let mut room = [0; 512];
    let mut sheet = Sheet::new(&mut room);
    let path = Path::new(Root::Exception);
    split_parts(&mut sheet, &path)?;
    assert!(rt; sheet.held() == SPLIT_PARTS);
    Ok(())
}

/// Whether the head has this message and this root, and puts this text before a line.
fn is_head(message: u64, root: Root, text: &[u8]) -> bool {
    let head = Head::new(message, root);
    let mut line = Line::new();
    line.put_octets(b".a\n");
    head.put(&mut line);
    let said = head.message() == message && head.root() == root;
    said && line.text() == text && line.room() == 256 - text.len()
}

#[test]
fn a_head_goes_before_a_line(rt: HostRuntime) {
    assert!(rt; is_head(0, Root::Body, b"m0 body.a\n"));
    assert!(rt; is_head(1_234_567, Root::Header, b"m1234567 header.a\n"));
    assert!(rt; is_head(12_345_678, Root::Header, b"m12345678 header.a\n"));
    let most = u64::MAX;
    assert!(rt;
        is_head(
            most,
            Root::Exception,
            b"m18446744073709551615 exception.a\n"
        )
    );
}

#[test]
fn the_end_of_a_block_goes_before_a_line(rt: HostRuntime) {
    let mut line = Line::new();
    line.put_octets(b"end\n");
    line.put_end(b"0123456789abs12 ", 4);
    assert!(rt; line.text() == b"s12 end\n".as_slice() && line.room() == 248);
    assert!(rt; &line.last_octets()[56..] == line.text());
    line.put_octets(&[b'x'; 80]);
    assert!(rt; line.last_octets() == &line.text()[24..]);
}

/// An encapsulation and its order, and the octets that are left after its value: in one part, and
/// in two.
fn encapsulations(sheet: &mut Sheet, path: &Path) -> Result<(), OutFault> {
    encapsulation_line(sheet, &placed(1, path), 12)?;
    order_line(sheet, &placed(1, path), Order::Big)?;
    order_line(sheet, &placed(1, path), Order::Little)?;
    inner_rest_line(sheet, &placed(1, path), 0, &[0xab; 32])?;
    inner_rest_line(sheet, &placed(1, path), 32, b"\x00\x2a")?;
    split_inner_rest_line(sheet, &placed(1, path), 64, b"\x00", b"\x2a\x09")
}

const ENCAPSULATIONS: &[u8] = b"m1 body.e encapsulation 12
m1 body.e order big
m1 body.e order little
m1 body.e rest @0 abababababababababababababababababababababababababababababababab
m1 body.e rest @32 002a
m1 body.e rest @64 002a09
";

#[test]
fn an_encapsulation_has_its_lines(rt: HostRuntime) -> Result<(), Fail> {
    let mut room = [0; 512];
    let mut sheet = Sheet::new(&mut room);
    let mut path = Path::new(Root::Body);
    path.push_name(b"e");
    encapsulations(&mut sheet, &path)?;
    assert!(rt; sheet.held() == ENCAPSULATIONS);
    Ok(())
}
