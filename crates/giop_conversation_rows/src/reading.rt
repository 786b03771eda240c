//! How a conversation is read, with its pieces as they are and cut into smaller ones, and how the lines of each piece are
//! compared.

ghost use Rattle.giop_stream.specs.EngineHolds.{IsRequestTableOf};

use super::connection::Connection;
use super::conversation::{Conversation, Piece};
use giop_print::Sheet;
use giop_sig::{Catalogue, Requests};
use giop_stream::Stop;
use giop_testing::first_line;
use std::io;

/// The greatest numbers of octets of a piece that are fed at a time.
const SIZES: [usize; 3] = [usize::MAX, 7, 1];

/// Reads a conversation with each of the sizes, up to the first size with which it differs. The difference is printed.
pub fn is_read_each_way(
    rt: &HostRuntime,
    catalogue: &Catalogue,
    requests: &Requests,
    conversation: &Conversation,
) -> io::Result<bool>
    requires of { IsRequestTableOf catalogue.now requests.now }
{
    for size in SIZES {
        let connection = Connection::new(rt.alloc(), catalogue, requests, conversation.calls)?;
        if !is_read(rt, connection, conversation, size)? {
            return Ok(false);
        }
    }
    Ok(true)
}

/// Reads a conversation, with at most `size` octets at a time.
fn is_read(
    rt: &HostRuntime,
    connection: Connection,
    conversation: &Conversation,
    size: usize,
) -> io::Result<bool> {
    let mut connection = connection;
    Ok(
        is_repeated_read(rt, &mut connection, conversation, size)?
            && is_rest_read(rt, &mut connection, conversation, size)?
            && is_closed(rt, connection, conversation)?,
    )
}

/// Reads the pieces that come once for each number.
fn is_repeated_read(
    rt: &HostRuntime,
    connection: &mut Connection,
    conversation: &Conversation,
    size: usize,
) -> io::Result<bool> {
    let (first, last) = conversation.numbers;
    for number in first..=last {
        if !is_numbered_read(rt, connection, conversation, number, size)? {
            return Ok(false);
        }
    }
    Ok(true)
}

/// Reads the pieces that come once for each number, for this number.
fn is_numbered_read(
    rt: &HostRuntime,
    connection: &mut Connection,
    conversation: &Conversation,
    number: u32,
    size: usize,
) -> io::Result<bool> {
    for text in conversation.repeated.split("\npiece ") {
        let Some(piece) = Piece::read(text) else {
            return malformed(rt, conversation.name, text);
        };
        let (digits, lines) = piece.numbered(rt.alloc(), number)?;
        let piece = Piece {
            digits: &digits,
            lines: &lines,
            ..piece
        };
        if !is_piece_read(rt, connection, conversation.name, &piece, size)? {
            return Ok(false);
        }
    }
    Ok(true)
}

/// Reads the pieces after those that come once for each number.
fn is_rest_read(
    rt: &HostRuntime,
    connection: &mut Connection,
    conversation: &Conversation,
    size: usize,
) -> io::Result<bool> {
    for text in conversation.pieces.split("\npiece ") {
        let Some(piece) = Piece::read(text) else {
            return malformed(rt, conversation.name, text);
        };
        if !is_piece_read(rt, connection, conversation.name, &piece, size)? {
            return Ok(false);
        }
    }
    Ok(true)
}

/// Reads a piece.
fn is_piece_read(
    rt: &HostRuntime,
    connection: &mut Connection,
    name: &str,
    piece: &Piece,
    size: usize,
) -> io::Result<bool> {
    let Some(octets) = piece.octets(rt.alloc()) else {
        return malformed(rt, name, piece.digits);
    };
    let mut room = [0; 16_384];
    let mut sheet = Sheet::new(&mut room);
    if fed(connection, piece, &octets, size, &mut sheet).is_err() {
        return malformed(rt, name, piece.digits);
    }
    is_as_told(rt, name, piece.digits, piece.lines, sheet.held())
}

/// Feeds the octets of a piece, at most `size` at a time.
fn fed(
    connection: &mut Connection,
    piece: &Piece,
    octets: &[u8],
    size: usize,
    sheet: &mut Sheet,
) -> Result<(), Stop> {
    for part in octets.chunks(size.max(1)) {
        connection.feed(piece.direction, part, sheet)?;
    }
    Ok(())
}

/// Ends both directions, and compares the closing lines.
fn is_closed(
    rt: &HostRuntime,
    connection: Connection,
    conversation: &Conversation,
) -> io::Result<bool> {
    let mut room = [0; 16_384];
    let mut sheet = Sheet::new(&mut room);
    if connection.finish(&mut sheet).is_err() {
        return malformed(rt, conversation.name, "end");
    }
    is_as_told(
        rt,
        conversation.name,
        "end",
        conversation.closing,
        sheet.held(),
    )
}

/// Whether these lines are the ones that are wanted. If they aren't, prints the difference.
fn is_as_told(
    rt: &HostRuntime,
    name: &str,
    piece: &str,
    wanted: &str,
    written: &[u8],
) -> io::Result<bool> {
    let got = str::from_utf8(written).unwrap_or("octets that are no text");
    if got.strip_suffix('\n').unwrap_or(got) == wanted {
        return Ok(true);
    }
    println!(rt; "DIFFERS {name}, {piece}, {}", first_line(wanted, got))?;
    Ok(false)
}

/// Prints a piece that can't be read.
fn malformed(rt: &HostRuntime, name: &str, text: &str) -> io::Result<bool> {
    println!(rt; "MALFORMED {name}: {text}")?;
    Ok(false)
}
