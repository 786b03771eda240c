//! A value octet by octet: what the decoder answers at each, and what its readers tell after it.
ghost use Rattle.giop_decode.specs.DecoderState.{Fits};

use crate::rows::Row;
use giop_decode::{Decoder, Progress};
use giop_print::Sheet;
use giop_sig::Catalogue;
use giop_testing::spelled;

/// What differs of a row, or nothing.
pub fn differs(catalogue: &Catalogue, row: &Row) -> &'static str {
    if !catalogue.has(row.of) {
        return "the type";
    }
    let mut decoder = Decoder::start(catalogue, row.of, row.order, row.offset, 1, row.root, 2);
    if decoder.is_done() || !tells(&decoder, "0 more - - -") {
        return "before any octet";
    }
    let mut room = [0; 256];
    let octets = spelled(row.octets, &mut room);
    let mut room = [0; 1024];
    let mut sheet = Sheet::new(&mut room);
    let differs = take_all(catalogue, &mut decoder, octets, row.told, &mut sheet);
    if differs.is_empty() && sheet.held() != row.lines.as_bytes() {
        return "the lines";
    }
    differs
}

/// Takes octets, up to the first at which something else is answered or told.
fn take_all(
    catalogue: &Catalogue,
    decoder: &mut Decoder,
    octets: &[u8],
    told: &str,
    out: &mut Sheet,
) -> &'static str
    requires { Fits catalogue.now decoder.old }
{
    for taken in 0..octets.len() {
        let line = told_at(told, taken + 1);
        match decoder.take(catalogue, octets[taken], out) {
            Ok(Progress::More) => if !is_as_told(decoder, line, taken + 1, "more") {
                return "what is told where the value goes on";
            },
            Ok(Progress::Named) => if !is_as_told(decoder, line, taken + 1, "named") {
                return "what is told at its name";
            },
            Ok(Progress::Done) => if is_as_told(decoder, line, taken + 1, "done") {
                return left(octets.len() - taken - 1);
            } else {
                return "what is told at its end";
            },
            Ok(Progress::Fault(_)) => return "a fault",
            Err(_) => return "a put failed",
        }
    }
    "not over at the last octet"
}

/// What differs where a value is over and so many octets are left.
fn left(count: usize) -> &'static str {
    if count == 0 {
        ""
    } else {
        "over before the last octet"
    }
}

/// The last line that tells of so many octets or fewer.
fn told_at(told: &str, taken: usize) -> &str {
    let mut last = "0 more - - -";
    for line in told.split('\n') {
        if number(line) <= Some(taken) && !line.is_empty() {
            last = line;
        }
    }
    last
}

/// The number in front of a line.
fn number(line: &str) -> Option<usize> {
    let (number, _) = line.split_once(' ')?;
    usize::from_str_radix(number, 10).ok()
}

/// Whether this was the answer to tell at the last of so many octets, and the readers tell what the line says.
fn is_as_told(decoder: &Decoder, line: &str, taken: usize, answer: &str) -> bool {
    let wanted = if number(line) == Some(taken) {
        line.split(' ').nth(1).unwrap_or("")
    } else {
        "more"
    };
    wanted == answer && tells(decoder, line)
}

/// Whether the readers tell what the line says.
fn tells(decoder: &Decoder, line: &str) -> bool {
    let mut words = line.splitn(5, ' ').skip(2);
    let request_id = words.next().unwrap_or("");
    let status = words.next().unwrap_or("");
    let name = words.next().unwrap_or("");
    decoder.request_id() == told_number(request_id)
        && decoder.status() == told_number(status)
        && is_name(decoder, name)
}

/// The number of a word, or none.
fn told_number(word: &str) -> Option<u32> {
    u32::from_str_radix(word, 10).ok()
}

/// Whether this is the name, or `-` where there is none.
fn is_name(decoder: &Decoder, word: &str) -> bool {
    match decoder.name() {
        Some(name) => name == word.as_bytes(),
        None => word == "-",
    }
}
