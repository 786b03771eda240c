//! How the sets of rows are read, each row is dumped, and it is printed whether the row differs.

ghost use Rattle.giop_stream.specs.EngineHolds.{IsRequestTableOf};

use super::kept::Kept;
use super::resuming::is_resumed;
use super::row::{Row, list, octets};
use super::tally::Tally;
use super::trying::is_dumped_each_way;
use giop_sig::{Catalogue, Requests};
use std::alloc::Global;
use std::io;

/// Prints for each row whether it is dumped as expected, and at the end how many rows there were.
pub fn tell(rt: &HostRuntime, text: &str, tally: &mut Tally) -> io::Result<()> {
    for set in text.strip_suffix('\n').unwrap_or("").split("\n=\n") {
        tell_set(rt, set, tally)?;
    }
    println!(rt; "{} rows, {} differ", tally.rows, tally.differ)
}

fn tell_set(rt: &HostRuntime, set: &str, tally: &mut Tally) -> io::Result<()> {
    let Some((files, rows)) = set.split_once("\n\n") else {
        return unread(rt, "MALFORMED set", set, tally);
    };
    let Some((signatures, requests)) = files.split_once("requests") else {
        return unread(rt, "MALFORMED files", files, tally);
    };
    match catalogue_of(rt.alloc(), signatures) {
        Some(catalogue) => tell_typed(rt, &catalogue, requests, rows, tally),
        None => unread(rt, "REFUSED signature file", signatures, tally),
    }
}

/// Prints a text that can't be read, and counts it as a row that differs.
fn unread(rt: &HostRuntime, why: &str, text: &str, tally: &mut Tally) -> io::Result<()> {
    tally.count(false);
    println!(rt; "{why}:\n{text}")
}

/// The catalogue of a signature file, or of the built-in types if there is none.
fn catalogue_of(alloc: Global, text: &str) -> Option<Box<Catalogue>> {
    let told = if text.is_empty() {
        Catalogue::builtin(alloc)
    } else {
        Catalogue::parse_types(alloc, text.as_bytes())
    };
    Box::new(alloc, told.ok()?).ok()
}

fn tell_typed(
    rt: &HostRuntime,
    catalogue: &Catalogue,
    requests: &str,
    rows: &str,
    tally: &mut Tally,
) -> io::Result<()> {
    let lines = requests.strip_prefix('\n').unwrap_or(requests);
    match list(rt.alloc(), lines) {
        Some(list) => tell_listed(rt, catalogue, &list, rows, tally),
        None => unread(rt, "MALFORMED request list", requests, tally),
    }
}

fn tell_listed(
    rt: &HostRuntime,
    catalogue: &Catalogue,
    list: &str,
    rows: &str,
    tally: &mut Tally,
) -> io::Result<()> {
    match Requests::parse(rt.alloc(), list.as_bytes(), catalogue) {
        Ok(requests) => tell_rows(rt, catalogue, &requests, rows, tally),
        Err(_) => unread(rt, "REFUSED request list", list, tally),
    }
}

fn tell_rows(
    rt: &HostRuntime,
    catalogue: &Catalogue,
    requests: &Requests,
    rows: &str,
    tally: &mut Tally,
) -> io::Result<()>
    requires of { IsRequestTableOf catalogue.now requests.now }
{
    for text in rows.split("\n\n") {
        match Row::read(text) {
            Some(row) => tell_row(rt, catalogue, requests, &row, tally)?,
            None => unread(rt, "MALFORMED row", text, tally)?,
        }
    }
    Ok(())
}

fn tell_row(
    rt: &HostRuntime,
    catalogue: &Catalogue,
    requests: &Requests,
    row: &Row,
    tally: &mut Tally,
) -> io::Result<()>
    requires of { IsRequestTableOf catalogue.now requests.now }
{
    if let Some(kept) = Kept::read(row.stream) {
        let is_as_told = is_resumed(rt, catalogue, requests, row, &kept)?;
        tally.count(is_as_told);
        return told(rt, row.name, is_as_told);
    }
    match octets(rt.alloc(), row.stream) {
        Some(stream) => tell_stream(rt, catalogue, requests, row, &stream, tally),
        None => unread(rt, "MALFORMED octets", row.stream, tally),
    }
}

fn tell_stream(
    rt: &HostRuntime,
    catalogue: &Catalogue,
    requests: &Requests,
    row: &Row,
    stream: &[u8],
    tally: &mut Tally,
) -> io::Result<()>
    requires of { IsRequestTableOf catalogue.now requests.now }
{
    let is_as_told = is_dumped_each_way(rt, catalogue, requests, row, stream)?;
    tally.count(is_as_told);
    told(rt, row.name, is_as_told)
}

/// Prints a row that is as expected. A row that differs was printed already.
fn told(rt: &HostRuntime, name: &str, is_as_told: bool) -> io::Result<()> {
    if is_as_told {
        println!(rt; "ok {name}")?;
    }
    Ok(())
}
