//! The tables as one JSON object (RFC 8259).

use crate::choice::Grouping;
use crate::row::Row;
use crate::seconds::put_seconds;
use crate::sorted::{sorted_exception_ids, sorted_rows};
use crate::table::Table;
use crate::tables::Tables;
use crate::times::Times;
use giop_json_values::{JsonText, utf8_or_empty};
use giop_view_parts::{Capture, Endpoint};
use std::alloc::{AllocError, Global};

/// The tables as one object, with its line feed.
pub(crate) fn json_of_tables(
    alloc: Global,
    by: Option<Grouping<'_>>,
    tables: &Tables,
    capture: &Capture,
) -> Result<Vec<u8>, AllocError> {
    let mut text = JsonText::new(Vec::new(alloc));
    let title = match by {
        None => "",
        Some(by) => by.column_title(),
    };
    text.open(false)?;
    text.key("operations")?;
    put_table(
        alloc,
        &mut text,
        &tables.operations,
        ["interface", "operation", title],
    )?;
    text.key("pairs")?;
    put_table(alloc, &mut text, &tables.pairs, ["client", "server", ""])?;
    text.key("connections")?;
    put_connections(alloc, &mut text, tables)?;
    text.key("others")?;
    text.open(false)?;
    put_others(alloc, &mut text, "operations", tables.operations.others())?;
    put_others(alloc, &mut text, "pairs", tables.pairs.others())?;
    put_others(alloc, &mut text, "connections", tables.talks.others())?;
    text.close(false)?;
    text.key("capture")?;
    if capture.is_empty() {
        text.null()?;
    } else {
        capture.put_object(&mut text, false)?;
    }
    text.close(false)?;
    let mut octets = text.into_octets();
    octets.push(b'\n')?;
    Ok(octets)
}

/// Writes a list of rows. Their names are members with these titles.
fn put_table(
    alloc: Global,
    text: &mut JsonText,
    table: &Table,
    titles: [&str; 3],
) -> Result<(), AllocError> {
    text.open(true)?;
    for (names, row) in sorted_rows(alloc, table)? {
        text.open(false)?;
        for (title, name) in titles.iter().zip(names.split('\n')) {
            text.key(title)?;
            text.string(name)?;
        }
        put_row(alloc, text, row)?;
        text.close(false)?;
    }
    text.close(true)
}

/// Writes the list of connections.
fn put_connections(alloc: Global, text: &mut JsonText, tables: &Tables) -> Result<(), AllocError> {
    let mut talks = Vec::new(alloc);
    for (_, talk) in tables.talks.rows().iter() {
        talks.push(talk)?;
    }
    text.open(true)?;
    for talk in talks.iter().rev() {
        text.open(false)?;
        text.number_member("connection", talk.number)?;
        put_endpoint(text, ["client", "client_port"], talk.endpoint(false))?;
        put_endpoint(text, ["server", "server_port"], talk.endpoint(true))?;
        text.text_member_or_null("opened", &talk.opened)?;
        text.text_member_or_null("last", &talk.last)?;
        text.text_member_or_null("client_closed", talk.closing_word(false))?;
        text.text_member_or_null("server_closed", talk.closing_word(true))?;
        text.number_member("streams", talk.streams)?;
        put_row(alloc, text, &talk.row)?;
        text.close(false)?;
    }
    text.close(true)
}

/// Writes the address and the port of an endpoint.
fn put_endpoint(text: &mut JsonText, names: [&str; 2], end: &[u8]) -> Result<(), AllocError> {
    let end = Endpoint::of_text(utf8_or_empty(end));
    text.key(names[0])?;
    text.string(end.address)?;
    text.number_member_or_null(names[1], end.port)
}

/// Writes the row of all others, or null if there are none.
fn put_others(
    alloc: Global,
    text: &mut JsonText,
    name: &str,
    row: Option<&Row>,
) -> Result<(), AllocError> {
    text.key(name)?;
    let Some(row) = row else {
        return text.null();
    };
    text.open(false)?;
    put_row(alloc, text, row)?;
    text.close(false)
}

/// Writes the members of a row after its names.
fn put_row(alloc: Global, text: &mut JsonText, row: &Row) -> Result<(), AllocError> {
    for (name, count) in named_counts(row) {
        text.number_member(name, count)?;
    }
    text.key("seconds")?;
    put_times(alloc, text, &row.times)?;
    text.number_member("octets", row.octets)?;
    text.key("raised")?;
    text.open(false)?;
    for (id, count) in sorted_exception_ids(alloc, row)? {
        text.number_member(utf8_or_empty(id), count)?;
    }
    text.close(false)
}

/// The counts of a row, with their names.
pub(crate) fn named_counts(row: &Row) -> [(&'static str, u64); 8] {
    [
        ("calls", row.calls),
        ("oneways", row.oneways),
        ("replies", row.replies),
        ("user", row.user),
        ("system", row.system),
        ("faults", row.faults),
        ("unanswered", row.unanswered()),
        ("gaps", row.gaps),
    ]
}

/// Writes times as seconds, or null if there are none.
fn put_times(alloc: Global, text: &mut JsonText, times: &Times) -> Result<(), AllocError> {
    if times.is_empty() {
        return text.null();
    }
    text.open(false)?;
    for (name, time) in named_times(times) {
        if let Some(time) = time {
            let mut digits = Vec::new(alloc);
            put_seconds(&mut digits, time)?;
            text.key(name)?;
            text.number(&digits)?;
        }
    }
    text.close(false)
}

/// The times of a row, with their names. A time that the row doesn't have is None.
pub(crate) fn named_times(times: &Times) -> [(&'static str, Option<i128>); 6] {
    [
        ("min", Some(times.least())),
        ("median", times.percentile(50)),
        ("p95", times.percentile(95)),
        ("p99", times.percentile(99)),
        ("max", Some(times.most())),
        ("total", Some(times.total())),
    ]
}
