//! The tables as text.

use crate::choice::Settings;
use crate::columns::TextTable;
use crate::json_rows::{named_counts, named_times};
use crate::row::{OTHERS, Row};
use crate::seconds::put_short_seconds;
use crate::sorted::{sorted_exception_ids, sorted_rows};
use crate::table::Table;
use crate::tables::Tables;
use giop_view_parts::Capture;
use std::alloc::{AllocError, Global};

/// The greatest number of exceptions that are named below a row.
const NAMED: usize = 3;

/// The titles of the columns that name a connection.
const TALK: [&str; 8] = [
    "connection",
    "client",
    "server",
    "opened",
    "last",
    "client_closed",
    "server_closed",
    "streams",
];

/// The tables one after another, and then the lines of the capture, with an empty line between them.
pub(crate) fn text_of_tables(
    alloc: Global,
    settings: Settings<'_>,
    tables: &Tables,
    capture: &Capture,
) -> Result<Vec<u8>, AllocError> {
    let mut text = Vec::new(alloc);
    match settings.by {
        None => put_table(
            alloc,
            &mut text,
            &tables.operations,
            &["interface", "operation"],
        )?,
        Some(by) => {
            let titles = ["interface", "operation", by.column_title()];
            put_table(alloc, &mut text, &tables.operations, &titles)?;
        }
    }
    put_table(alloc, &mut text, &tables.pairs, &["client", "server"])?;
    if settings.has_connections {
        put_connections(alloc, &mut text, tables)?;
    }
    if !capture.is_empty() {
        put_empty_line(&mut text)?;
        capture.put_lines(&mut text)?;
    }
    Ok(text)
}

/// Appends an empty line, if the text isn't empty.
fn put_empty_line(text: &mut Vec<u8>) -> Result<(), AllocError> {
    if text.is_empty() {
        return Ok(());
    }
    text.extend_from_slice(b"\n")
}

/// Appends a table. The columns of its names have these titles.
fn put_table(
    alloc: Global,
    text: &mut Vec<u8>,
    table: &Table,
    titles: &[&str],
) -> Result<(), AllocError> {
    let mut sheet = TextTable::new(alloc);
    put_titles(alloc, &mut sheet, titles)?;
    for (names, row) in sorted_rows(alloc, table)? {
        sheet.begin_line()?;
        for name in names.split('\n') {
            sheet.add_cell(Vec::from_slice(alloc, name.as_bytes())?, true)?;
        }
        put_row(alloc, &mut sheet, row)?;
    }
    put_others(alloc, &mut sheet, table.others(), titles.len())?;
    put_text_table(text, &sheet)
}

/// Appends the table of connections.
fn put_connections(alloc: Global, text: &mut Vec<u8>, tables: &Tables) -> Result<(), AllocError> {
    let mut talks = Vec::new(alloc);
    for (_, talk) in tables.talks.rows().iter() {
        talks.push(talk)?;
    }
    let mut sheet = TextTable::new(alloc);
    put_titles(alloc, &mut sheet, &TALK)?;
    for talk in talks.iter().rev() {
        sheet.begin_line()?;
        put_number(alloc, &mut sheet, talk.number)?;
        for name in [
            talk.endpoint(false),
            talk.endpoint(true),
            &talk.opened,
            &talk.last,
            talk.closing_word(false),
            talk.closing_word(true),
        ] {
            sheet.add_cell(Vec::from_slice(alloc, name)?, true)?;
        }
        put_number(alloc, &mut sheet, talk.streams)?;
        put_row(alloc, &mut sheet, &talk.row)?;
    }
    put_others(alloc, &mut sheet, tables.talks.others(), TALK.len())?;
    put_text_table(text, &sheet)
}

/// Appends a sheet, with an empty line before it.
fn put_text_table(text: &mut Vec<u8>, sheet: &TextTable) -> Result<(), AllocError> {
    if sheet.has_only_titles() {
        return Ok(());
    }
    put_empty_line(text)?;
    sheet.put_lines(text)
}

/// Adds the line of titles.
fn put_titles(alloc: Global, sheet: &mut TextTable, titles: &[&str]) -> Result<(), AllocError> {
    let row = Row::new(alloc, true);
    sheet.begin_line()?;
    for title in titles {
        sheet.add_cell(Vec::from_slice(alloc, title.as_bytes())?, true)?;
    }
    for (title, _) in named_counts(&row) {
        sheet.add_cell(Vec::from_slice(alloc, title.as_bytes())?, false)?;
    }
    for (title, _) in named_times(&row.times) {
        sheet.add_cell(Vec::from_slice(alloc, title.as_bytes())?, false)?;
    }
    sheet.add_cell(Vec::from_slice(alloc, b"octets")?, false)
}

/// Adds the line of all others, if there are any.
fn put_others(
    alloc: Global,
    sheet: &mut TextTable,
    row: Option<&Row>,
    names: usize,
) -> Result<(), AllocError> {
    let Some(row) = row else {
        return Ok(());
    };
    sheet.begin_line()?;
    for _ in 0..names {
        sheet.add_cell(Vec::from_slice(alloc, OTHERS.as_bytes())?, true)?;
    }
    put_row(alloc, sheet, row)
}

/// Adds the cells of a row after its names, and its most frequent exceptions below.
fn put_row(alloc: Global, sheet: &mut TextTable, row: &Row) -> Result<(), AllocError> {
    for (_, count) in named_counts(row) {
        put_number(alloc, sheet, count)?;
    }
    for (_, time) in named_times(&row.times) {
        let mut cell = Vec::new(alloc);
        match time {
            Some(time) if !row.times.is_empty() => put_short_seconds(&mut cell, time)?,
            _ => cell.push(b'-')?,
        }
        sheet.add_cell(cell, false)?;
    }
    put_number(alloc, sheet, row.octets)?;
    let ids = sorted_exception_ids(alloc, row)?;
    for (id, count) in ids.iter().take(NAMED) {
        sheet.add_below(b"    ")?;
        sheet.add_below(itoa::Buffer::new().format(*count).as_bytes())?;
        sheet.add_below(b" ")?;
        sheet.add_below(id)?;
        sheet.add_below(b"\n")?;
    }
    Ok(())
}

/// Adds a cell with a number.
fn put_number(alloc: Global, sheet: &mut TextTable, number: u64) -> Result<(), AllocError> {
    let cell = Vec::from_slice(alloc, itoa::Buffer::new().format(number).as_bytes())?;
    sheet.add_cell(cell, false)
}
