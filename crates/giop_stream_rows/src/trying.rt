//! How a row is dumped in every way: whole, in pieces, ended early, to outs that fail, and saved and loaded.

ghost use Rattle.giop_stream.specs.EngineHolds.{IsRequestTableOf};

use super::difference::{Difference, compare, compare_front};
use super::early::Early;
use super::engine::{engine_for, loaded};
use super::faulty::Narrow;
use super::loading::is_loaded;
use super::row::Row;
use super::saving::is_saved;
use super::way::Way;
use giop_print::{Sheet, Written};
use giop_run::{ProgramError, RunFault, status};
use giop_sig::{Catalogue, Requests};
use giop_stream::{Engine, Totals};
use std::{fmt, io};

/// Dumps a row in every way, up to the first way in which it differs. The difference is printed.
pub fn is_dumped_each_way(
    rt: &HostRuntime,
    catalogue: &Catalogue,
    requests: &Requests,
    row: &Row,
    stream: &[u8],
) -> io::Result<bool>
    requires of { IsRequestTableOf catalogue.now requests.now }
{
    for way in [Way::Whole, Way::Narrow] {
        if !is_dumped(
            rt,
            engine_for(rt.alloc(), catalogue, requests, row.most)?,
            row,
            stream,
            way,
        )? {
            return Ok(false);
        }
    }
    Ok(
        is_dumped_cut(rt, catalogue, requests, row, stream)?
            && is_dumped_early(rt, catalogue, requests, row, stream)?
            && is_dumped_over_failing(rt, catalogue, requests, row, stream)?
            && is_saved(rt, catalogue, requests, row, stream)?
            && is_loaded(rt, catalogue, requests, row, stream)?,
    )
}

/// Dumps a row in the ways that depend on a number of octets, for each such number.
fn is_dumped_cut(
    rt: &HostRuntime,
    catalogue: &Catalogue,
    requests: &Requests,
    row: &Row,
    stream: &[u8],
) -> io::Result<bool>
    requires of { IsRequestTableOf catalogue.now requests.now }
{
    for at in 0..stream.len() + 1 {
        for way in Way::at(at) {
            if !is_dumped(
                rt,
                engine_for(rt.alloc(), catalogue, requests, row.most)?,
                row,
                stream,
                way,
            )? {
                return Ok(false);
            }
        }
    }
    Ok(true)
}

/// Ends the stream of a row after each of its octets, in the order in which the row says what is written then.
fn is_dumped_early(
    rt: &HostRuntime,
    catalogue: &Catalogue,
    requests: &Requests,
    row: &Row,
    stream: &[u8],
) -> io::Result<bool>
    requires of { IsRequestTableOf catalogue.now requests.now }
{
    if row.early.is_empty() {
        return Ok(true);
    }
    let mut at = 0usize;
    for word in row.early.split(' ') {
        let Some((early, count)) = Early::read(word) else {
            return malformed(rt, row.name, word);
        };
        if !is_dumped_alike(rt, catalogue, requests, row, stream, &early, at, count)? {
            return Ok(false);
        }
        at = at.saturating_add(count);
    }
    if at != stream.len() + 1 {
        return malformed(rt, row.name, row.early);
    }
    Ok(true)
}

/// Ends the stream of a row after several numbers of octets, for which one word says what is written.
fn is_dumped_alike(
    rt: &HostRuntime,
    catalogue: &Catalogue,
    requests: &Requests,
    row: &Row,
    stream: &[u8],
    early: &Early,
    from: usize,
    count: usize,
) -> io::Result<bool>
    requires of { IsRequestTableOf catalogue.now requests.now }
{
    for at in from..from.saturating_add(count) {
        let ended = is_dumped_to(
            rt,
            engine_for(rt.alloc(), catalogue, requests, row.most)?,
            row,
            stream,
            early,
            at,
        )?;
        if !ended
            || !is_dumped_up_to(
                rt,
                engine_for(rt.alloc(), catalogue, requests, row.most)?,
                row,
                stream,
                early,
                at,
            )?
        {
            return Ok(false);
        }
    }
    Ok(true)
}

/// Ends the stream of a row after this number of octets.
fn is_dumped_to(
    rt: &HostRuntime,
    engine: Box<Engine>,
    row: &Row,
    stream: &[u8],
    early: &Early,
    at: usize,
) -> io::Result<bool> {
    let Some(lines) = early.text(rt.alloc(), row.lines, at) else {
        return malformed(rt, row.name, row.early);
    };
    let ended = Row {
        status: early.status(),
        lines: &lines,
        ..*row
    };
    is_dumped(rt, engine, &ended, stream, Way::Early(at))
}

/// Makes a read of the stream of a row fail after this number of octets. If the stream has stopped by then, it isn't read
/// on.
fn is_dumped_up_to(
    rt: &HostRuntime,
    engine: Box<Engine>,
    row: &Row,
    stream: &[u8],
    early: &Early,
    at: usize,
) -> io::Result<bool> {
    if early.is_stopped(row.lines) {
        return Ok(true);
    }
    let Some(front) = early.front(rt.alloc(), row.lines) else {
        return malformed(rt, row.name, row.early);
    };
    let broken = Row {
        status: 4,
        lines: front.strip_suffix('\n').unwrap_or(""),
        ..*row
    };
    is_dumped(rt, engine, &broken, stream, Way::Broken(at))
}

/// Dumps a row to outs that fail at the first put, at the second, and so on, until no put fails any more.
fn is_dumped_over_failing(
    rt: &HostRuntime,
    catalogue: &Catalogue,
    requests: &Requests,
    row: &Row,
    stream: &[u8],
) -> io::Result<bool>
    requires of { IsRequestTableOf catalogue.now requests.now }
{
    for puts in 0..row.lines.len() {
        let way = Way::Failing(puts);
        match dumped_over(
            rt,
            engine_for(rt.alloc(), catalogue, requests, row.most)?,
            row,
            stream,
            way,
        )? {
            Failed::Rightly => {}
            Failed::Never => return Ok(true),
            Failed::Wrongly => return Ok(false),
        }
    }
    Ok(true)
}

/// How a dump to a failing out went.
enum Failed {
    /// A front of the lines was written, and nothing after the put that failed.
    Rightly,
    /// There were other lines or another status. This was printed.
    Wrongly,
    /// No put failed, and the lines of the row were written.
    Never,
}

/// Dumps a row to an out that fails.
fn dumped_over(
    rt: &HostRuntime,
    engine: Box<Engine>,
    row: &Row,
    stream: &[u8],
    way: Way,
) -> io::Result<Failed> {
    let mut room = [0; 16_384];
    let mut sheet = Sheet::new(&mut room);
    let is_right = match dump(engine, stream, way, &mut sheet) {
        Ok(totals) => {
            if is_as_told(rt, row, &way, sheet.held(), status_of(Ok(totals)))? {
                return Ok(Failed::Never);
            }
            false
        }
        Err(fault) => is_front(rt, row, way, sheet.held(), status_of(Err(fault)))?,
    };
    Ok(if is_right {
        Failed::Rightly
    } else {
        Failed::Wrongly
    })
}

/// Compares what was written up to a put that failed, and the status.
fn is_front(rt: &HostRuntime, row: &Row, way: Way, written: &[u8], status: u8) -> io::Result<bool> {
    match compare_front(row.lines, written, status) {
        None => Ok(true),
        Some(found) => differs(rt, row.name, &way, &found),
    }
}

/// Dumps a row in one way.
fn is_dumped(
    rt: &HostRuntime,
    engine: Box<Engine>,
    row: &Row,
    stream: &[u8],
    way: Way,
) -> io::Result<bool> {
    let mut room = [0; 16_384];
    let mut sheet = Sheet::new(&mut room);
    let ended = dump(engine, stream, way, &mut sheet);
    is_as_told(rt, row, &way, sheet.held(), status_of(ended))
}

/// Dumps a stream in one way, to a writer to a sheet. All ways use one type of out, because the engine is compiled for each
/// type.
fn dump(
    engine: Box<Engine>,
    stream: &[u8],
    way: Way,
    sheet: &mut Sheet,
) -> Result<Totals, RunFault> {
    let (width, puts) = way.puts();
    way.dump(
        engine,
        stream,
        &mut Written::new(Narrow::new(sheet, width, puts)),
    )
}

/// The status of the program after such a run.
fn status_of(ended: Result<Totals, RunFault>) -> u8 {
    match ended {
        Ok(totals) => status(&Ok(totals)),
        Err(fault) => status(&Err(ProgramError::Run(fault))),
    }
}

/// Whether these are the lines and the status of the row.
pub fn is_as_told(
    rt: &HostRuntime,
    row: &Row,
    way: &impl fmt::Display,
    written: &[u8],
    status: u8,
) -> io::Result<bool> {
    match compare(row.lines, row.status, written, status) {
        None => Ok(true),
        Some(found) => differs(rt, row.name, way, &found),
    }
}

/// Prints a row that differs.
pub fn differs(
    rt: &HostRuntime,
    name: &str,
    way: &impl fmt::Display,
    found: &Difference,
) -> io::Result<bool> {
    println!(rt; "DIFFERS {name}, {way}, {found}")?;
    Ok(false)
}

/// Prints a text of a row that can't be read.
pub fn malformed(rt: &HostRuntime, name: &str, text: &str) -> io::Result<bool> {
    println!(rt; "MALFORMED {name}: {text}")?;
    Ok(false)
}
