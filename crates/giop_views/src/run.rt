//! The lines of a source, given to a view that writes to an out.

use crate::input::Input;
use giop_lines::read;
use giop_print::Flush;
use giop_run::Source;
use giop_view_parts::{View, ViewError};
use std::alloc::Global;

/// How a run ended.
#[derive(Clone, Copy, Debug, Drop, PartialEq, Eq)]
pub(crate) struct Report {
    /// The number of the line that no dump can have, if there was one.
    pub(crate) unknown: Option<u64>,
    /// Whether that is the first line, and it begins as a capture does.
    pub(crate) is_capture: bool,
    /// Whether the source failed.
    pub(crate) is_unread: bool,
}

/// Gives the lines of a source to a view. What the view writes is flushed before each read. At a line that no dump can
/// have, and if the source fails, the view ends as at the end of the dump.
pub(crate) fn run<S: Source, O: Flush, V: View>(
    alloc: Global,
    source: &mut S,
    out: &mut O,
    view: &mut V,
) -> Result<Report, ViewError> {
    let mut input = Input::new(alloc)?;
    let mut report = Report {
        unknown: None,
        is_capture: false,
        is_unread: false,
    };
    for _ in 0..u64::MAX {
        flush(out)?;
        match input.read_more(source) {
            Ok(true) => {}
            Ok(false) => break,
            Err(_) => {
                report.is_unread = true;
                break;
            }
        }
        if !take_lines(&mut input, out, view)? {
            report.unknown = Some(input.line_number());
            report.is_capture = input.begins_capture();
            break;
        }
    }
    view.finish(out)?;
    flush(out)?;
    Ok(report)
}

fn flush<O: Flush>(out: &mut O) -> Result<(), ViewError> {
    match out.flush() {
        Ok(()) => Ok(()),
        Err(_) => Err(ViewError::Out),
    }
}

/// Takes the lines that were read. Returns whether each of them is one of a dump.
fn take_lines<O: Flush, V: View>(
    input: &mut Input,
    out: &mut O,
    view: &mut V,
) -> Result<bool, ViewError> {
    for _ in 0..u64::MAX {
        let Some(text) = input.next_line() else {
            break;
        };
        let Some(line) = read(text) else {
            return Ok(false);
        };
        view.take_line(out, line)?;
    }
    Ok(true)
}
