//! How a program views a file or standard input, and what it prints about that.

ghost use Rattle.std.specs.Prelude.{◌≤◌};

use crate::run::{Report, run};
use crate::watching::WatchedWriter;
use giop_run::{
    Inputs, Lines, Look, ProgramError, Retrying, RunFault, ShownName, Source, open_file,
    print_fault,
};
use giop_view_parts::{Dump, Maker, Notice, View, ViewError};

/// The status if a line isn't one of a dump.
const UNKNOWN: u8 = 3;

/// The status if nobody reads what is written.
const UNREAD: u8 = 4;

/// Writes to standard output what the program of this name makes of the lines of a file, or of standard input. Returns the
/// status of the program, after it has printed what there is to say about the run.
pub fn run_view<V: Maker + Drop>(
    rt: &HostRuntime,
    program: &str,
    file: Option<&str>,
    maker: V,
) -> u8
    ensures { result ≤ 5 }
{
    let Ok(mut view) = Dump::new(rt.alloc(), maker) else {
        return print_fault(rt, program, &ProgramError::OutOfMemory);
    };
    let Some(name) = file else {
        return view_source(rt, program, file, rt.standard_input(), &mut view);
    };
    match open_file(rt, name) {
        Ok(source) => view_source(rt, program, file, source, &mut view),
        Err(fault) => print_fault(rt, program, &fault),
    }
}

/// Does the same for the lines of a source.
fn view_source<S: Source + Drop, V: View>(
    rt: &HostRuntime,
    program: &str,
    file: Option<&str>,
    source: S,
    view: &mut V,
) -> u8
    ensures { result ≤ 5 }
{
    let writer = WatchedWriter::new(Retrying::new(rt.stdout()));
    let Ok(mut out) = Lines::new(rt.alloc(), writer) else {
        return print_fault(rt, program, &ProgramError::OutOfMemory);
    };
    let mut source = source;
    match run(rt.alloc(), &mut source, &mut out, view) {
        Ok(report) => {
            print_unknown_line(rt, program, file, report);
            let is_lost = print_notice(rt, program, view.notice());
            exit_status(rt, program, report, is_lost)
        }
        Err(ViewError::OutOfMemory) => print_fault(rt, program, &ProgramError::OutOfMemory),
        Err(ViewError::Out) if out.writer().is_unread() => UNREAD,
        Err(ViewError::Out) => print_fault(rt, program, &ProgramError::Run(RunFault::Out)),
    }
}

/// Prints which line no dump can have, if there was one.
fn print_unknown_line(rt: &HostRuntime, program: &str, file: Option<&str>, report: Report) {
    let Some(number) = report.unknown else {
        return;
    };
    let name = file.unwrap_or("standard input");
    let look = if report.is_capture {
        Look::Capture
    } else {
        Look::Other
    };
    let _ = eprintln!(rt;
        "{program}: {}:{number}: no dump has this line{}",
        ShownName(name),
        look.words()
    );
}

/// Prints how many things there was no room for, if there were any. Returns whether something that was due is missing.
fn print_notice(rt: &HostRuntime, program: &str, notice: Option<Notice>) -> bool {
    match notice {
        Some(notice) if notice.count > 0 => {
            let ending = if notice.count == 1 { "" } else { "s" };
            let _ = eprintln!(rt;
                "{program}: {} {}{ending} {}: --hold",
                notice.count, notice.noun, notice.fate
            );
            notice.is_loss
        }
        _ => false,
    }
}

/// The status of a run. If the source failed, prints that first.
fn exit_status(rt: &HostRuntime, program: &str, report: Report, is_lost: bool) -> u8
    ensures { result ≤ 5 }
{
    if report.is_unread {
        return print_fault(rt, program, &ProgramError::Run(RunFault::Read));
    }
    if report.unknown.is_some() {
        return UNKNOWN;
    }
    u8::from(is_lost)
}
