//! The program: the words of its command line, its steps, and its status.

ghost use Rattle.std.specs.Prelude.{◌≡◌, ◌≤◌};
ghost use Rattle.giop_run.specs.Console.{fault_status};
ghost use Rattle.giop_capture.specs.Failures.{fault_of};
ghost use Rattle.giop_capture.specs.Steps.{HasStatus, IsStatus, capture_status as spec_status};

use crate::failure::DumpError;
use crate::hints::hint;
use crate::steps::perform_capture;
use crate::teller::Unknown;
use crate::{Arguments, Ending, Notice, Notices};
use giop_run::{
    Lines, ProgramError, Reason, Retrying, RunFault, ShownName, Watched, command_line_words,
    print_clap_error, print_fault, print_fault_explained,
};
use std::fs;
use std::io::Write;

/// The program's name, with which each message on standard error begins.
const PROGRAM: &str = "giopcap";

/// Prints notices on standard error.
#[derive(Drop)]
struct Console<'a> {
    rt: &'a HostRuntime,
    /// The greatest number of connections that are known at once.
    connections: u32,
}

/// It doesn't remember what it is told.
impl Notices for Console<'_> {
    ghost told = { λ _ _. Unit {0} };

    fn tell(&mut self, notice: Notice) {
        let _ = match notice {
            Notice::UnreadLink(link) => {
                eprintln!(self.rt; "{PROGRAM}: link type {link} isn't read")
            }
            Notice::NoRoom => {
                let connections = self.connections;
                eprintln!(self.rt; "{PROGRAM}: more than {connections} connections: --connections")
            }
            Notice::Tls => eprintln!(self.rt; "{PROGRAM}: TLS isn't read"),
            Notice::Ziop => eprintln!(self.rt; "{PROGRAM}: ZIOP isn't read"),
        };
    }
}

/// Runs the program, and returns its status.
pub fn program(rt: &HostRuntime) -> u8
    ensures most { result ≤ 5 }
    ensures status { IsStatus result }
{
    let words = match command_line_words(rt) {
        Ok(words) => words,
        Err(fault) => return print_fault(rt, PROGRAM, &fault),
    };
    match Arguments::read(rt.alloc(), words.as_slice()) {
        Err(error) => print_clap_error(rt, PROGRAM, &error),
        Ok(asked) => print_capture(rt, asked),
    }
}

/// Takes the steps after the words of the command line, with the lines on standard output. Returns the program's status.
fn print_capture(rt: &HostRuntime, asked: Arguments) -> u8
    ensures most { result ≤ 5 }
    ensures status { HasStatus asked.entry result }
{
    let name = asked.capture;
    let console = Console {
        rt,
        connections: asked.connections,
    };
    let stdout = Watched::new(Retrying::new(rt.stdout()));
    let Ok(lines) = Lines::new(rt.alloc(), stdout) else {
        return print_fault(rt, PROGRAM, &ProgramError::OutOfMemory);
    };
    match perform_capture::<_, _, _, Unknown>(rt, asked, lines, console) {
        Ok((ending, _)) => report_ending(rt, name, ending),
        Err(failure) => report_failure(rt, name, &failure),
    }
}

/// If a file was read to its end and is no capture, prints what it is. Returns the program's status.
fn report_ending(rt: &HostRuntime, name: Option<&str>, ending: Ending) -> u8
    ensures { result ≡ spec_status (Ok ending) }
{
    if let Ending::NoCapture(file) = ending {
        let hint = hint(file);
        let _ = match name {
            None => eprintln!(rt; "{PROGRAM}: standard input: {hint}"),
            Some(name) => eprintln!(rt; "{PROGRAM}: {}: {hint}", ShownName(name)),
        };
    }
    capture_status(&Ok(ending))
}

/// Prints why a capture wasn't dumped, and returns the program's status. If nobody reads the lines any more, nothing is
/// printed: a reader that has all it wants is no error.
fn report_failure<W: Write + Drop>(
    rt: &HostRuntime,
    name: Option<&str>,
    failure: &DumpError<'_, Lines<Watched<W>>>,
) -> u8
    ensures { result ≡ spec_status (Err (fault_of failure.now)) }
{
    let fault = failure.fault();
    match failure {
        DumpError::Run(RunFault::Out, lines) if lines.writer().reader_is_gone => fault.status(),
        DumpError::Run(RunFault::Read, _) => {
            print_fault_explained(rt, PROGRAM, &read_fault(rt, name))
        }
        _ => print_fault_explained(rt, PROGRAM, &fault),
    }
}

/// Why the reading of a capture failed. A folder can be opened like a file, but its first read fails.
fn read_fault<'a>(rt: &HostRuntime, name: Option<&'a str>) -> ProgramError<'a>
    ensures { fault_status result ≡ 4 }
{
    let Some(name) = name else {
        return ProgramError::Run(RunFault::Read);
    };
    match fs::metadata(rt, name) {
        Ok(metadata) if metadata.is_dir() => ProgramError::Unreadable {
            name,
            why: Reason::Folder,
        },
        _ => ProgramError::Run(RunFault::Read),
    }
}

/// The status that the program ends with: 0; or 1 if a fault was counted, a stream was cut, or the capture has a fault; or
/// the status of the failure.
pub fn capture_status(ended: &Result<Ending, ProgramError>) -> u8
    ensures { result ≡ spec_status ended.now }
{
    match ended {
        Ok(Ending::Whole) => 0,
        Ok(_) => 1,
        Err(fault) => fault.status(),
    }
}
