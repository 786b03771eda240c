//! What both programs do around their steps: they take the words of the command line, and say why these or a step failed
//! (docs/FORMATS.md, The program).

ghost use Rattle.std.specs.Prelude.{◌≡◌, ◌≢◌, ◌⊎◌, IfErr};
ghost use Rattle.clap.specs.Values.{kind_of};
ghost use Rattle.giop_run.specs.Console.{fault_status};

use super::fault::ProgramError;
use super::reason::Look;
use super::shown::{ShownName, ShownText};
use clap::Error;
use clap::error::ErrorKind;
use std::env;

/// The status if the arguments can't be read.
const USAGE: u8 = 2;

/// The status if the help can't be printed.
const FAILED: u8 = 4;

/// The words of the command line. The first one is the program's name.
pub fn command_line_words<'a>(rt: &HostRuntime) -> Result<Vec<String>, ProgramError<'a>>
    ensures { IfErr result (λ fault.
        (fault ≡ ProgramError.Words) ⊎ (fault ≡ ProgramError.OutOfMemory)) }
{
    let words = match env::args(rt) {
        Ok(words) => words,
        Err(error) => return Err(ProgramError::of_words(&error)),
    };
    match words.collect::<Vec<String>>(rt.alloc()) {
        Ok(words) => Ok(words),
        Err(_) => Err(ProgramError::OutOfMemory),
    }
}

/// Prints why the program of this name failed, and returns its status.
pub fn print_fault(rt: &HostRuntime, program: &str, fault: &ProgramError) -> u8
    ensures { result ≡ fault_status fault.now }
{
    let _ = eprintln!(rt; "{program}: {fault}");
    fault.status()
}

/// Prints why the program of this name failed, and returns its status. It also prints why a file can't be read, what a
/// refused signature file looks like, or where the name of a refused line is declared before.
pub fn print_fault_explained(rt: &HostRuntime, program: &str, fault: &ProgramError) -> u8
    ensures { result ≡ fault_status fault.now }
{
    let _ = match fault {
        ProgramError::Signatures {
            look: Look::Declared { name, line },
            ..
        } => eprintln!(rt; "{program}: {fault}: {}:{line}", ShownName(name)),
        _ => eprintln!(rt; "{program}: {fault}{}", fault.explanation()),
    };
    fault.status()
}

/// Prints why the arguments of the program of this name can't be read, or prints the help that they ask for. Returns the
/// status.
pub fn print_clap_error(rt: &HostRuntime, program: &str, error: &Error) -> u8
    ensures memory { kind_of error.now ≡ ErrorKind.OutOfMemory → result ≡ 5 }
    ensures ok { (kind_of error.now ≡ ErrorKind.DisplayHelp)
        ⊎ (kind_of error.now ≡ ErrorKind.DisplayVersion) → (result ≡ 0) ⊎ (result ≡ 4) }
    ensures err { kind_of error.now ≢ ErrorKind.OutOfMemory
        → kind_of error.now ≢ ErrorKind.DisplayHelp → kind_of error.now ≢ ErrorKind.DisplayVersion
        → (result ≡ 2) ⊎ (result ≡ 4) }
{
    if error.kind() == ErrorKind::OutOfMemory {
        return print_fault(rt, program, &ProgramError::OutOfMemory);
    }
    let printed = if error.use_stderr() {
        rt.eprint(ShownText(error))
    } else {
        rt.print(ShownText(error))
    };
    match printed {
        Err(_) => FAILED,
        Ok(()) if error.use_stderr() => USAGE,
        Ok(()) => 0,
    }
}
