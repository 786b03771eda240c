//! Where the program reads octets from: files by their names, and standard input.

ghost use Rattle.std.specs.Prelude.{◌≡◌, ℕ, List, Option, None, IfOk, IfErr};
ghost use Rattle.std.specs.IoError.{error_kind};
ghost use Rattle.std.specs.declared.io.ErrorKind.{ErrorKind};
ghost use Rattle.giop_run.specs.SourceLog.{unread_source};

use super::reading::Reading;
use super::source::Source;
use std::fs::File;
use std::io;
use std::io::Stdin;

/// Files that can be opened by name, and standard input.
pub trait Inputs {
    /// An open file.
    type File: Source + Drop;

    /// Standard input.
    type Standard: Source + Drop;

    /// What the file of a name holds, if the contracts know it.
    ghost held: { Self → List ℕ → Option (List ℕ) };

    /// What standard input gives, if the contracts know it.
    ghost given: { Self → Option (List ℕ) };

    /// The errors for which the file of a name can't be opened or read.
    ghost refuses: { Self → List ℕ → ErrorKind → Type 0 };

    /// Opens a file. Nothing of it has been read.
    fn open(&self, name: &str) -> io::Result<Self::File>
        ensures ok { IfOk result
            (λ file. Self.File.log file ≡ unread_source (held self.now name.now)) }
        ensures read { IfOk result (λ file. (kind : ErrorKind)
            → Self.File.fails file kind → refuses self.now name.now kind) }
        ensures err { IfErr result (λ error. refuses self.now name.now (error_kind error)) };

    /// Gives standard input. Nothing of it has been read.
    fn standard_input(&self) -> Self::Standard
        ensures { Self.Standard.log result ≡ unread_source (given self.now) };
}

/// The files and the standard input of the system. The contracts know neither what they hold nor when they fail.
impl Inputs for HostRuntime {
    type File = Reading<File>;

    type Standard = Reading<Stdin>;

    ghost held = { λ _ _. None };

    ghost given = { λ _. None };

    ghost refuses = { λ _ _ _. Unit {0} };

    fn open(&self, name: &str) -> io::Result<Reading<File>> {
        Ok(Reading::new(File::open(self, name)?))
    }

    fn standard_input(&self) -> Reading<Stdin> {
        Reading::new(self.stdin())
    }
}
