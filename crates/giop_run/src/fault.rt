//! Why a run, or a step of the program, fails, in the words that the program prints.

ghost use Rattle.std.specs.Prelude.{◌≡◌, ◌≢◌};
ghost use Rattle.std.specs.IoError.{error_kind};
ghost use Rattle.giop_run.specs.Console.{fault_status, fault_explanation};
ghost use Rattle.giop_run.specs.Looks.{looks_of};

use super::reason::{Look, Reason};
use super::shown::ShownName;
use giop_checkpoint::LoadFault;
use giop_sig::{ListFault, ListFaultKind, SigFault, SigFaultKind};
use std::io;
use std::io::ErrorKind;
use thiserror::Error;

/// A read failed with an error of this kind, and gave no octets.
#[derive(Clone, Copy, Debug, PartialEq, Eq, Error)]
#[error("read failed")]
pub struct SourceFault {
    pub kind: ErrorKind,
}

/// Why a run failed. `Display` is what the program prints after its name.
#[derive(Clone, Copy, Debug, PartialEq, Eq, Error)]
pub enum RunFault {
    /// The source failed.
    #[error("read failed")]
    Read = 1,
    /// The source didn't end within the greatest number of reads.
    #[error("too many reads")]
    Turns = 2,
    /// The out failed.
    #[error("write failed")]
    Out = 3,
    /// The engine had failed before the run.
    #[error("engine failed")]
    Failed = 4,
}

/// Why the program failed. `Display` is what it prints after its name (docs/FORMATS.md, The program).
#[derive(Clone, Copy, Debug, Drop, PartialEq, Eq, Error)]
pub enum ProgramError<'a> {
    /// A word of the command line is no text.
    #[error("a word of the command line is not UTF-8")]
    Words,
    /// The signature file is refused. `look` tells what its text looks like.
    #[error("{}:{}: {fault}", ShownName(.name), .fault.line)]
    Signatures {
        name: &'a str,
        fault: SigFault,
        look: Look<'a>,
    },
    /// The request list is refused.
    #[error("{}:{}: {fault}", ShownName(.name), .fault.line)]
    Requests {
        name: &'a str,
        fault: ListFault,
    },
    /// The checkpoint is refused.
    #[error("{}: checkpoint refused: {fault}", ShownName(.name))]
    Checkpoint {
        name: &'a str,
        fault: LoadFault,
    },
    /// A file can't be opened, or a file that is read as a whole can't be read.
    #[error("{}: cannot read", ShownName(.name))]
    Unreadable {
        name: &'a str,
        why: Reason,
    },
    /// The file for a checkpoint can't be written. It still has the octets that it had.
    #[error("{}: cannot write", ShownName(.name))]
    Unwritable {
        name: &'a str,
    },
    /// The run failed.
    #[error("{0}")]
    Run(RunFault),
    /// There wasn't enough memory.
    #[error("out of memory")]
    OutOfMemory,
}

impl<'a> ProgramError<'a> {
    /// The fault for words of the command line that can't be read.
    pub fn of_words(error: &io::Error) -> ProgramError<'a>
        ensures text { error_kind error.now ≡ ErrorKind.InvalidData → result ≡ ProgramError.Words }
        ensures memory { error_kind error.now ≢ ErrorKind.InvalidData
            → result ≡ ProgramError.OutOfMemory }
    {
        if error.kind() == ErrorKind::InvalidData {
            ProgramError::Words
        } else {
            ProgramError::OutOfMemory
        }
    }

    /// The fault for a signature file of this name, with this text, that is refused.
    pub fn of_signatures(name: &'a str, fault: SigFault, text: &[u8]) -> ProgramError<'a>
        ensures memory { fault.kind ≡ SigFaultKind.OutOfMemory → result ≡ ProgramError.OutOfMemory }
        ensures refused { fault.kind ≢ SigFaultKind.OutOfMemory
            → result ≡ ProgramError.Signatures name.entry fault (looks_of text.now) }
    {
        if fault.kind == SigFaultKind::OutOfMemory {
            return ProgramError::OutOfMemory;
        }
        ProgramError::Signatures {
            name,
            fault,
            look: Look::of(text),
        }
    }

    /// The fault for a request list of this name that is refused.
    pub fn of_requests(name: &'a str, fault: ListFault) -> ProgramError<'a>
        ensures memory { fault.kind ≡ ListFaultKind.OutOfMemory →
            result ≡ ProgramError.OutOfMemory }
        ensures refused { fault.kind ≢ ListFaultKind.OutOfMemory
            → result ≡ ProgramError.Requests name.entry fault }
    {
        if fault.kind == ListFaultKind::OutOfMemory {
            return ProgramError::OutOfMemory;
        }
        ProgramError::Requests { name, fault }
    }

    /// The fault for a checkpoint of this name that is refused.
    pub fn of_checkpoint(name: &'a str, fault: LoadFault) -> ProgramError<'a>
        ensures memory { fault ≡ LoadFault.OutOfMemory → result ≡ ProgramError.OutOfMemory }
        ensures refused { fault ≢ LoadFault.OutOfMemory
            → result ≡ ProgramError.Checkpoint name.entry fault }
    {
        if fault == LoadFault::OutOfMemory {
            return ProgramError::OutOfMemory;
        }
        ProgramError::Checkpoint { name, fault }
    }

    /// What `giopcap` prints after the fault: why a file can't be read, or what a refused signature file looks like.
    pub fn explanation(&self) -> &'static str
        ensures { result.now ≡ fault_explanation self.now }
    {
        match self {
            ProgramError::Unreadable { why, .. } => why.words(),
            ProgramError::Signatures { look, .. } => look.words(),
            _ => "",
        }
    }

    /// The status that the program ends with.
    pub fn status(&self) -> u8
        ensures { result ≡ fault_status self.now }
    {
        match self {
            ProgramError::Words => 2,
            ProgramError::Signatures { .. }
            | ProgramError::Requests { .. }
            | ProgramError::Checkpoint { .. } => 3,
            ProgramError::Unreadable { .. }
            | ProgramError::Unwritable { .. }
            | ProgramError::Run(_) => 4,
            ProgramError::OutOfMemory => 5,
        }
    }
}
