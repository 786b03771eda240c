//! Why a capture wasn't dumped.

ghost use Rattle.std.specs.Prelude.{◌≡◌};
ghost use Rattle.giop_capture.specs.Failures.{fault_of};

use giop_run::{ProgramError, RunFault};

/// Why a capture wasn't dumped, and what became of the out that its lines should have been put to.
#[derive(Drop)]
pub enum DumpError<'a, O: Drop> {
    /// A step before the reading failed, so nothing was put. Or a call failed without a put.
    Step(ProgramError<'a>),
    /// The reading or the writing failed. The out has what was put until then.
    Run(RunFault, O),
}

impl<'a, O: Drop> DumpError<'a, O> {
    /// The fault that the program prints.
    pub fn fault(&self) -> ProgramError<'a>
        ensures { result ≡ fault_of self.now }
    {
        match self {
            DumpError::Step(fault) => *fault,
            DumpError::Run(fault, _) => ProgramError::Run(*fault),
        }
    }
}

/// The fault of a step before the reading.
impl<'a, O: Drop> From<ProgramError<'a>> for DumpError<'a, O> {
    ghost use Rattle.std.specs.Prelude.{◌≡◌};
    ghost use Rattle.giop_capture.specs.declared.failure.DumpError.TheVariants.{Step};

    ghost from_gives = { λ fault failure. failure ≡ Step fault };

    fn from(fault: ProgramError<'a>) -> DumpError<'a, O> {
        DumpError::Step(fault)
    }
}
