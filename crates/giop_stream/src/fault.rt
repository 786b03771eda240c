//! The faults that framing gives to a message, and why a call of an engine fails. Stream faults, which end a stream, are
//! defined beside the checkpoint that stores them.

ghost use Rattle.std.specs.Prelude.{◌≡◌};
ghost use Rattle.giop_stream.specs.Stops.{stop_number};

pub use giop_checkpoint::{LoadFault, StreamFault};
use giop_print::OutFault;
use thiserror::Error;

/// Why framing faults a message: because of its header, its request id or its size alone. `Display` is the word of its
/// line.
#[derive(Clone, Copy, Debug, PartialEq, Eq, Error)]
pub enum FramingFault {
    /// The message type is above 7, or is a Fragment in GIOP 1.0.
    #[error("message-type")]
    MessageType,
    /// A message of GIOP 1.1 is a Fragment, or has fragments.
    #[error("fragment-1.1")]
    OldFragment,
    /// A Fragment, or a message that has fragments, is too short for its request id.
    #[error("short")]
    Short,
    /// A Fragment has a request id that no open message has.
    #[error("no-open")]
    NoOpen,
    /// A message that has fragments has the request id of an open message.
    #[error("id-open")]
    IdOpen,
    /// A message has fragments, and as many messages are open as may be.
    #[error("too-many-open")]
    TooManyOpen,
    /// A Fragment has another byte order than the message that it continues.
    #[error("fragment-order")]
    FragmentOrder,
}

/// Why no new engine is made.
#[derive(Clone, Copy, Debug, PartialEq, Eq, Error)]
pub enum NewError {
    /// There wasn't enough memory for the open messages.
    #[error("out of memory")]
    OutOfMemory = 1,
}

/// Why a call wrote less than was due.
#[derive(Clone, Copy, Debug, PartialEq, Eq, Error)]
pub enum Stop {
    /// A put failed in this call, and a front of what was due is written. After a feed the engine has failed; after a save
    /// it is as it was.
    #[error("{0}")]
    Out(OutFault),
    /// The engine had failed before the call, and nothing is written.
    #[error("the engine was failed")]
    Failed,
}

impl Stop {
    /// The number of the refusal (docs/FORMATS.md, Refusals).
    pub fn number(&self) -> u8
        ensures { result ≡ stop_number self.now }
    {
        match self {
            Stop::Out(_) => 1,
            Stop::Failed => 2,
        }
    }
}
