//! Why a view of lines can't go on.

use giop_print::OutFault;
use std::alloc::{AllocError, AllocFailed};
use thiserror::Error;

/// Why a view of lines can't go on.
#[derive(Clone, Copy, Debug, Drop, PartialEq, Eq, Error)]
pub enum ViewError {
    /// There wasn't enough memory.
    #[error("out of memory")]
    OutOfMemory,
    /// The out failed.
    #[error("write failed")]
    Out,
}

impl From<AllocError> for ViewError {
    fn from(_fault: AllocError) -> ViewError {
        ViewError::OutOfMemory
    }
}

impl<T: Drop> From<AllocFailed<T>> for ViewError {
    fn from(_fault: AllocFailed<T>) -> ViewError {
        ViewError::OutOfMemory
    }
}

impl From<OutFault> for ViewError {
    fn from(_fault: OutFault) -> ViewError {
        ViewError::Out
    }
}
