//! Why a rehearsal ends.
use std::alloc::{AllocError, AllocFailed};
use std::io::{self, ErrorKind};
use thiserror::Error;

/// Why a rehearsal ends before its last line.
#[derive(Debug, Drop, Error)]
pub enum RehearsalFault {
    /// A line is no call, or a call that isn't allowed.
    #[error("a line is no call")]
    Line,
    #[error("out of memory")]
    Memory,
    #[error("file failed")]
    Stream,
}

impl From<AllocError> for RehearsalFault {
    fn from(_: AllocError) -> RehearsalFault {
        RehearsalFault::Memory
    }
}

impl<T: Drop> From<AllocFailed<T>> for RehearsalFault {
    fn from(_: AllocFailed<T>) -> RehearsalFault {
        RehearsalFault::Memory
    }
}

impl From<io::Error> for RehearsalFault {
    fn from(error: io::Error) -> RehearsalFault {
        match error.kind() {
            ErrorKind::OutOfMemory => RehearsalFault::Memory,
            _ => RehearsalFault::Stream,
        }
    }
}
