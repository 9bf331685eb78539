//! Why a file of the system can't be opened.
use crate::kind::OtherKind;
use std::fs::TryLockError;
use std::io;
use thiserror::Error;

/// Why a file of the system can't be opened.
#[derive(Debug, Drop, Error)]
pub enum OpenFault {
    /// Another program writes it.
    #[error("in use")]
    InUse,
    /// The system refused.
    #[error("{0}")]
    System(io::Error),
    /// It is no regular file.
    #[error("{0}, and no regular file")]
    Kind(OtherKind),
    /// The system refused the empty file of this name, by whose lock others are kept away.
    #[error("its lock {0} can't be made: {1}")]
    Lock(String, io::Error),
    /// What stands under this name, of that empty file, is none.
    #[error("its lock {0} is {1}, and no regular file")]
    LockKind(String, OtherKind),
}

impl From<OtherKind> for OpenFault {
    fn from(kind: OtherKind) -> OpenFault {
        OpenFault::Kind(kind)
    }
}

impl From<io::Error> for OpenFault {
    fn from(error: io::Error) -> OpenFault {
        OpenFault::System(error)
    }
}

impl From<TryLockError> for OpenFault {
    fn from(error: TryLockError) -> OpenFault {
        match error {
            TryLockError::WouldBlock => OpenFault::InUse,
            TryLockError::Error(error) => OpenFault::System(error),
        }
    }
}
