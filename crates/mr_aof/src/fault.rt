use mr_file::Failed;
use std::alloc::AllocError;
use thiserror::Error;

/// Why a call on a log failed.
#[derive(Clone, Copy, Debug, PartialEq, Eq, Error)]
pub enum LogFault {
    /// The file failed in this call.
    #[error("file failed")]
    Device,
    /// The file failed in an earlier call.
    #[error("file failed before")]
    Broken,
    /// Memory ran out while the file was read.
    #[error("out of memory")]
    Memory,
}

impl From<Failed> for LogFault {
    ghost use Rattle.std.specs.Prelude.{◌≡◌};
    ghost use Rattle.mr_aof.specs.declared.fault.LogFault.TheVariants.{Device};

    ghost from_gives = { λ _ fault. fault ≡ Device };

    fn from(_failed: Failed) -> LogFault {
        LogFault::Device
    }
}

impl From<AllocError> for LogFault {
    ghost use Rattle.std.specs.Prelude.{◌≡◌};
    ghost use Rattle.mr_aof.specs.declared.fault.LogFault.TheVariants.{Memory};

    ghost from_gives = { λ _ fault. fault ≡ Memory };

    fn from(_refused: AllocError) -> LogFault {
        LogFault::Memory
    }
}
