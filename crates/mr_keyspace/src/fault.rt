// Why an effect wasn't done.
ghost use Rattle.std.specs.Prelude.{◌≡◌};
ghost use Rattle.mr_keyspace.specs.declared.fault.ApplyFault.TheVariants.{Memory};

use std::alloc::AllocError;
use thiserror::Error;

/// Why an effect wasn't done.
#[derive(Clone, Copy, Debug, PartialEq, Eq, Error)]
pub enum ApplyFault {
    /// The effect is undefined at this dataset, which is unchanged.
    #[error("the effect does not apply")]
    Refused,
    /// Memory ran out. The dataset is spent: it is a dataset still, but nothing is said of what it holds.
    #[error("out of memory")]
    Memory,
}

impl From<AllocError> for ApplyFault {
    ghost from_gives = { λ _ fault. fault ≡ Memory };

    fn from(_: AllocError) -> ApplyFault {
        ApplyFault::Memory
    }
}
