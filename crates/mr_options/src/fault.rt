//! Why a command line is refused.
use std::alloc::AllocError;
use thiserror::Error;

/// Why the program's words were refused. Its text is one line.
#[derive(Debug, Drop, Error)]
pub enum UsageFault {
    /// What the parser says: an unknown word, a number outside its range, an option given twice, a port left out.
    #[error("{0}")]
    Line(String),
    /// A value that the parser takes, and that is none: an id not of 40 lower-case hexadecimal digits.
    #[error("bad value")]
    BadValue,
    /// A mode that is neither `always` nor `no`.
    #[error("bad value: --sync takes always or no")]
    BadMode,
    /// A master that isn't a host, a colon and a port from 1 to 65535.
    #[error("bad value: --replicaof takes HOST:PORT")]
    BadMaster,
    /// An address that isn't four numbers from 0 to 255 with dots between them.
    #[error("bad value: --bind takes an IPv4 address")]
    BadAddress,
    /// There was no memory to read the words.
    #[error("out of memory")]
    Memory,
}

impl From<AllocError> for UsageFault {
    ghost use Rattle.std.specs.Prelude.{◌≡◌};
    ghost use Rattle.mr_options.specs.declared.fault.UsageFault.TheVariants.{Memory};

    ghost from_gives = { λ _ fault. fault ≡ Memory };

    fn from(_error: AllocError) -> UsageFault {
        UsageFault::Memory
    }
}
