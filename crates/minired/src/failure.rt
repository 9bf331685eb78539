//! Why the program ends with another status than 0.
use mr_file::OpenFault;
use mr_loop::LoopFault;
use mr_options::UsageFault;
use mr_pipe::PipeFault;
use mr_trio::TrioFault;
use std::io;
use thiserror::Error;

/// What failed with the append-only file.
#[derive(Debug, Drop, Error)]
pub enum FileFault {
    /// It can't be opened.
    #[error("{0}")]
    Open(OpenFault),
    /// It can't be read, or what stands behind its last effect can't be copied beside it or cut off.
    #[error("could not be read, or its end not be copied beside it and cut off: {0}")]
    Load(io::Error),
    /// What was to be written there can't be written, or not be synced.
    #[error("could not be written: {0}")]
    Write(io::Error),
}

/// Why the program fails. Its text stands on standard error, behind the program's name.
#[derive(Debug, Drop, Error)]
pub enum Failure {
    #[error("{0}")]
    Usage(UsageFault),
    #[error("{0}")]
    Pipe(PipeFault),
    #[error("{0}")]
    Loop(LoopFault),
    /// The node stopped in its master's stream.
    #[error("out of memory, or a group in the master's stream that does not apply as a whole")]
    Stream,
    #[error("{0}")]
    Trio(TrioFault),
    /// This port can't be listened on.
    #[error("socket failed\nport {0}: {1}")]
    Listen(u16, io::Error),
    /// The append-only file at this path failed.
    #[error("file failed\n{0}: {1}")]
    File(String, FileFault),
    /// The system gives no random bytes.
    #[error("file failed\nrandom bytes: {0}")]
    Random(io::Error),
    /// There was no memory to begin.
    #[error("out of memory")]
    Memory,
}

impl Failure {
    ghost use Rattle.std.specs.Prelude.{◌≡◌};
    ghost use Rattle.minired.specs.Ending.{status_of};

    /// The status that the program ends with.
    pub fn status(&self) -> u8
        ensures { result ≡ status_of self.now }
    {
        match self {
            Failure::Usage(UsageFault::Line(_)) => 1,
            Failure::Usage(UsageFault::BadValue) | Failure::Usage(UsageFault::BadMode) => 1,
            Failure::Usage(UsageFault::BadMaster) | Failure::Usage(UsageFault::BadAddress) => 1,
            Failure::Loop(LoopFault::Listener) | Failure::Listen(_, _) => 2,
            Failure::Trio(TrioFault::Socket) | Failure::Trio(TrioFault::Late) => 2,
            Failure::Loop(LoopFault::File) | Failure::Loop(LoopFault::Stopped) => 3,
            Failure::Usage(UsageFault::Memory) | Failure::Pipe(_) | Failure::Memory => 3,
            Failure::Stream => 3,
            Failure::Trio(TrioFault::Stream) | Failure::Trio(TrioFault::Stopped) => 3,
            Failure::File(_, _) | Failure::Random(_) => 3,
        }
    }
}

impl Failure {
    ghost use Rattle.std.specs.Prelude.{◌≡◌};
    ghost use Rattle.minired.specs.Ending.{is_told};

    /// Whether it is told on standard error. What came late was told on standard output.
    pub fn is_told(&self) -> bool
        ensures { result ≡ is_told self.now }
    {
        match self {
            Failure::Trio(TrioFault::Late) => false,
            _ => true,
        }
    }
}

impl From<UsageFault> for Failure {
    fn from(fault: UsageFault) -> Failure {
        Failure::Usage(fault)
    }
}

impl From<PipeFault> for Failure {
    fn from(fault: PipeFault) -> Failure {
        Failure::Pipe(fault)
    }
}

impl From<TrioFault> for Failure {
    fn from(fault: TrioFault) -> Failure {
        Failure::Trio(fault)
    }
}
