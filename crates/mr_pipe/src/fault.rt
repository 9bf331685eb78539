// Why a pipe ends early.
ghost use Rattle.std.specs.Prelude.{◌≡◌};
ghost use Rattle.mr_pipe.specs.Faults.{fault_of};

use mr_node::NodeFault;
use thiserror::Error;

/// Why a pipe ends early. What was written until then is a beginning of the replies.
#[derive(Clone, Copy, Debug, PartialEq, Eq, Drop, Error)]
pub enum PipeFault {
    /// A read failed, or there were 2^64 - 1 of them.
    #[error("file failed")]
    Read,
    /// A write or a flush failed.
    #[error("file failed")]
    Write,
    /// The append-only file failed.
    #[error("file failed")]
    File,
    /// Memory ran out while effects were applied, and the node stopped.
    #[error("out of memory")]
    Stopped,
    /// Memory ran out.
    #[error("out of memory")]
    Memory,
}

impl From<NodeFault> for PipeFault {
    ghost from_gives = { λ refused fault. fault ≡ fault_of refused };

    fn from(fault: NodeFault) -> PipeFault {
        match fault {
            NodeFault::Memory | NodeFault::InputFull | NodeFault::NoLink => PipeFault::Memory,
            NodeFault::Stopped => PipeFault::Stopped,
        }
    }
}
