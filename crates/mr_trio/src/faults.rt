// What failed below, as a trio's fault.
ghost use Rattle.std.specs.Prelude.{◌≡◌};
ghost use Rattle.mr_trio.specs.Faults.{of_client, of_loop};

use mr_loop::LoopFault;
use mr_trio_script::{ClientFault, TrioFault};

/// A node without a file whose file failed was stopped.
pub(crate) fn of_loop(fault: LoopFault) -> TrioFault
    ensures { result ≡ of_loop fault }
{
    match fault {
        LoopFault::Listener => TrioFault::Socket,
        LoopFault::File | LoopFault::Stopped => TrioFault::Stopped,
    }
}

/// A client's fault as a trio's: its link failed, or there was no memory.
pub(crate) fn of_client(fault: ClientFault) -> TrioFault
    ensures { result ≡ of_client fault }
{
    match fault {
        ClientFault::Link => TrioFault::Socket,
        ClientFault::Memory => TrioFault::Stopped,
    }
}
