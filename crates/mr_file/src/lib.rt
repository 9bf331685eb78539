//! Files that grow at their end: what one promises, one in memory, and one of the system; and outputs.
#![tactic(auto)]

mod again;
mod beside;
mod change;
mod kind;
mod log_file;
mod mem_file;
mod open_fault;
mod opening;
mod output;
mod sync_mode;
mod system_file;

pub use beside::{Aside, PIECE};
pub use change::Change;
pub use kind::OtherKind;
pub use log_file::{Failed, LogFile};
pub use mem_file::MemFile;
pub use open_fault::OpenFault;
pub use output::{OutputFault, write_out};
pub use sync_mode::SyncMode;
pub use system_file::SystemFile;
