//! The words of a request, read as a command: the table of all commands.
#![tactic(auto)]

mod ask;
mod group;
mod laws;
mod reading;

pub use ask::Ask;
pub use group::Group;
pub use laws::{first_fault_is_answered, spelled_is_read};
pub use reading::read;
