//! Three nodes and a client in one process, which speak over sockets: a script says what the client asks, and is answered what it got.
#![tactic(auto)]

mod desk;
mod eager_wire;
mod faults;
mod level;
mod member;
mod numbered_source;
mod starting;
mod three;

pub use mr_trio_script::TrioFault;
pub use starting::trio;
