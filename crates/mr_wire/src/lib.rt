//! A wire: links that bytes come in and go out on. What one promises, one in memory, and one of the system's sockets.
#![tactic(auto)]

mod connection;
mod descriptors;
mod failures;
mod mem_link;
mod mem_wire;
mod peer;
mod probes;
mod ready_links;
mod sent_log;
mod socket_wire;
mod turning_away;
mod waited;
mod wire;

pub use descriptors::{descriptor_limit, most_links};
pub use mem_link::{MemLink, Reading, Writing};
pub use mem_wire::{Accepting, Connecting, MemWire, Waiting};
pub use socket_wire::SocketWire;
pub use waited::Waited;
pub use wire::{Failed, Moved, Wire};
