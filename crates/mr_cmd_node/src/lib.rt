//! Commands to the node: what a replica sends its master, whom the node follows, and what a client does as one. Their words are read
//! here; what is done about them the node alone knows.
#![tactic(auto)]

pub mod arguments;
mod node_ask;
mod told;

pub use node_ask::{NodeAsk, ReplicaOption};
pub use told::{Told, ToldIter};
