//! The connections of an event loop: whom each belongs to at the node, what waits to be sent, and when the master is dialled again.
#![tactic(auto)]

mod connection;
mod connections;
mod one;
mod patience;
mod table;

pub use connection::{Connection, FIRST_PIECE, PIECE};
pub use connections::Connections;
pub use patience::Patience;
