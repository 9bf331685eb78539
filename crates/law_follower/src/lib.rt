//! A replica in its master's stream: what it has applied of the bytes that came, whatever the calls. Definitions and laws over the contract of a
//! node.
#![tactic(auto)]

pub mod laws;
