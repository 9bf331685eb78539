//! What each call on a node does to its append-only file: the file makes the node's dataset, and grows by the texts of the groups that are
//! applied. Definitions and laws.
#![tactic(auto)]

pub mod laws;
