//! What the turns of the event loop come to for a node's file: it is its node's dataset. Definitions and laws.
#![tactic(auto)]

pub mod laws;
