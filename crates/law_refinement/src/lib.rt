//! What a node, a link and a World are to histories, and that what each call on a node does is a row there. Definitions and laws.
#![tactic(auto)]

pub mod headline;
pub mod laws;
