//! What a node is to a contract, and what each call on it does: one row for each outcome. Definitions, which a node and all that stands on it
//! are to cite, and laws over them. `mr_node` is bound to them.
#![tactic(auto)]

pub mod laws;
