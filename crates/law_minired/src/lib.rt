//! The language of minired's replicas: its datasets, groups of its effects and their texts, a master's lines, requests, snapshots
//! and files, with the proof that it keeps the laws on which the headline rests. So the headline holds of minired's own language.
//!
//! That each call on a node is one row of a world's events is for the crates above to prove.
//!
//! - `specs/Changes.antt`: the effects of a request, which are those of its plan at a node that is a master, and those of a tick,
//!   each a group of its own;
//! - `specs/Snapshots.antt`, `specs/Lines.antt`, `specs/Requests.antt`: what is said on a link of two nodes, and what a file is read as;
//! - `specs/Minired.antt`: all of these as a language.
#![tactic(auto)]

pub mod laws;
