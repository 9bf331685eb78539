//! A world of nodes, the links between them and to clients, their files, and the book of histories.
#![tactic(auto)]

mod connecting_laws;
mod event;
pub mod laws;
mod lending;
mod parts;
mod refusal;
mod running;
mod stepping;
mod world;

pub use connecting_laws::{connects_and_accepts_are_events, dials_are_events};
pub use event::Event;
pub use mr_links::Side;
pub use refusal::Refusal;
pub use world::World;
