//! Scripts, played: what the lines of a script come to in a World of nodes, and a whole script from a reader to a writer.
#![tactic(auto)]

mod asked;
mod playing;
mod reading;
mod stage;
mod telling;
mod whole;

pub use playing::play;
pub use whole::world;
