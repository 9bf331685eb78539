//! Commands on sets: their words, what is answered, and which effects they have.
#![tactic(auto)]

pub mod arguments;
mod combining;
mod drawing;
mod finding;
mod grouping;
mod laws;
mod moving;
mod planning;
mod set_ask;
mod telling;

pub use laws::{sets_are_combined, so_many_are_drawn};
pub use planning::plan;
pub use set_ask::{SetAsk, SetOperation};
