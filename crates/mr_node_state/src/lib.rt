//! What a node holds, and each change of it, said as an equation of whole states. It decides nothing and gives nothing out.
#![tactic(auto)]

mod held;
mod spent;
mod state;

pub use spent::Spent;
pub use state::State;
