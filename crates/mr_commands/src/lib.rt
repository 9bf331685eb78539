//! Plans of commands: what is answered, and which effects the command has, by the planner of its kind.
#![tactic(auto)]

mod laws;
mod planning;
mod requests;
mod transactions;
mod writing;

pub use laws::others_have_no_effects;
pub use planning::plan;
pub use requests::{Answer, answer_to, plan_words};
pub use transactions::{Within, comes_to, not_allowed};
pub use writing::writes;
