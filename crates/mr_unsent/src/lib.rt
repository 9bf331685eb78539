//! What waits to be sent on a link.
#![tactic(auto)]

mod queue;
mod unsent;

pub use unsent::Unsent;
