//! Commands to the server itself: their words, and what is answered.
#![tactic(auto)]

pub mod arguments;
mod planning;
mod question;
mod server_ask;

pub use planning::plan;
pub use question::Question;
pub use server_ask::{Saving, ServerAsk};
