//! Commands on lists: their words, what is answered, and which effects they have.
#![tactic(auto)]

pub mod arguments;
mod edits;
mod ends;
mod finding;
mod list_ask;
mod moves;
mod parts;
mod planning;
mod pops;
mod pushes;
mod replies;
mod sequels;
mod telling;

pub use list_ask::{ListAsk, PushTo};
pub use planning::plan;
pub use sequels::{what_is_pushed_is_read, what_is_shown_is_moved, what_is_shown_is_popped};
