//! What a World is made of, and what a node gives out, carried to it.
#![tactic(auto)]

mod carry;
mod entry;
mod giving;
mod heard;
mod link;
mod restart;
mod slot;
mod way;

pub use carry::{give_step, give_tick};
pub use entry::{BookEntry, is_spent};
pub use giving::Giving;
pub use heard::give_heard;
pub use link::{Link, NodeEnd};
pub use restart::Restart;
pub use slot::Slot;
pub use way::Way;
