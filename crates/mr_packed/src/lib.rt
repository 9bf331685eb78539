//! Short strings, and pairs of them, one after another in one piece of memory.
#![tactic(auto)]

mod bytes;
mod packed;
mod pairs;
mod strings;
mod two_by_two;

pub use packed::Packed;
pub use pairs::PackedPairs;
pub use strings::Strings;
pub use two_by_two::TwoByTwo;
