//! The words of a request: the names of commands, arguments, numbers and pairs among them, and why words are no command.
#![tactic(auto)]

mod expiry;
mod fault;
mod laws;
mod name;
mod numbers;
mod words;

pub use expiry::{Expiry, ExpiryUnit, Milliseconds, Seconds, within_limit};
pub use fault::{AskFault, BadValue, ExpiringCommand};
pub use laws::names_are_found;
pub use name::Name;
pub use numbers::{count, integer, not_below_1, offset};
pub use words::{Argument, Arguments, WordPairs, WordPairsIter, Words};
