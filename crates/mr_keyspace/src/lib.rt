//! What keys hold, and what each effect does to it.
#![tactic(auto)]

mod deadlines;
mod entries;
mod fault;
mod keyspace;
mod timed_key;
mod value;

pub use entries::Entries;
pub use fault::ApplyFault;
pub use timed_key::TimedKey;
pub use value::{Entry, Value};
