//! What a node is given from outside: the time, chance, and ids that were never drawn.
#![tactic(auto)]

mod source;
mod system_source;

pub use source::Source;
pub use system_source::SystemSource;
