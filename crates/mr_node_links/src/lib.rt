//! A node's ends of its links: clients', replicas', that of the link to its master, and those that it closed.
#![tactic(auto)]

mod end;
mod ends;
mod introduction;
mod kind;
mod shutting;
mod transaction;

pub use end::LinkEnd;
pub use ends::Ends;
pub use introduction::Introduction;
pub use kind::Kind;
pub use transaction::Transaction;
