//! What a node is in replication: master or replica, its stream, and its reader of what its master sends.
#![tactic(auto)]

mod course;
mod parts;
mod upstream;

pub use course::Course;
pub use upstream::{UpstreamFault, UpstreamStep};
