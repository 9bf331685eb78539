//! What a node tells of itself: INFO's text and ROLE's reply, from its role, the names of its stream, its replicas, and its link to a
//! master.
#![tactic(auto)]

mod replication;
mod roles;

pub use replication::info;
pub use roles::{MasterLink, Replica, master_role, replica_role};
