//! A node that follows and is followed: its dataset, its stream, and its links. One call is one step, by its row.
#![tactic(auto)]

mod config;
mod fault;
mod node;
mod noted;
mod replies;
mod request;
mod role;
mod step;
mod todo;
mod waited;
mod within;

pub use config::Config;
pub use fault::NodeFault;
pub use node::Node;
pub use role::Role;
pub use step::Step;
